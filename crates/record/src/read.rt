// Reads the records of the areas, each given the bytes from its first on. docs/AREAS.md has their offsets.
ghost use Rattle.std.specs.Prelude.{true, ◌≡◌, ◌≤◌, ◌*◌, length, drop};
ghost use Rattle.keys.specs.Text.{bare_of};
ghost use Rattle.session.specs.Area.{full_key, held, pressed, entry, decode};
ghost use Rattle.session.specs.Codec.{get_many};
ghost use Rattle.session.specs.Limits.{KEY_TEXT_MOST, UNITS_MOST, ENTRIES_MOST, ENTRIES_AT, HELD_AT as held_at, ENTRY_SIZE as entry_size};
ghost use Rattle.session.specs.Questions.{is_held};
ghost use Rattle.session.specs.Session.{token_of, open_count};
ghost use Rattle.record.specs.Pending.{pending_of};

use keys::Key;
use lookup::keyboard::KeyLParam;
use session::{COUNT_AT, ENTRY_SIZE, HELD_AT, PendingMessageToken};

// ---- keys

// The key without its text.
pub fn bare_key_at(s: &[u8]) -> Key
    requires { 7 ≤ length s.now }
    ensures { result ≡ bare_of ((full_key KEY_TEXT_MOST).get s.now) }
{
    let number = area::get_u16(s, 0);
    let value = area::get_u32(s, 3);
    keys::key_number::key_at(number, s[2], value)
}

// ---- the held press

// How many units the held press has.
pub fn unit_count(session: &[u8]) -> usize
    requires { (ENTRIES_AT ≤ length session.now) × (held.ok (drop held_at session.now) ≡ true) }
    ensures { (result ≡ length (held.get (drop held_at session.now)).units) × (result ≤ UNITS_MOST) }
{
    session[HELD_AT + 71] as usize
}

// ---- entries and header

// What an entry holds: an open press, release or character, or a completed event.
#[derive(Clone, Copy)]
pub enum Pending {
    Press,
    Release,
    Character,
    Complete,
}

// Of an open press its virtual key and what its lParam says.
#[derive(Clone, Copy)]
pub struct PressedKey {
    pub vkey: u16,
    pub lparam: KeyLParam,
}

// What stands before the entries: the tokens handed out, whether a press is held, the number of entries.
#[derive(Clone, Copy)]
pub struct Header {
    pub handed: u16,
    pub held: bool,
    pub count: u16,
}

pub fn pressed_at(s: &[u8]) -> PressedKey
    requires { (5 ≤ length s.now) × (pressed.ok s.now ≡ true) }
    ensures { (result.vkey, result.lparam) ≡ pressed.get s.now }
{
    PressedKey {
        vkey: area::get_u16(s, 0),
        lparam: KeyLParam {
            scancode: s[2],
            extended: s[3] == 1,
            is_repeat: s[4] == 1,
        },
    }
}

pub fn token_at(s: &[u8]) -> PendingMessageToken
    requires { entry_size ≤ length s.now }
    ensures { result.0 ≡ token_of (entry.get s.now) }
{
    PendingMessageToken(area::get_u16(s, 0) as u32)
}

pub fn pending_at(s: &[u8]) -> Pending
    requires { entry_size ≤ length s.now }
    ensures { result ≡ pending_of (entry.get s.now) }
{
    if s[2] != 0 {
        return Pending::Complete;
    }
    if s[3] == 0 {
        return Pending::Press;
    }
    if s[4] == 0 {
        return Pending::Release;
    }
    Pending::Character
}

pub fn header_at(session: &[u8]) -> Header
    requires { ENTRIES_AT ≤ length session.now }
    ensures { (result.handed ≡ (decode session.now).handed) × (result.held ≡ is_held (decode session.now).held) × (result.count ≡ length (decode session.now).entries) }
{
    Header {
        handed: area::get_u16(session, 0),
        held: session[2] != 0,
        count: area::get_u16(session, COUNT_AT),
    }
}

// How many of n entries, from the first byte on, are unresolved: how many messages are open.
pub fn open_count(s: &[u8], n: usize) -> usize
    requires { (n ≤ ENTRIES_MOST) × (n * entry_size ≤ length s.now) }
    ensures { result ≡ open_count (get_many entry n s.now) }
{
    let mut open: usize = 0;
    for i in 0..n {
        if s[ENTRY_SIZE * i + 2] == 0 {
            open += 1;
        }
    }
    open
}
