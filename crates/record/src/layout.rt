// Writes what is read from the layout: the texts of its keys go from the block into the area, each copied once.
// docs/AREAS.md has the offsets.
ghost use Rattle.std.specs.Prelude.{true, [], ◌≡◌, ◌+◌, ◌≤◌, ◌<◌, length, Some};
ghost use Rattle.area.specs.Splice.{splice};
ghost use Rattle.text.specs.Unicode.{scalar, utf8_of};
ghost use Rattle.keys.specs.Text.{character, full, text_in, text_from};
ghost use Rattle.lookup.specs.Layout.{part_of, key_in};
ghost use Rattle.session.specs.Area.{bytes_of, text_bytes, opt_text, full_key, event, info, held_field, entry};
ghost use Rattle.session.specs.Builder.{undead};
ghost use Rattle.session.specs.InBlock.{info_in, plain_in, event_in, FitsIn, InfoIn, EventIn};
ghost use Rattle.session.specs.Limits.{TEXT_MOST as text_most, KEY_TEXT_MOST as key_text_most, INFO_SIZE, EVENT_SIZE, HELD_FIELD_SIZE, ENTRY_SIZE as entry_size};
ghost use Rattle.session.specs.Session.{release, waiting};

use keys::key_number::KeyFields;
use keys::{Key, KeyText, NativeKeyCode};
use lookup::keyboard_layout::LayoutKey;
use session::{
    ENTRY_SIZE, KEY_TEXT_MOST, KeyEvent, PartialKeyEventInfo, PendingMessageToken, TEXT_MOST,
    UNITS_MOST,
};

// ---- keys and texts

// A text's length, its bytes, zeros behind.
fn put_part(s: &mut [u8], at: usize, most: usize, t: &[u8])
    requires { (at + (1 + most) ≤ length s.old) × (length t.now ≤ most) × (most ≤ text_most) }
    ensures { s.new ≡ splice at ((text_bytes most).put t.now) s.old }
{
    area::put_u8(s, at, t.len() as u8);
    area::span::put_padded(s, at + 1, most, t);
}

// The part of the block that is a key's text: a character's own, of any other key none.
#[tactic(auto, unfolding(keys::specs::Text::full, keys::specs::Text::text_in))]
fn own_part<'a>(block: &'a [u8], k: LayoutKey) -> &'a [u8]
    ensures { result.now ≡ text_in (key_in block.now k) }
{
    if let Key::Character = k.key {
        return lookup::keyboard_layout::key_text(block, k);
    }
    &block[0..0]
}

// A key's number, what it holds beside it, its text t.
fn put_with(s: &mut [u8], at: usize, most: usize, key: Key, t: &[u8])
    requires { (at + (8 + most) ≤ length s.old) × (length t.now ≤ most) × (most ≤ text_most) × (text_in (full key t.now) ≡ t.now) }
    ensures { s.new ≡ splice at ((full_key most).put (full key t.now)) s.old }
{
    let f = KeyFields::from(key);
    area::put_u16(s, at, f.number);
    area::put_u8(s, at + 2, f.aux);
    area::put_u32(s, at + 3, f.value);
    put_part(s, at + 7, most, t);
}

pub fn put_key(s: &mut [u8], at: usize, most: usize, block: &[u8], k: LayoutKey)
    requires { (at + (8 + most) ≤ length s.old) × (key_text_most ≤ most) × (most ≤ text_most) × FitsIn block.now k }
    ensures { s.new ≡ splice at ((full_key most).put (key_in block.now k)) s.old }
{
    let key = k.key;
    put_with(s, at, most, key, own_part(block, k));
}

// A key without its text, as every key but a character is.
pub fn put_bare_key(s: &mut [u8], at: usize, most: usize, key: Key)
    requires { (at + (8 + most) ≤ length s.old) × (most ≤ text_most) }
    ensures { s.new ≡ splice at ((full_key most).put (full key [])) s.old }
{
    let none = [0u8; 1];
    put_with(s, at, most, key, &none[0..0]);
}

// The bytes of a key that is kept.
pub(crate) const KEY_SIZE: usize = 8 + KEY_TEXT_MOST;

// A character of one scalar value, whose numbers are 0: zeros, its bytes, then their number before them.
fn put_scalar_key(s: &mut [u8], at: usize, c: u32)
    requires { (at + (8 + key_text_most) ≤ length s.old) × (scalar c ≡ true) }
    ensures { s.new ≡ splice at ((full_key key_text_most).put (character (utf8_of c))) s.old }
{
    area::span::put_zeros(s, at, KEY_SIZE);
    let end = text::put_scalar(s, at + 8, c);
    area::put_u8(s, at + 7, (end - (at + 8)) as u8);
}

// A dead key as its character, as an unidentified one where it has none; any other key as it is.
#[tactic(auto, using(crate::proofs::layout::Keys::scalar_in), unfolding(keys::specs::Text::full, keys::specs::Text::text_in, session::specs::Builder::undead))]
fn put_undead_key(s: &mut [u8], at: usize, block: &[u8], k: LayoutKey)
    requires { (at + (8 + key_text_most) ≤ length s.old) × FitsIn block.now k }
    ensures { s.new ≡ splice at ((full_key key_text_most).put (undead (key_in block.now k))) s.old }
{
    let key = k.key;
    match key {
        Key::Dead => put_with(
            s,
            at,
            KEY_TEXT_MOST,
            Key::Unidentified(NativeKeyCode::Unidentified),
            &block[0..0],
        ),
        Key::DeadChar(c) => put_scalar_key(s, at, c),
        Key::Character | Key::Named(_) | Key::Unidentified(_) => put_key(
            s,
            at,
            KEY_TEXT_MOST,
            block,
            k,
        ),
    }
}

// A key without modifiers; a dead one stays one where `dead` is set.
fn put_plain_key(s: &mut [u8], at: usize, block: &[u8], dead: bool, k: LayoutKey)
    requires { (at + (8 + key_text_most) ≤ length s.old) × FitsIn block.now k }
    ensures { s.new ≡ splice at ((full_key key_text_most).put (plain_in block.now dead k)) s.old }
{
    if dead {
        put_key(s, at, KEY_TEXT_MOST, block, k);
        return;
    }
    put_undead_key(s, at, block, k);
}

// The text that a key gives: none, its own, or one byte.
pub fn put_text(s: &mut [u8], at: usize, block: &[u8], k: LayoutKey, t: KeyText)
    requires { (at + (1 + text_most) ≤ length s.old) × (length (bytes_of (text_from (part_of block.now k) t)) ≤ text_most) }
    ensures { s.new ≡ splice at (opt_text.put (text_from (part_of block.now k) t)) s.old }
{
    match t {
        KeyText::Nothing => put_part(s, at, TEXT_MOST, &block[0..0]),
        KeyText::Own => put_part(
            s,
            at,
            TEXT_MOST,
            lookup::keyboard_layout::key_text(block, k),
        ),
        KeyText::Byte(b) => {
            let one = [b];
            put_part(s, at, TEXT_MOST, &one[0..1]);
        }
    }
}

// ---- an event

pub fn put_event(s: &mut [u8], at: usize, block: &[u8], e: KeyEvent)
    requires { (at + EVENT_SIZE ≤ length s.old) × EventIn block.now e }
    ensures { s.new ≡ splice at (event.put (event_in block.now e)) s.old }
{
    let code = e.physical_key;
    let location = e.location;
    let state = e.state;
    let text = e.text;
    crate::write::put_code(s, at, code);
    put_key(s, at + 6, TEXT_MOST, block, e.logical_key);
    put_text(s, at + 62, block, e.logical_key, text);
    crate::write::put_marks(s, at + 111, location, state, e.repeat, e.is_synthetic);
    put_text(s, at + 115, block, e.logical_key, text);
    put_plain_key(s, at + 164, block, e.dead, e.key_without_modifiers);
}

// ---- what is kept of a press or a release

pub fn put_info(s: &mut [u8], at: usize, block: &[u8], n: PartialKeyEventInfo)
    requires { (at + INFO_SIZE ≤ length s.old) × InfoIn block.now n }
    ensures { s.new ≡ splice at (info.put (info_in block.now n)) s.old }
{
    let location = n.location;
    area::put_u16(s, at, n.scancode);
    crate::write::put_flag(s, at + 2, n.is_repeat);
    area::put_u8(s, at + 3, u8::from(location));
    put_key(s, at + 4, KEY_TEXT_MOST, block, n.logical_key);
    put_undead_key(s, at + 36, block, n.key_without_modifiers);
}

// The number of a press's units and their bytes, all zero: it has none yet.
const NO_UNITS: usize = 1 + 2 * UNITS_MOST;

// The held press of a session, none of its units typed.
pub fn put_held(
    s: &mut [u8],
    at: usize,
    block: &[u8],
    n: PartialKeyEventInfo,
    vkey: u16,
    mark: bool,
)
    requires { (at + HELD_FIELD_SIZE ≤ length s.old) × InfoIn block.now n }
    ensures { s.new ≡ splice at (held_field.put (Some (record { info = info_in block.now n; vkey = vkey; mark = mark; units = [] }))) s.old }
{
    area::put_u8(s, at, 1);
    put_info(s, at + 1, block, n);
    area::put_u16(s, at + 69, vkey);
    crate::write::put_flag(s, at + 71, mark);
    area::span::put_zeros(s, at + 72, NO_UNITS);
}

// The zeros behind an open release.
const RELEASE_ZEROS: usize = ENTRY_SIZE - 73;

// An entry that waits for the end of a release.
pub fn put_release(
    s: &mut [u8],
    at: usize,
    token: PendingMessageToken,
    block: &[u8],
    n: PartialKeyEventInfo,
)
    requires { (at + entry_size ≤ length s.old) × (token.0 < 65536) × InfoIn block.now n }
    ensures { s.new ≡ splice at (entry.put (waiting token.0 (release (info_in block.now n)))) s.old }
{
    area::put_u16(s, at, token.0 as u16);
    area::put_u8(s, at + 2, 0);
    area::put_u8(s, at + 3, 1);
    area::put_u8(s, at + 4, 0);
    put_info(s, at + 5, block, n);
    area::span::put_zeros(s, at + 73, RELEASE_ZEROS);
}
