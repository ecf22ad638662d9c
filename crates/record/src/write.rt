// Writes numbers, marks, open presses and characters, the mark of a completed entry, and a fresh session. docs/AREAS.md has the offsets.
ghost use Rattle.std.specs.Prelude.{[], ◌∷◌, ◌++◌, ◌≡◌, ◌+◌, ◌≤◌, ◌<◌, eqb, length, None};
ghost use Rattle.area.specs.Bytes.{le};
ghost use Rattle.area.specs.Pick.{pick};
ghost use Rattle.area.specs.Splice.{splice};
ghost use Rattle.session.specs.Area.{flag, state, location, key_code, pressed, held_field, encode, entry};
ghost use Rattle.session.specs.Codec.{pair};
ghost use Rattle.session.specs.Limits.{AREA, ENTRY_SIZE as entry_size, HELD_FIELD_SIZE as held_field_size};
ghost use Rattle.session.specs.Session.{fresh_session, press, character, waiting};

use keys::KeyLocation;
use keys::key_code::KeyCode;
use lookup::keyboard::KeyLParam;
use session::{AREA_SIZE, ENTRY_SIZE, ElementState, HELD_FIELD_SIZE, PendingMessageToken};

// ---- flags

// A flag, as one byte.
pub(crate) fn put_flag(s: &mut [u8], at: usize, b: bool)
    requires { at + 1 ≤ length s.old }
    ensures { s.new ≡ splice at (flag.put b) s.old }
{
    area::put_u8(s, at, u8::from(b));
}

// ---- parts of an event

// A key code: the low 32 bits of its number, then the other 16.
pub fn put_code(s: &mut [u8], at: usize, c: KeyCode)
    requires { at + 6 ≤ length s.old }
    ensures { s.new ≡ splice at (key_code.put c) s.old }
{
    let key = keys::key_code::code_key(c);
    area::put_u32(s, at, (key % 0x1_0000_0000) as u32);
    area::put_u16(s, at + 4, (key / 0x1_0000_0000 % 0x1_0000) as u16);
}

// Location, state, repeat, synthetic.
pub fn put_marks(
    s: &mut [u8],
    at: usize,
    l: KeyLocation,
    st: ElementState,
    repeat: bool,
    synthetic: bool,
)
    requires { at + 4 ≤ length s.old }
    ensures { s.new ≡ splice at ((pair location (pair state (pair flag flag))).put (l, (st, (repeat, synthetic)))) s.old }
{
    area::put_u8(s, at, u8::from(l));
    area::put_u8(s, at + 1, st as u8);
    put_flag(s, at + 2, repeat);
    put_flag(s, at + 3, synthetic);
}

// ---- an open press

// Virtual key, scan code, extended, repeat.
fn put_pressed(s: &mut [u8], at: usize, vkey: u16, l: KeyLParam)
    requires { at + 5 ≤ length s.old }
    ensures { s.new ≡ splice at (pressed.put (vkey, l)) s.old }
{
    area::put_u16(s, at, vkey);
    area::put_u8(s, at + 2, l.scancode);
    put_flag(s, at + 3, l.extended);
    put_flag(s, at + 4, l.is_repeat);
}

// ---- no held press

pub fn put_no_held(s: &mut [u8], at: usize)
    requires { at + held_field_size ≤ length s.old }
    ensures { s.new ≡ splice at (held_field.put None) s.old }
{
    area::span::put_zeros(s, at, HELD_FIELD_SIZE);
}

// ---- a fresh session

// SCOPE 7.2: makes the area that of a fresh session, and says so; an area of another size is left as it is.
pub fn fresh(session: &mut [u8]) -> bool
    ensures { (result ≡ eqb (length session.old) AREA) × (session.new ≡ pick (eqb (length session.old) AREA) (encode fresh_session) session.old) }
{
    if session.len() != AREA_SIZE {
        return false;
    }
    area::span::fill_zero(session, 0);
    true
}

// ---- a completed entry

// The token and the mark of an entry whose event stands behind them already.
pub fn put_completed(s: &mut [u8], at: usize, token: PendingMessageToken)
    requires { (at + 3 ≤ length s.old) × (token.0 < 65536) }
    ensures { s.new ≡ splice at (le 2 token.0 ++ (1 ∷ [])) s.old }
{
    area::put_u16(s, at, token.0 as u16);
    area::put_u8(s, at + 2, 1);
}

// ---- an open entry

// Its zeros: behind a press, a character.
const PRESS_ZEROS: usize = ENTRY_SIZE - 9;

const CHARACTER_ZEROS: usize = ENTRY_SIZE - 5;

pub fn put_press(s: &mut [u8], at: usize, token: PendingMessageToken, vkey: u16, l: KeyLParam)
    requires { (at + entry_size ≤ length s.old) × (token.0 < 65536) }
    ensures { s.new ≡ splice at (entry.put (waiting token.0 (press vkey l))) s.old }
{
    area::put_u16(s, at, token.0 as u16);
    area::put_u8(s, at + 2, 0);
    area::put_u8(s, at + 3, 0);
    put_pressed(s, at + 4, vkey, l);
    area::span::put_zeros(s, at + 9, PRESS_ZEROS);
}

pub fn put_character(s: &mut [u8], at: usize, token: PendingMessageToken)
    requires { (at + entry_size ≤ length s.old) × (token.0 < 65536) }
    ensures { s.new ≡ splice at (entry.put (waiting token.0 character)) s.old }
{
    area::put_u16(s, at, token.0 as u16);
    area::put_u8(s, at + 2, 0);
    area::put_u8(s, at + 3, 1);
    area::put_u8(s, at + 4, 1);
    area::span::put_zeros(s, at + 5, CHARACTER_ZEROS);
}
