// Events from the records that are kept: a release's, and the held press with the units of its characters. A key's bytes go
// straight from the record to the event. docs/AREAS.md has the offsets.
ghost use Rattle.std.specs.Prelude.{true, false, ◌≡◌, ◌+◌, ◌≤◌, ◌*◌, length, drop, None};
ghost use Rattle.area.specs.Splice.{splice};
ghost use Rattle.text.specs.Message.{char_units};
ghost use Rattle.text.specs.Stored.{units_in};
ghost use Rattle.session.specs.Area.{flag, state, location, opt_text, full_key, event, info, held};
ghost use Rattle.session.specs.Builder.{release_event, with_units};
ghost use Rattle.session.specs.Codec.{pair, number, put_many};
ghost use Rattle.session.specs.Limits.{TEXT_MOST as text_most, KEY_TEXT_MOST as key_text_most, UNITS_MOST, ENTRY_SIZE, EVENT_SIZE, HELD_SIZE, INFO_SIZE};

use crate::layout::KEY_SIZE;
use keys::KeyLocation;
use session::{ElementState, KEY_TEXT_MOST, TEXT_MOST};
use text::CharUnits;

// ---- a record's key as an event's logical key: the same bytes, and zeros behind

const KEY_ZEROS: usize = TEXT_MOST - KEY_TEXT_MOST;

// From one area to the other.
pub fn copy_key(src: &[u8], from: usize, dst: &mut [u8], to: usize)
    requires { (from + (8 + key_text_most) ≤ length src.now) × ((full_key key_text_most).ok (drop from src.now) ≡ true) × (to + (8 + text_most) ≤ length dst.old) }
    ensures { dst.new ≡ splice to ((full_key text_most).put ((full_key key_text_most).get (drop from src.now))) dst.old }
{
    area::span::copy_part(src, from, dst, to, KEY_SIZE);
    area::span::put_zeros(dst, to + KEY_SIZE, KEY_ZEROS);
}

// Within one area, up by the gap.
pub fn move_key(s: &mut [u8], from: usize, gap: usize)
    requires { (from + gap + (8 + text_most) ≤ length s.old) × ((full_key key_text_most).ok (drop from s.old) ≡ true) }
    ensures { s.new ≡ splice (from + gap) ((full_key text_most).put ((full_key key_text_most).get (drop from s.old))) s.old }
{
    area::span::move_up(s, from, gap, KEY_SIZE);
    area::span::put_zeros(s, from + gap + KEY_SIZE, KEY_ZEROS);
}

// ---- an event without texts

const TEXT_SIZE: usize = 1 + TEXT_MOST;

// No text, the marks, no text with all modifiers.
fn put_no_texts(s: &mut [u8], at: usize, l: KeyLocation, st: ElementState, repeat: bool)
    requires { at + (2 * (1 + text_most) + 4) ≤ length s.old }
    ensures { s.new ≡ splice at ((pair opt_text (pair (pair location (pair state (pair flag flag))) opt_text)).put (None, ((l, (st, (repeat, false))), None))) s.old }
{
    area::span::put_zeros(s, at, TEXT_SIZE);
    crate::write::put_marks(s, at + 49, l, st, repeat, false);
    area::span::put_zeros(s, at + 53, TEXT_SIZE);
}

// ---- the event of a release, from the last field to the first

// Into another area than the one that has what is kept of the release.
pub fn put_release_event(src: &[u8], from: usize, dst: &mut [u8], at: usize)
    requires { (from + INFO_SIZE ≤ length src.now) × (info.ok (drop from src.now) ≡ true) × (at + EVENT_SIZE ≤ length dst.old) }
    ensures { dst.new ≡ splice at (event.put (release_event (info.get (drop from src.now)))) dst.old }
{
    let scancode = area::get_u16(src, from);
    let repeat = src[from + 2] == 1;
    let location = keys::native_code::location_at(src[from + 3]);
    let code = lookup::keycode::keycode_from_scancode(scancode);
    area::span::copy_part(src, from + 36, dst, at + 164, KEY_SIZE);
    put_no_texts(dst, at + 62, location, ElementState::Released, repeat);
    copy_key(src, from + 4, dst, at + 6);
    crate::write::put_code(dst, at, code);
}

// In the release's own entry: what is kept of it stands from 5 on, and the event from 3 on. From the last field to the first
// nothing is written over before it is read.
pub fn complete_release(s: &mut [u8], at: usize)
    requires { (at + ENTRY_SIZE ≤ length s.old) × (info.ok (drop (at + 5) s.old) ≡ true) }
    ensures { s.new ≡ splice (at + 3) (event.put (release_event (info.get (drop (at + 5) s.old)))) s.old }
{
    let scancode = area::get_u16(s, at + 5);
    let repeat = s[at + 7] == 1;
    let location = keys::native_code::location_at(s[at + 8]);
    let code = lookup::keycode::keycode_from_scancode(scancode);
    area::span::move_up(s, at + 41, 126, KEY_SIZE);
    put_no_texts(s, at + 65, location, ElementState::Released, repeat);
    move_key(s, at + 9, 0);
    crate::write::put_code(s, at + 3, code);
}

// ---- the units of the held press

// One or two units.
fn put_char_units(s: &mut [u8], at: usize, added: CharUnits)
    requires { at + 2 * length (units_in added) ≤ length s.old }
    ensures { s.new ≡ splice at (put_many (number 2) (units_in added)) s.old }
{
    area::put_u16(s, at, added.first);
    if let Some(second) = added.second {
        area::put_u16(s, at + 2, second);
    }
}

// SCOPE 3.9: adds the units of a character message to the held press, behind those that it has.
pub fn add_units(s: &mut [u8], at: usize, wparam: u64)
    requires { (at + HELD_SIZE ≤ length s.old) × (held.ok (drop at s.old) ≡ true) × (length (held.get (drop at s.old)).units + length (char_units wparam) ≤ UNITS_MOST) }
    ensures { s.new ≡ splice at (held.put (with_units (held.get (drop at s.old)) (char_units wparam))) s.old }
{
    let added = text::char_units(wparam);
    let n = s[at + 71] as usize;
    put_char_units(s, at + 72 + 2 * n, added);
    area::put_u8(s, at + 71, (n + added.len()) as u8);
}
