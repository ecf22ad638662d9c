// The event that completes the held press, written where it goes: into the answer area where the press's entry is the first, else into the entry.
// What the event has of the press goes there straight from the press as it stands in the session's area, the layout's text straight from the
// block. The fields are written from the last to the first, so that each joins what stands behind it. docs/AREAS.md has their offsets.
ghost use Rattle.std.specs.Prelude.{false, List, ◌≡◌, ℕ, ◌+◌, ◌≤◌, ◌<◌, length, replicate};
ghost use Rattle.area.specs.Pick.{pick};
ghost use Rattle.area.specs.Splice.{splice};
ghost use Rattle.keys.specs.Text.{character, unidentified, text_from};
ghost use Rattle.keys.specs.declared.NativeKeyCode.TheVariants.{Windows};
ghost use Rattle.lookup.specs.Codes.{key_code_of};
ghost use Rattle.lookup.specs.Layout.{part_of};
ghost use Rattle.session.specs.Area.{bytes_of, location, state, flag, key_code, opt_text, full_key};
ghost use Rattle.session.specs.Builder.{typed_text, dead_char_event};
ghost use Rattle.session.specs.Codec.{pair};
ghost use Rattle.session.specs.InBlock.{last_in, LastFits, last_key, completed_with};
ghost use Rattle.session.specs.Limits.{ANSWER_EVENTS_AT as answer_events_at, ENTRIES_MOST, EVENT_SIZE, TEXT_MOST as text_most, KEY_TEXT_MOST as key_text_most};
ghost use Rattle.session.specs.declared.ElementState.TheVariants.{Pressed};
ghost use Rattle.queue.specs.Completing.{Completing, held_in, rest_of};
ghost use Rattle.queue.specs.Stands.{event_place, FieldStands, EventStands};

use keys::key_code::KeyCode;
use keys::{Key, KeyLocation, KeyText, NativeKeyCode};
use lookup::keyboard_layout::LayoutKey;
use session::{
    ANSWER_EVENTS_AT, ENTRIES_AT, ENTRY_EVENT_AT, ENTRY_SIZE, ElementState, HELD_AT, KEY_TEXT_MOST,
    LastKey, LastText, TEXT_MOST,
};

// The fields of an event behind its key code.
const KEY_AT: usize = 6;

pub const TEXT_AT: usize = 62;

const MARKS_AT: usize = 111;

const ALL_TEXT_AT: usize = 115;

const PLAIN_KEY_AT: usize = 164;

// The bytes of a key before its text, and all of one without modifiers.
const KEY_NUMBERS: usize = 7;

const PLAIN_KEY_SIZE: usize = 8 + KEY_TEXT_MOST;

// Those of the held press that are copied: its logical key, the one without modifiers, its units.
const HELD_KEY_AT: usize = HELD_AT + 4;

const HELD_PLAIN_KEY_AT: usize = HELD_AT + 36;

const HELD_UNITS_AT: usize = HELD_AT + 71;

// ---- one field

// Where the event of the entry at a place begins.
fn event_at(place: usize) -> usize
    requires { place < ENTRIES_MOST }
    ensures { result ≡ event_place place }
{
    ENTRIES_AT + ENTRY_SIZE * place + ENTRY_EVENT_AT
}

// Writes a field at an offset of the event of the entry at a place, into the area where the event goes.
pub(crate) fn write_field<F: FnOnce(&mut [u8], usize)>(
    session: &mut [u8],
    answers: &mut [u8],
    place: usize,
    off: usize,
    write: F,
)
    requires few { place < ENTRIES_MOST }
    requires within { off ≤ EVENT_SIZE }
    requires first { place ≡ 0 → (s : _) → s.now ≡ answers.old → F.pre write s (answer_events_at + off) }
    requires later { (place ≡ 0 → ⊥) → (s : _) → s.now ≡ session.old → F.pre write s (event_place place + off) }
    ensures { (b : List ℕ) → ((s t : _) (at : ℕ) → F.post write s at tt t → t.now ≡ splice at b s.now) → FieldStands place off b session.old answers.old session.new answers.new }
{
    if place == 0 {
        write(answers, ANSWER_EVENTS_AT + off);
        return;
    }
    write(session, event_at(place) + off);
}

// `count` zeros at an offset of the event.
fn put_zeros(session: &mut [u8], answers: &mut [u8], place: usize, off: usize, count: usize)
    requires { Completing session.old answers.old place × (off + count ≤ EVENT_SIZE) }
    ensures { FieldStands place off (replicate count 0) session.old answers.old session.new answers.new }
{
    write_field(
        session,
        answers,
        place,
        off,
        |s, at| area::span::put_zeros(s, at, count),
    );
}

// The key code.
fn put_code(session: &mut [u8], answers: &mut [u8], place: usize, code: KeyCode)
    requires { Completing session.old answers.old place }
    ensures { FieldStands place 0 (key_code.put code) session.old answers.old session.new answers.new }
{
    write_field(
        session,
        answers,
        place,
        0,
        |s, at| record::write::put_code(s, at, code),
    );
}

// Location, state, repeat, synthetic.
fn put_marks(session: &mut [u8], answers: &mut [u8], place: usize, l: KeyLocation, repeat: bool)
    requires { Completing session.old answers.old place }
    ensures { FieldStands place 111 ((pair location (pair state (pair flag flag))).put (l, (Pressed, (repeat, false)))) session.old answers.old session.new answers.new }
{
    write_field(session, answers, place, MARKS_AT, |s, at| {
        record::write::put_marks(s, at, l, ElementState::Pressed, repeat, false)
    });
}

// The text that a key of the layout gives.
fn put_layout_text(
    session: &mut [u8],
    answers: &mut [u8],
    place: usize,
    off: usize,
    block: &[u8],
    k: LayoutKey,
    t: KeyText,
)
    requires { Completing session.old answers.old place × (off + (1 + text_most) ≤ EVENT_SIZE) × (length (bytes_of (text_from (part_of block.now k) t)) ≤ text_most) }
    ensures { FieldStands place off (opt_text.put (text_from (part_of block.now k) t)) session.old answers.old session.new answers.new }
{
    write_field(session, answers, place, off, |s, at| {
        record::layout::put_text(s, at, block, k, t)
    });
}

// An unidentified logical key, with its scan code.
#[tactic(auto, unfolding(keys::specs::Text::full))]
fn put_unidentified(session: &mut [u8], answers: &mut [u8], place: usize, scancode: u16)
    requires { Completing session.old answers.old place }
    ensures { FieldStands place 6 ((full_key text_most).put (unidentified (Windows scancode))) session.old answers.old session.new answers.new }
{
    let key = Key::Unidentified(NativeKeyCode::Windows(scancode));
    write_field(session, answers, place, KEY_AT, |s, at| {
        record::layout::put_bare_key(s, at, TEXT_MOST, key)
    });
}

// The logical key that the press is held with. Here and in the next two the writer reads the press in session, which no closure could borrow beside
// write_field.
fn put_kept_key(session: &mut [u8], answers: &mut [u8], place: usize)
    requires { Completing session.old answers.old place }
    ensures { FieldStands place 6 ((full_key text_most).put (held_in session.old).info.logical_key) session.old answers.old session.new answers.new }
{
    if place == 0 {
        record::complete::copy_key(session, HELD_KEY_AT, answers, ANSWER_EVENTS_AT + KEY_AT);
        return;
    }
    let gap = event_at(place) + KEY_AT - HELD_KEY_AT;
    record::complete::move_key(session, HELD_KEY_AT, gap);
}

// Its key without modifiers.
fn put_plain_key(session: &mut [u8], answers: &mut [u8], place: usize)
    requires { Completing session.old answers.old place }
    ensures { FieldStands place 164 ((full_key key_text_most).put (held_in session.old).info.key_without_modifiers) session.old answers.old session.new answers.new }
{
    if place == 0 {
        area::span::copy_part(
            session,
            HELD_PLAIN_KEY_AT,
            answers,
            ANSWER_EVENTS_AT + PLAIN_KEY_AT,
            PLAIN_KEY_SIZE,
        );
        return;
    }
    let gap = event_at(place) + PLAIN_KEY_AT - HELD_PLAIN_KEY_AT;
    area::span::move_up(session, HELD_PLAIN_KEY_AT, gap, PLAIN_KEY_SIZE);
}

// The text of its units.
fn put_typed(session: &mut [u8], answers: &mut [u8], place: usize, off: usize)
    requires { Completing session.old answers.old place × (off + (1 + text_most) ≤ EVENT_SIZE) }
    ensures { FieldStands place off (opt_text.put (typed_text (held_in session.old).units)) session.old answers.old session.new answers.new }
{
    if place == 0 {
        record::typed::put_typed(session, HELD_UNITS_AT, answers, ANSWER_EVENTS_AT + off);
        return;
    }
    record::typed::put_typed_within(session, HELD_UNITS_AT, event_at(place) + off);
}

// ---- what completes it

// The text that completes the press.
pub fn put_last_text(
    session: &mut [u8],
    answers: &mut [u8],
    place: usize,
    off: usize,
    block: &[u8],
    last: LastText,
)
    requires { Completing session.old answers.old place × (off + (1 + text_most) ≤ EVENT_SIZE) × LastFits block.now last }
    ensures { FieldStands place off (opt_text.put (last_in block.now (held_in session.old).units last)) session.old answers.old session.new answers.new }
{
    match last {
        LastText::Typed => put_typed(session, answers, place, off),
        LastText::Layout(k, t) => put_layout_text(session, answers, place, off, block, k, t),
    }
}

// The logical key where that of the press is known, else an unidentified one.
fn put_known_key(session: &mut [u8], answers: &mut [u8], place: usize, known: bool)
    requires { Completing session.old answers.old place }
    ensures { FieldStands place 6 ((full_key text_most).put (pick known (held_in session.old).info.logical_key (unidentified (Windows (held_in session.old).info.scancode)))) session.old answers.old session.new answers.new }
{
    if known {
        put_kept_key(session, answers, place);
        return;
    }
    let scancode = area::get_u16(session, HELD_AT);
    put_unidentified(session, answers, place, scancode);
}

// The text that completes the press, as its logical key: a character has zeros before its text.
fn put_text_key(session: &mut [u8], answers: &mut [u8], place: usize, block: &[u8], last: LastText)
    requires { Completing session.old answers.old place × LastFits block.now last }
    ensures { FieldStands place 6 ((full_key text_most).put (character (bytes_of (last_in block.now (held_in session.old).units last)))) session.old answers.old session.new answers.new }
{
    put_last_text(session, answers, place, KEY_AT + KEY_NUMBERS, block, last);
    put_zeros(session, answers, place, KEY_AT, KEY_NUMBERS);
}

// The logical key that completes the press.
pub fn put_last_key(
    session: &mut [u8],
    answers: &mut [u8],
    place: usize,
    block: &[u8],
    last: LastText,
    key: LastKey,
)
    requires { Completing session.old answers.old place × LastFits block.now last }
    ensures { FieldStands place 6 ((full_key text_most).put (last_key key (held_in session.old).info (last_in block.now (held_in session.old).units last))) session.old answers.old session.new answers.new }
{
    match key {
        LastKey::Held => put_known_key(session, answers, place, true),
        LastKey::Unidentified => put_known_key(session, answers, place, false),
        LastKey::Text => put_text_key(session, answers, place, block, last),
    }
}

// The key code of the press.
pub fn put_last_code(session: &mut [u8], answers: &mut [u8], place: usize)
    requires { Completing session.old answers.old place }
    ensures { FieldStands place 0 (key_code.put (key_code_of (held_in session.old).info.scancode)) session.old answers.old session.new answers.new }
{
    let scancode = area::get_u16(session, HELD_AT);
    let code = lookup::keycode::keycode_from_scancode(scancode);
    put_code(session, answers, place, code);
}

// What does not depend on what completes it: the marks, the text with all modifiers, the key without modifiers.
pub fn put_rest(session: &mut [u8], answers: &mut [u8], place: usize)
    requires { Completing session.old answers.old place }
    ensures { FieldStands place 111 (rest_of (held_in session.old)) session.old answers.old session.new answers.new }
{
    let repeat = session[HELD_AT + 2] == 1;
    let location = keys::native_code::location_at(session[HELD_AT + 3]);
    put_plain_key(session, answers, place);
    put_typed(session, answers, place, ALL_TEXT_AT);
    put_marks(session, answers, place, location, repeat);
}

// ---- whole events

// The event that a dead character message completes.
pub fn put_dead_event(session: &mut [u8], answers: &mut [u8], place: usize)
    requires { Completing session.old answers.old place }
    ensures { EventStands place (dead_char_event (held_in session.old)) session.old answers.old session.new answers.new }
{
    let mark = session[HELD_AT + 70] == 1;
    put_rest(session, answers, place);
    put_zeros(session, answers, place, TEXT_AT, 1 + TEXT_MOST);
    put_known_key(session, answers, place, !mark);
    put_last_code(session, answers, place);
}
