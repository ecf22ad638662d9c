// The events of an answer area as numbers and texts, each read in its bytes. docs/AREAS.md has their offsets.
ghost use Rattle.std.specs.Prelude.{true, ◌≡◌, ◌≤◌, length, drop, option_copied, option_map, IfSome};
ghost use Rattle.std.specs.Bool.{then_some};
ghost use Rattle.area.specs.Bytes.{num};
ghost use Rattle.session.specs.Area.{event};
ghost use Rattle.session.specs.Limits.{ANSWER_EVENT_SIZE as answer_event_size, TEXT_MOST};
ghost use Rattle.export.specs.Events.{fields_of, is_answer, is_event, place, event_at, text_place, text_at};

use session::{ANSWER_EVENT_SIZE, ANSWER_EVENTS_AT, AREA_SIZE, ENTRIES_MOST};

// How many numbers an event is, as specs/Events names it.
pub(crate) const FIELDS: usize = 17;

// ---- the area

// The number of events, where the bytes have an answer area's size and a number that it has room for.
#[tactic(auto, unfolding(crate::specs::Events::is_answer))]
pub(crate) fn count(answers: &[u8]) -> Option<u32>
    ensures { result ≡ then_some (is_answer answers.now) (num 2 0 answers.now) }
{
    if answers.len() != AREA_SIZE {
        return None;
    }
    let events = area::get_u16(answers, 0);
    (usize::from(events) <= ENTRIES_MOST).then_some(u32::from(events))
}

// The bytes from event i on, where it is there and they are an event's.
#[tactic(auto, unfolding(crate::specs::Events::is_answer, crate::specs::Events::is_event))]
fn event_bytes(answers: &[u8], i: u32) -> Option<&[u8]>
    ensures { option_copied result ≡ then_some (is_event answers.now i) (drop (place i) answers.now) }
{
    if count(answers)? <= i {
        return None;
    }
    let bytes = &answers[ANSWER_EVENTS_AT + ANSWER_EVENT_SIZE * (i as usize)..];
    questions::check::event_ok(bytes).then_some(bytes)
}

// ---- an event as numbers

// An event as 17 numbers: physical key, logical key, location, state, repeat, synthetic, key without modifiers, the lengths of the texts.
fn numbers_at(s: &[u8]) -> [u32; FIELDS]
    requires { (answer_event_size ≤ length s.now) × (event.ok s.now ≡ true) }
    ensures { result ≡ fields_of (event.get s.now) }
{
    [
        u32::from(s[5]),
        u32::from(s[4]),
        area::get_u32(s, 0),
        u32::from(area::get_u16(s, 6)),
        u32::from(s[8]),
        area::get_u32(s, 9),
        u32::from(s[111]),
        u32::from(s[112]),
        u32::from(s[113]),
        u32::from(s[114]),
        u32::from(area::get_u16(s, 164)),
        u32::from(s[166]),
        area::get_u32(s, 167),
        u32::from(s[13]),
        u32::from(s[62]),
        u32::from(s[115]),
        u32::from(s[171]),
    ]
}

// Event i as 17 numbers.
#[tactic(auto, unfolding(crate::specs::Events::is_answer, crate::specs::Events::is_event, crate::specs::Events::event_at))]
pub(crate) fn numbers_of(answers: &[u8], i: u32) -> Option<[u32; FIELDS]>
    ensures { result ≡ option_map fields_of (event_at answers.now i) }
{
    Some(numbers_at(event_bytes(answers, i)?))
}

// ---- a text of an event

// The place of a text in an event: its length, then its bytes.
#[tactic(auto, unfolding(crate::specs::Events::text_place, area::specs::Look::assoc))]
fn text_place(which: u32) -> usize
    ensures { result ≡ text_place which }
{
    match which {
        0 => 13,
        1 => 62,
        2 => 115,
        _ => 171,
    }
}

// A text of event i, no longer than a text may be.
#[tactic(auto, unfolding(crate::specs::Events::is_answer, crate::specs::Events::is_event, crate::specs::Events::event_at, crate::specs::Events::text_at, crate::specs::Events::event_text, area::specs::Look::assoc))]
pub(crate) fn text_of(answers: &[u8], i: u32, which: u32) -> Option<&[u8]>
    ensures bytes { option_copied result ≡ text_at (event_at answers.now i) which }
    ensures size { IfSome result (λ bytes. length bytes.now ≤ TEXT_MOST) }
{
    if 3 < which {
        return None;
    }
    let event = event_bytes(answers, i)?;
    let at = text_place(which);
    let n = usize::from(event[at]);
    Some(&event[at + 1..at + 1 + n])
}
