// The answer area (SCOPE 6.0): the number of the events that a call hands out, the events one behind the other, zeros behind. docs/AREAS.md has
// the offsets.
ghost use Rattle.std.specs.Prelude.{true, List, [], ◌∷◌, ◌≡◌, ℕ, ◌+◌, ◌*◌, ◌≤◌, ◌<◌, length};
ghost use Rattle.area.specs.Bytes.{le};
ghost use Rattle.area.specs.Splice.{splice};
ghost use Rattle.area.specs.Zero.{zero_from};
ghost use Rattle.session.specs.Area.{event, encode_answer};
ghost use Rattle.session.specs.Event.{Event};
ghost use Rattle.session.specs.InBlock.{event_in, EventIn};
ghost use Rattle.session.specs.Limits.{AREA, ENTRIES_MOST, ANSWER_EVENTS_AT as answer_events_at, ANSWER_EVENT_SIZE as answer_event_size};
ghost use Rattle.session.specs.Session.{event_fits};

use session::{ANSWER_EVENT_SIZE, ANSWER_EVENTS_AT, KeyEvent};

// Event i, counted from 0.
pub fn put_event_at(answers: &mut [u8], i: usize, block: &[u8], e: KeyEvent)
    requires { (length answers.old ≡ AREA) × (i < ENTRIES_MOST) × EventIn block.now e }
    ensures { answers.new ≡ splice (answer_events_at + answer_event_size * i) (event.put (event_in block.now e)) answers.old }
{
    record::layout::put_event(answers, ANSWER_EVENTS_AT + ANSWER_EVENT_SIZE * i, block, e);
}

// The number of events, and zeros behind the last.
pub fn close(answers: &mut [u8], n: usize)
    requires { (length answers.old ≡ AREA) × (n ≤ ENTRIES_MOST) }
    ensures { answers.new ≡ zero_from (answer_events_at + answer_event_size * n) (splice 0 (le 2 n) answers.old) }
{
    area::put_u16(answers, 0, n as u16);
    area::span::fill_zero(answers, ANSWER_EVENTS_AT + ANSWER_EVENT_SIZE * n);
}

// A call that hands out nothing.
pub fn no_events(answers: &mut [u8])
    requires { length answers.old ≡ AREA }
    ensures { answers.new ≡ encode_answer [] }
{
    close(answers, 0);
}

// A call that hands out one event, which stands there already.
pub fn one_event(answers: &mut [u8])
    requires { length answers.old ≡ AREA }
    ensures { (e : Event) (y : List ℕ) → event_fits e ≡ true → length y ≡ AREA → answers.old ≡ splice answer_events_at (event.put e) y → answers.new ≡ encode_answer (e ∷ []) }
{
    close(answers, 1);
}
