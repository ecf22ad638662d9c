// tao's PendingEventQueue::complete_pending and remove_pending, with drain_pending (SCOPE 4.2, 4.3): resolving the first entry empties the queue
// and hands out the completed ones; any other completed entry waits.
ghost use Rattle.std.specs.Prelude.{true, List, ◌≡◌, ℕ, ◌≤◌, ◌<◌, get_or, length, take, drop, Some, None};
ghost use Rattle.session.specs.Area.{info, decode};
ghost use Rattle.session.specs.Builder.{release_event};
ghost use Rattle.session.specs.Calls.{drain};
ghost use Rattle.session.specs.Event.{Event};
ghost use Rattle.session.specs.InBlock.{event_in, EventIn};
ghost use Rattle.session.specs.Limits.{AREA, ENTRIES_MOST};
ghost use Rattle.session.specs.Session.{event_fits};
ghost use Rattle.queue.specs.Changed.{Does, Written, resolved_by};
ghost use Rattle.queue.specs.Place.{StandsAt};
ghost use Rattle.queue.specs.Room.{IsArea};
ghost use Rattle.queue.specs.Stands.{EventStands, info_place};

use session::{
    ANSWER_EVENT_SIZE, ANSWER_EVENTS_AT, ENTRIES_AT, ENTRY_SIZE, EVENT_SIZE, KeyEvent,
    PendingMessageToken,
};

// ---- drain_pending

// The event of entry i, where it is complete, written as event `at`; how many there are then. An event has the same bytes in both areas, so it
// is copied.
fn drain_one(session: &[u8], i: usize, answers: &mut [u8], at: usize) -> usize
    requires { IsArea session.now × (length answers.old ≡ AREA) × (i < length (decode session.now).entries) × (at ≤ i) }
    ensures { Written at (drain (take 1 (drop i (decode session.now).entries))) answers.old answers.new result }
{
    let place = ENTRIES_AT + ENTRY_SIZE * i;
    if session[place + 2] == 0 {
        return at;
    }
    area::span::copy_part(
        session,
        place + 3,
        answers,
        ANSWER_EVENTS_AT + ANSWER_EVENT_SIZE * at,
        EVENT_SIZE,
    );
    at + 1
}

// The events of the completed entries from `first` on, written behind `written` others; how many there are then.
fn drain_pending(session: &[u8], first: usize, answers: &mut [u8], written: usize) -> usize
    requires { IsArea session.now × (length answers.old ≡ AREA) × (first ≤ length (decode session.now).entries) × (written ≤ first) }
    ensures { Written written (drain (drop first (decode session.now).entries)) answers.old answers.new result }
{
    let h = record::read::header_at(session);
    let mut at = written;
    for i in first..h.count as usize {
        at = drain_one(session, i, answers, at);
    }
    at
}

// ---- complete_pending, remove_pending

// Writes an event of the layout where that of the entry at a place goes: into the answer area where it is the first entry's, else into the entry.
pub fn put_event(session: &mut [u8], answers: &mut [u8], place: usize, block: &[u8], e: KeyEvent)
    requires { (length session.old ≡ AREA) × (length answers.old ≡ AREA) × (place < ENTRIES_MOST) × EventIn block.now e }
    ensures { EventStands place (event_in block.now e) session.old answers.old session.new answers.new }
{
    crate::held_event::write_field(session, answers, place, 0, |s, at| {
        record::layout::put_event(s, at, block, e)
    });
}

// The event of the open release at a place, written where it goes from the release itself: in its own entry its logical key stays where it is.
pub fn put_release(session: &mut [u8], answers: &mut [u8], place: usize)
    requires { (length session.old ≡ AREA) × (length answers.old ≡ AREA) × (place < ENTRIES_MOST) × (info.ok (drop (info_place place) session.old) ≡ true) }
    ensures { EventStands place (release_event (info.get (drop (info_place place) session.old))) session.old answers.old session.new answers.new }
{
    let at = ENTRIES_AT + ENTRY_SIZE * place;
    if place == 0 { // the release in the first entry
        record::complete::put_release_event(session, at + 5, answers, ANSWER_EVENTS_AT);
        return;
    }
    record::complete::complete_release(session, at);
}

// The entry at a place, which carries the token, completed with its event, which stands where it goes.
pub fn complete_pending(
    session: &mut [u8],
    answers: &mut [u8],
    place: usize,
    token: PendingMessageToken,
)
    requires { (length session.old ≡ AREA) × (length answers.old ≡ AREA) × (place < ENTRIES_MOST) × (token.0 < 65536) × (place ≡ 0 → StandsAt session.old token.0 place) }
    ensures { (x y : List ℕ) (e : Event) → ((i : ℕ) → get_or x i 0 < 256) → StandsAt x token.0 place → event_fits e ≡ true → length y ≡ AREA → EventStands place e x y session.old answers.old → Does (resolved_by (decode x) token.0 (Some e)) session.new answers.new }
{
    if place == 0 { // the event of the first entry
        let n = drain_pending(session, 1, answers, 1);
        crate::answers::close(answers, n);
        crate::pending::restart(session);
        return;
    }
    crate::answers::no_events(answers);
    crate::pending::complete(session, place, token);
}

// The entry at a place, which carries the token, dropped. The same two ways as above, but in each something else is left.
pub fn remove_pending(
    session: &mut [u8],
    answers: &mut [u8],
    place: usize,
    token: PendingMessageToken,
)
    requires { StandsAt session.old token.0 place × (length answers.old ≡ AREA) }
    ensures { Does (resolved_by (decode session.old) token.0 None) session.new answers.new }
{
    if place == 0 {
        let n = drain_pending(session, 1, answers, 0);
        crate::answers::close(answers, n);
        crate::pending::restart(session);
        return;
    }
    crate::answers::no_events(answers);
    crate::pending::remove(session, place, token);
}
