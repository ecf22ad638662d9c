// What a finish does, by what waits under its token and by what was peeked: tao's KeyEventBuilder::process_message behind the peek.
ghost use Rattle.std.specs.Prelude.{true, List, ◌≡◌, ℕ, ◌+◌, ◌≤◌, ◌<◌, length, take, get_or, Option};
ghost use Rattle.area.specs.Pick.{pick};
ghost use Rattle.segmentation.specs.Layout.{table_of};
ghost use Rattle.segmentation.specs.Table.{Table};
ghost use Rattle.session.specs.Area.{decode, opt_text};
ghost use Rattle.session.specs.Builder.{typed_key, several_text, char_event};
ghost use Rattle.session.specs.Event.{Info};
ghost use Rattle.session.specs.InBlock.{last_key};
ghost use Rattle.session.specs.Limits.{AREA, ENTRIES_MOST, TEXT_MOST};
ghost use Rattle.session.specs.Session.{opt_text_fits};
ghost use Rattle.record.specs.declared.read.Pending.TheVariants.{Press, Release, Character};
ghost use Rattle.event.specs.Written.{keyboard_at};
ghost use Rattle.queue.specs.Changed.{Does};
ghost use Rattle.queue.specs.Completing.{held_in, Completing};
ghost use Rattle.queue.specs.Room.{IsArea};
ghost use Rattle.queue.specs.Stands.{EventStands};
ghost use Rattle.message.specs.Resolves.{EntryAt, finished_by};
ghost use Rattle.message.specs.TextField.{text_field};

use event::keyboard::Keyboard;
use queue::held_event::TEXT_AT;
use record::read::Pending;
use segmentation::break_table::BreakTable;
use session::{
    ANSWER_EVENTS_AT, ENTRIES_AT, ENTRY_EVENT_AT, ENTRY_SIZE, HELD_AT, LastKey, Message,
    PendingMessageToken,
};

// ---- a press

// SCOPE 3.5: a press forgets the held press. It is held itself where what was peeked says so; else it is completed, unless fake. It asks no break
// table.
fn finish_press(
    session: &mut [u8],
    answers: &mut [u8],
    keyboard: Keyboard<'_>,
    token: PendingMessageToken,
    place: usize,
    peeked: Option<Message>,
)
    requires { EntryAt Press session.old answers.old token.0 place }
    ensures { (r : Table) → Does (finished_by (decode session.old) (keyboard_at keyboard.entry.state.now keyboard.entry.layout.bytes.now) r token.0 peeked) session.new answers.new }
{
    let at = ENTRIES_AT + ENTRY_SIZE * place + 4;
    let p = record::read::pressed_at(&session[at..]);
    let n = event::partial::from_message(keyboard, p.vkey, p.lparam);
    let logical = n.logical_key;
    let key = logical.key;
    let mark = event::partial::press_mark(keyboard.state, key);
    if event::peeked::holds(peeked) {
        queue::held_press::set_held(session, keyboard.layout.bytes, n, p.vkey, mark);
        queue::event_queue::remove_pending(session, answers, place, token);
        return;
    }
    queue::held_press::forget_held(session);
    if event::peeked::is_fake(keyboard.layout, key, peeked) {
        queue::event_queue::remove_pending(session, answers, place, token);
        return;
    }
    let e = event::key_event::press_event(n, mark);
    queue::event_queue::put_event(session, answers, place, keyboard.layout.bytes, e);
    queue::event_queue::complete_pending(session, answers, place, token);
}

// ---- a release

// SCOPE 3.4, 3.15: a release is completed with what its open read, unless fake by the finish's AltGr flag. The held press stays. It asks no break
// table.
fn finish_release(
    session: &mut [u8],
    answers: &mut [u8],
    keyboard: Keyboard<'_>,
    token: PendingMessageToken,
    place: usize,
    peeked: Option<Message>,
)
    requires { EntryAt Release session.old answers.old token.0 place }
    ensures { (r : Table) → Does (finished_by (decode session.old) (keyboard_at keyboard.entry.state.now keyboard.entry.layout.bytes.now) r token.0 peeked) session.new answers.new }
{
    let at = ENTRIES_AT + ENTRY_SIZE * place + 9;
    let key = record::read::bare_key_at(&session[at..]);
    if event::peeked::is_fake(keyboard.layout, key, peeked) { // by the finish's AltGr flag
        queue::event_queue::remove_pending(session, answers, place, token);
        return;
    }
    queue::event_queue::put_release(session, answers, place);
    queue::event_queue::complete_pending(session, answers, place, token);
}

// ---- a character

// SCOPE 3.6, 3.13: the logical key of the press that the last character completes, by its text as it stands in its event.
fn last_key(session: &[u8], answers: &[u8], table: BreakTable<'_>, place: usize) -> LastKey
    requires { (length session.now ≡ AREA) × (length answers.now ≡ AREA) × (place < ENTRIES_MOST) × (get_or (text_field place session.now answers.now) 0 0 ≤ TEXT_MOST) }
    ensures { (t : Option (List ℕ)) → opt_text_fits t ≡ true → take (TEXT_MOST + 1) (text_field place session.now answers.now) ≡ opt_text.put t → (n : Info) → last_key result n t ≡ pick (held_in session.now).mark (typed_key (several_text (table_of table.entry.bytes.now) t) n.logical_key n.scancode t) n.logical_key }
{
    let mark = session[HELD_AT + 70] == 1;
    if place == 0 {
        return event::character::last_key(table, mark, &answers[ANSWER_EVENTS_AT + TEXT_AT..]);
    }
    let at = ENTRIES_AT + ENTRY_SIZE * place + ENTRY_EVENT_AT + TEXT_AT;
    event::character::last_key(table, mark, &session[at..])
}

// The event of the press that the last character completes, written where it goes. The logical key waits for the text: the pieces of the text are
// counted where it stands.
fn put_last(
    session: &mut [u8],
    answers: &mut [u8],
    keyboard: Keyboard<'_>,
    table: BreakTable<'_>,
    place: usize,
)
    requires { Completing session.old answers.old place }
    ensures { EventStands place (char_event (keyboard_at keyboard.entry.state.now keyboard.entry.layout.bytes.now) (table_of table.entry.bytes.now) (held_in session.old)) session.old answers.old session.new answers.new }
{
    let vkey = area::get_u16(session, HELD_AT + 68);
    let scancode = area::get_u16(session, HELD_AT);
    let last = event::character::last_text(keyboard, vkey, scancode);
    let block = keyboard.layout.bytes;
    queue::held_event::put_rest(session, answers, place);
    queue::held_event::put_last_text(session, answers, place, TEXT_AT, block, last);
    let key = last_key(session, answers, table, place);
    queue::held_event::put_last_key(session, answers, place, block, last, key);
    queue::held_event::put_last_code(session, answers, place);
}

// SCOPE 3.10: the last character completes the press that is held then.
fn finish_character(
    session: &mut [u8],
    answers: &mut [u8],
    keyboard: Keyboard<'_>,
    table: BreakTable<'_>,
    token: PendingMessageToken,
    place: usize,
    peeked: Option<Message>,
)
    requires { EntryAt Character session.old answers.old token.0 place }
    ensures { Does (finished_by (decode session.old) (keyboard_at keyboard.entry.state.now keyboard.entry.layout.bytes.now) (table_of table.entry.bytes.now) token.0 peeked) session.new answers.new }
{
    let head = record::read::header_at(session);
    if event::peeked::completes(head.held, peeked) {
        put_last(session, answers, keyboard, table, place);
        queue::held_press::forget_held(session);
        queue::event_queue::complete_pending(session, answers, place, token);
        return;
    }
    queue::event_queue::remove_pending(session, answers, place, token);
}

// ---- the message of a token

// Resolves the message of a token, by what it is and by what was peeked.
pub fn finish_open(
    session: &mut [u8],
    answers: &mut [u8],
    keyboard: Keyboard<'_>,
    table: BreakTable<'_>,
    token: PendingMessageToken,
    peeked: Option<Message>,
)
    requires { IsArea session.old × (length answers.old ≡ AREA) }
    ensures { Does (finished_by (decode session.old) (keyboard_at keyboard.entry.state.now keyboard.entry.layout.bytes.now) (table_of table.entry.bytes.now) token.0 peeked) session.new answers.new }
{
    let Some(place) = queue::pending::find(session, token) else {
        queue::answers::no_events(answers);
        return;
    };
    let at = ENTRIES_AT + ENTRY_SIZE * place;
    let what = record::read::pending_at(&session[at..]);
    match what {
        Pending::Press => finish_press(session, answers, keyboard, token, place, peeked),
        Pending::Release => finish_release(session, answers, keyboard, token, place, peeked),
        Pending::Character => finish_character(
            session, answers, keyboard, table, token, place, peeked,
        ),
        Pending::Complete => queue::answers::no_events(answers),
    }
}
