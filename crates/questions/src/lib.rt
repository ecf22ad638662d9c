// The questions that a call is put through (SCOPE 6; SCOPE and a number is a clause of docs/SCOPE.md): 1 to 3, 11 and 4 put to every call, 5 to 9
// to calls that bring a message, 10 to finishes. Nothing here takes an area by `&mut`, so a refused call changes no byte.
#![tactic(auto)]

pub mod check;
pub mod sorts;

ghost use Rattle.std.specs.Prelude.{◌≡◌, ℕ, ◌≤◌, IfOk};
ghost use Rattle.session.specs.Area.{decode};
ghost use Rattle.session.specs.Calls.{char};
ghost use Rattle.session.specs.Limits.{ENTRIES_MOST as entries_most};
ghost use Rattle.session.specs.Questions.{first_no, opens, new_entries, units_after, question5, question6, message_questions, finish_questions};
ghost use Rattle.event.specs.Written.{keyboard_at};
ghost use Rattle.queue.specs.Room.{IsArea};
ghost use Rattle.questions.specs.Asked.{as_no, to_every};
ghost use Rattle.questions.specs.Sorts.{as_sort};

use crate::sorts::MessageSort;
use event::keyboard::Keyboard;
use lookup::block::Layout;
use segmentation::break_table::BreakTable;
use session::{
    AREA_SIZE, ENTRIES_MOST, KEY_STATE_SIZE, Message, OPEN_MOST, PendingMessageToken, Refusal,
    TOKENS_MOST, UNITS_MOST,
};

// ---- put to every call

// What was lent to a call and passed the questions.
#[derive(Clone, Copy)]
pub struct Checked<'a> {
    pub keyboard: Keyboard<'a>,
    pub table: BreakTable<'a>,
}

// 1 to 3, 11 and 4, put to every call: the first that is failed, or what was lent.
#[tactic(auto, unfolding(crate::specs::Asked::as_no, crate::specs::Asked::to_every, session::specs::Answers::refusal_number, session::specs::Questions::question1, session::specs::Questions::first_no))]
pub fn ask_areas<'a>(
    session: &[u8],
    answers: &[u8],
    state: &'a [u8],
    block: &'a [u8],
    table: &'a [u8],
) -> Result<Checked<'a>, Refusal>
    ensures refusal { as_no result ≡ first_no (to_every session.now answers.now state.now block.now table.now) }
    ensures checked { IfOk result (λ checked. (checked.keyboard.state.now ≡ state.now) × (checked.keyboard.layout.bytes.now ≡ block.now) × (checked.table.bytes.now ≡ table.now)) }
{
    if session.len() != AREA_SIZE {
        return Err(Refusal::AreaSize);
    }
    if answers.len() != AREA_SIZE {
        return Err(Refusal::AreaSize); // of either area
    }
    if state.len() != KEY_STATE_SIZE {
        return Err(Refusal::KeyStateSize);
    }
    let layout = Layout::new(block).ok_or(Refusal::Block)?;
    let table = BreakTable::new(table).ok_or(Refusal::Table)?;
    if !crate::check::session_ok(session) {
        return Err(Refusal::Session);
    }
    let keyboard = Keyboard { state, layout };
    Ok(Checked { keyboard, table }) // those put to every call
}

// ---- what a message asks for, of a session's area

// Whether it opens: a character only where a press is held.
#[tactic(auto, unfolding(crate::specs::Sorts::as_sort, session::specs::Questions::opens))]
fn opens(session: &[u8], sort: MessageSort) -> bool
    requires { IsArea session.now }
    ensures { result ≡ opens (decode session.now) (as_sort sort) }
{
    let h = record::read::header_at(session);
    match sort {
        MessageSort::KeyDown | MessageSort::KeyUp => true,
        MessageSort::Char => h.held,
        MessageSort::DeadChar | MessageSort::Focus(_) | MessageSort::Ignored => false,
    }
}

// SCOPE 6.0: how many entries it needs, and so many tokens. Focus on an empty queue needs none.
#[tactic(auto, unfolding(crate::specs::Sorts::as_sort, session::specs::Questions::new_entries))]
fn new_entries(session: &[u8], keyboard: Keyboard<'_>, sort: MessageSort) -> usize
    requires { IsArea session.now }
    ensures { (result ≡ new_entries (decode session.now) (keyboard_at keyboard.entry.state.now keyboard.entry.layout.bytes.now) (as_sort sort)) × (result ≤ entries_most) }
{
    let h = record::read::header_at(session);
    match sort {
        MessageSort::KeyDown | MessageSort::KeyUp | MessageSort::DeadChar => 1,
        MessageSort::Char => usize::from(h.held),
        MessageSort::Focus(_) if h.count == 0 => 0,
        MessageSort::Focus(st) => event::focus::focus_count(keyboard, st),
        MessageSort::Ignored => 0,
    }
}

// How many units a character message leaves held.
fn char_units_after(session: &[u8], message: Message) -> usize
    requires { IsArea session.now }
    ensures { result ≡ units_after (decode session.now).held message char }
{
    let h = record::read::header_at(session);
    if !h.held {
        return 0;
    }
    let held = record::read::unit_count(session);
    let added = text::char_units(message.wparam);
    held + added.len()
}

// How many units are held with it.
#[tactic(auto, unfolding(crate::specs::Sorts::as_sort, session::specs::Questions::units_after))]
fn units_after(session: &[u8], sort: MessageSort, message: Message) -> usize
    requires { IsArea session.now }
    ensures { result ≡ units_after (decode session.now).held message (as_sort sort) }
{
    if let MessageSort::Char = sort {
        return char_units_after(session, message);
    }
    0
}

// ---- the questions that are put to a session

// Question 5: for a dead character, whether a press is held.
#[tactic(auto, unfolding(crate::specs::Sorts::as_sort, session::specs::Questions::question5))]
fn has_press(session: &[u8], sort: MessageSort) -> bool
    requires { IsArea session.now }
    ensures { result ≡ question5 (decode session.now) (as_sort sort) }
{
    let h = record::read::header_at(session);
    h.held || !matches!(sort, MessageSort::DeadChar)
}

// Question 6: to open, whether fewer than OPEN_MOST are open.
#[tactic(auto, unfolding(session::specs::Questions::question6))]
fn may_open(session: &[u8], sort: MessageSort) -> bool
    requires { IsArea session.now }
    ensures { result ≡ question6 (decode session.now) (as_sort sort) }
{
    if !opens(session, sort) {
        return true;
    }
    queue::pending::open_count(session) < OPEN_MOST
}

// 5 to 9, put to calls that bring a message.
#[tactic(auto, unfolding(crate::specs::Asked::as_no, session::specs::Answers::refusal_number, session::specs::Questions::message_questions, session::specs::Questions::question7, session::specs::Questions::question8, session::specs::Questions::question9, session::specs::Questions::first_no))]
pub fn ask_message(
    session: &[u8],
    keyboard: Keyboard<'_>,
    sort: MessageSort,
    message: Message,
) -> Result<(), Refusal>
    requires { IsArea session.now }
    ensures { as_no result ≡ first_no (message_questions (decode session.now) (keyboard_at keyboard.entry.state.now keyboard.entry.layout.bytes.now) message (as_sort sort)) }
{
    if !has_press(session, sort) {
        return Err(Refusal::NothingHeld);
    }
    if !may_open(session, sort) {
        return Err(Refusal::TooManyOpen);
    }
    let h = record::read::header_at(session);
    let new = new_entries(session, keyboard, sort);
    if ENTRIES_MOST < h.count as usize + new {
        return Err(Refusal::QueueFull);
    }
    if TOKENS_MOST < h.handed as usize + new {
        return Err(Refusal::TokensUsed);
    }
    if UNITS_MOST < units_after(session, sort, message) {
        return Err(Refusal::TooManyUnits);
    }
    Ok(()) // 5 to 9
}

// Question 10, put to finishes: whether the token is that of the latest open message.
#[tactic(auto, unfolding(crate::specs::Asked::as_no, session::specs::Answers::refusal_number, session::specs::Questions::finish_questions, session::specs::Questions::question10, session::specs::Questions::first_no))]
pub fn ask_finish(session: &[u8], token: PendingMessageToken) -> Result<(), Refusal>
    requires { IsArea session.now }
    ensures { as_no result ≡ first_no (finish_questions (decode session.now) token.0) }
{
    if queue::pending::is_latest(session, token) {
        return Ok(());
    }
    Err(Refusal::NotLatest)
}
