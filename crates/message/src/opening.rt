// What an open does once its questions are passed: tao's KeyEventBuilder::process_message up to the peek.
ghost use Rattle.std.specs.Prelude.{true, [], ◌≡◌, ◌<◌, length, None};
ghost use Rattle.lookup.specs.LParam.{key_lparam, virtual_key};
ghost use Rattle.session.specs.Answers.{result_by};
ghost use Rattle.session.specs.Area.{encode, decode, encode_answer};
ghost use Rattle.session.specs.Builder.{from_message};
ghost use Rattle.session.specs.Calls.{opening, char_opened, dead_char_answered, behind, message_effect};
ghost use Rattle.session.specs.Focus.{focus_events};
ghost use Rattle.session.specs.Limits.{AREA};
ghost use Rattle.session.specs.Questions.{is_held};
ghost use Rattle.session.specs.Session.{press, release, Session};
ghost use Rattle.event.specs.Written.{keyboard_at};
ghost use Rattle.queue.specs.Room.{IsArea, HasRoom};
ghost use Rattle.message.specs.Gives.{Gives, MayChar, FitBehind, followed};
ghost use Rattle.message.specs.Passes.{Passes};
ghost use Rattle.questions.specs.Sorts.{as_sort};

use event::keyboard::Keyboard;
use questions::sorts::MessageSort;
use session::{ElementState, Message, PendingMessageToken, ProcResult, WM_SYSKEYDOWN};

// ---- a focus change (complete_multi)

// Straight to the answer area.
fn hand_out_focus(answers: &mut [u8], keyboard: Keyboard<'_>, st: ElementState)
    requires { length answers.old ≡ AREA }
    ensures { answers.new ≡ encode_answer (focus_events (keyboard_at keyboard.entry.state.now keyboard.entry.layout.bytes.now) st) }
{
    let written = event::focus::focus_keys(keyboard, st);
    let keys = written.as_slice();
    for i in 0..keys.len() {
        let event = event::focus::synthetic_event(keyboard, st, keys[i]);
        queue::answers::put_event_at(answers, i, keyboard.layout.bytes, event);
    }
    queue::answers::close(answers, keys.len());
}

// As completed entries behind the last one, each under a token of its own.
fn queue_focus(session: &mut [u8], keyboard: Keyboard<'_>, st: ElementState)
    requires { IsArea session.old × (0 < length (decode session.old).entries) × FitBehind (decode session.old) (focus_events (keyboard_at keyboard.state.now keyboard.layout.bytes.now) st) }
    ensures { session.new ≡ encode (followed (decode session.old) (focus_events (keyboard_at keyboard.entry.state.now keyboard.entry.layout.bytes.now) st)) }
{
    let written = event::focus::focus_keys(keyboard, st);
    let keys = written.as_slice();
    for i in 0..keys.len() {
        let event = event::focus::synthetic_event(keyboard, st, keys[i]);
        queue::pending::add_event(session, keyboard.layout.bytes, event);
    }
}

// ---- presses and releases, and what opens nothing

// A press waits for its finish with its virtual key and what its lParam says.
fn open_press(
    session: &mut [u8],
    answers: &mut [u8],
    message: Message,
) -> Option<PendingMessageToken>
    requires { HasRoom session.old × (length answers.old ≡ AREA) }
    ensures { Gives (opening (decode session.old) (press (virtual_key message.wparam) (key_lparam message.lparam)) (decode session.old).held) result session.new answers.new }
{
    let vkey = lookup::keyboard::virtual_key(message.wparam);
    let l = lookup::keyboard::destructure_key_lparam(message.lparam);
    let token = queue::pending::add_press(session, vkey, l);
    queue::answers::no_events(answers);
    Some(token) // the press
}

// SCOPE 3.4: a release is read from layout and key state at its open.
fn open_release(
    session: &mut [u8],
    answers: &mut [u8],
    keyboard: Keyboard<'_>,
    message: Message,
) -> Option<PendingMessageToken>
    requires { HasRoom session.old × (length answers.old ≡ AREA) }
    ensures { Gives (opening (decode session.old) (release (from_message (keyboard_at keyboard.entry.state.now keyboard.entry.layout.bytes.now) (virtual_key message.wparam) (key_lparam message.lparam))) (decode session.old).held) result session.new answers.new }
{
    let vkey = lookup::keyboard::virtual_key(message.wparam);
    let l = lookup::keyboard::destructure_key_lparam(message.lparam);
    let info = event::partial::from_message(keyboard, vkey, l);
    let token = queue::pending::add_release(session, keyboard.layout.bytes, info);
    queue::answers::no_events(answers);
    Some(token) // the release
}

// A message that is ignored, or answered without an event.
fn open_none(answers: &mut [u8]) -> Option<PendingMessageToken>
    requires { length answers.old ≡ AREA }
    ensures { (result ≡ None) × (answers.new ≡ encode_answer []) }
{
    queue::answers::no_events(answers);
    None // nothing waits
}

// ---- a character

// SCOPE 3.9: a character adds its units to the held press, and waits; without one it is ignored.
fn open_char(
    session: &mut [u8],
    answers: &mut [u8],
    message: Message,
) -> Option<PendingMessageToken>
    requires { MayChar session.old message.wparam × (length answers.old ≡ AREA) }
    ensures { Gives (char_opened (decode session.old) message (decode session.old).held) result session.new answers.new }
{
    let h = record::read::header_at(session);
    if !h.held {
        return open_none(answers);
    }
    queue::held_press::add_units(session, message.wparam);
    let token = queue::pending::add_character(session);
    queue::answers::no_events(answers);
    Some(token) // the character
}

// ---- messages that are answered whole

// SCOPE 4.4: a dead character completes the held press, behind the queue's last entry or straight out of an empty one.
fn answer_dead_char(session: &mut [u8], answers: &mut [u8]) -> Option<PendingMessageToken>
    requires { HasRoom session.old × (is_held (decode session.old).held ≡ true) × (length answers.old ≡ AREA) }
    ensures { Gives (dead_char_answered (decode session.old) (decode session.old).held) result session.new answers.new }
{
    let h = record::read::header_at(session);
    queue::held_event::put_dead_event(session, answers, h.count as usize);
    queue::held_press::forget_held(session);
    if h.count == 0 { // before the dead character
        queue::answers::one_event(answers);
        return None;
    }
    queue::pending::add_complete(session, h);
    queue::answers::no_events(answers);
    None
}

// SCOPE 4.4: a focus change hands out its events straight from an empty queue, else they go behind its last entry.
fn answer_focus(
    session: &mut [u8],
    answers: &mut [u8],
    keyboard: Keyboard<'_>,
    st: ElementState,
) -> Option<PendingMessageToken>
    requires { IsArea session.old × (length answers.old ≡ AREA) × FitBehind (decode session.old) (focus_events (keyboard_at keyboard.state.now keyboard.layout.bytes.now) st) }
    ensures { Gives (behind (decode session.old) (focus_events (keyboard_at keyboard.entry.state.now keyboard.entry.layout.bytes.now) st) (decode session.old).held (decode session.old).entries) result session.new answers.new }
{
    let h = record::read::header_at(session);
    if h.count == 0 { // before the focus change
        hand_out_focus(answers, keyboard, st);
        return None;
    }
    queue_focus(session, keyboard, st);
    queue::answers::no_events(answers);
    None
}

// ---- which of them a message is; the message result

// What a message that passed its questions opens or answers, by its sort.
pub fn open_by(
    session: &mut [u8],
    answers: &mut [u8],
    keyboard: Keyboard<'_>,
    sort: MessageSort,
    message: Message,
) -> Option<PendingMessageToken>
    requires { IsArea session.old × (length answers.old ≡ AREA) × Passes (decode session.old) (keyboard_at keyboard.state.now keyboard.layout.bytes.now) message (as_sort sort) }
    ensures { Gives (message_effect (decode session.old) (keyboard_at keyboard.entry.state.now keyboard.entry.layout.bytes.now) message (as_sort sort)) result session.new answers.new }
{
    match sort {
        MessageSort::KeyDown => open_press(session, answers, message),
        MessageSort::KeyUp => open_release(session, answers, keyboard, message),
        MessageSort::Char => open_char(session, answers, message),
        MessageSort::DeadChar => answer_dead_char(session, answers),
        MessageSort::Focus(st) => answer_focus(session, answers, keyboard, st),
        MessageSort::Ignored => open_none(answers),
    }
}

// SCOPE 3.3, what the message result becomes: the default procedure's for a system key press, value 0 for what else opens and for a dead
// character; focus, what is ignored and a character with no press held leave it as it is.
#[tactic(auto, unfolding(questions::specs::Sorts::as_sort, session::specs::Answers::result_by))]
pub fn result_after(sort: MessageSort, held: bool, message: Message, res: ProcResult) -> ProcResult
    ensures { (s : Session) → is_held s.held ≡ held → result ≡ result_by (as_sort sort) s message res }
{
    match sort {
        MessageSort::KeyDown if message.kind == WM_SYSKEYDOWN => ProcResult::DefWindowProc,
        MessageSort::KeyDown | MessageSort::KeyUp | MessageSort::DeadChar => ProcResult::Value(0),
        MessageSort::Char if held => ProcResult::Value(0),
        MessageSort::Char | MessageSort::Focus(_) | MessageSort::Ignored => res,
    }
}
