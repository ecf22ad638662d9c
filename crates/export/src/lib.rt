// The C interface: the calls on numbers and slices. include/mahjonglarch.h says the same to a host.
#![tactic(auto)]

mod events;
pub mod numbers;

ghost use Rattle.std.specs.Prelude.{List, ◌≡◌, ℕ, eqb, length};
ghost use Rattle.area.specs.Pick.{pick};
ghost use Rattle.session.specs.Answers.{open_of, finish_of};
ghost use Rattle.session.specs.Area.{encode};
ghost use Rattle.session.specs.Limits.{AREA};
ghost use Rattle.session.specs.Session.{fresh_session};
ghost use Rattle.session.specs.declared.ProcResult.{ProcResult};
ghost use Rattle.message.specs.Calls.{inputs, message};
ghost use Rattle.export.specs.Events.{event_at, fields_left, text_at, text_left};
ghost use Rattle.export.specs.Interface.{INTERFACE as interface_number, OpenSays, FinishSays, peeked_as, count_of};

use crate::events::FIELDS;
use crate::numbers::NONE;
use session::{Message, PendingMessageToken, ProcResult, TEXT_MOST};

// ---- which interface this is

// It rises with each change of a signature, of what a number means, or of an area. MAHJONGLARCH_INTERFACE of the header is the same.
const INTERFACE: u32 = 2;

// The number of this interface, for a host to compare with its header's before the first call.
pub fn mahjonglarch_interface() -> u32
    ensures { result ≡ interface_number }
{
    INTERFACE
}

// ---- a fresh session

// Makes the area that of a fresh session: 0. An area of another size is left as it is: 1, question 1's number.
pub fn mahjonglarch_fresh(session: &mut [u8]) -> u32
    ensures { (result ≡ pick (eqb (length session.old) AREA) 0 1) × (session.new ≡ pick (eqb (length session.old) AREA) (encode fresh_session) session.old) }
{
    if record::write::fresh(session) { 0 } else { 1 } // question 1
}

// ---- open and finish

// The peeked message, or its absence where `peeked` is 0.
#[tactic(auto, unfolding(crate::specs::Interface::peeked_as))]
fn peeked_at(peeked: u32, kind: u32, wparam: u64, lparam: u64) -> Option<Message>
    ensures { result ≡ peeked_as peeked kind wparam lparam }
{
    (peeked != 0).then_some(Message {
        kind,
        wparam,
        lparam,
    })
}

// Takes a message: 0, or the number of the question that refused it. `token` becomes the token of the message that was opened, or
// 4,294,967,295 where none was; `res` what becomes of the message result: 0 it stays as it was, 1 the default procedure's, 2 value 0.
pub fn mahjonglarch_open(
    session: &mut [u8],
    answers: &mut [u8],
    state: &[u8],
    block: &[u8],
    table: &[u8],
    kind: u32,
    wparam: u64,
    lparam: u64,
    token: &mut u32,
    res: &mut u32,
) -> u32
    ensures { (was : ProcResult) → OpenSays result token.new res.new session.new answers.new (open_of session.old answers.old was (inputs state.now block.now table.now) (message kind wparam lparam)) was }
{
    let was = ProcResult::Value(1);
    let message = Message {
        kind,
        wparam,
        lparam,
    };
    let opened = message::open(session, answers, state, block, table, message, was);
    *token = crate::numbers::token_number(opened.answer);
    *res = crate::numbers::result_number(opened.result);
    crate::numbers::refused_number(opened.answer)
}

// Finishes the latest open message, which has the token, with the peeked message, or with none where `peeked` is 0: 0, or the number of the
// question that refused it.
pub fn mahjonglarch_finish(
    session: &mut [u8],
    answers: &mut [u8],
    state: &[u8],
    block: &[u8],
    table: &[u8],
    token: u32,
    peeked: u32,
    kind: u32,
    wparam: u64,
    lparam: u64,
) -> u32
    ensures { (was : ProcResult) → FinishSays result session.new answers.new (finish_of session.old answers.old was (inputs state.now block.now table.now) token (peeked_as peeked kind wparam lparam)) }
{
    let p = peeked_at(peeked, kind, wparam, lparam);
    let finished = message::finish(
        session,
        answers,
        state,
        block,
        table,
        PendingMessageToken(token),
        p,
    );
    crate::numbers::refused_number(finished)
}

// ---- the events of an answer area

// Their number; 4,294,967,295 where the bytes are no answer area's: another size, or a number above 256.
#[tactic(auto, unfolding(crate::specs::Interface::count_of))]
pub fn mahjonglarch_event_count(answers: &[u8]) -> u32
    ensures { result ≡ count_of answers.now }
{
    crate::events::count(answers).unwrap_or(NONE)
}

// Event i as 17 numbers: 0. Where there is no such event, its bytes are not an event's, or `fields` has another length than 17: 1, and the
// fields stay as they are.
#[tactic(auto, using(crate::proofs::Interface::no_fields), unfolding(crate::specs::Events::fields_left))]
pub fn mahjonglarch_event(answers: &[u8], i: u32, fields: &mut [u32]) -> u32
    ensures { ◌≡◌ {A = ℕ × List ℕ} (result, fields.new) (fields_left (event_at answers.now i) fields.old) }
{
    if fields.len() != FIELDS {
        return 1; // another number of them
    }
    match crate::events::numbers_of(answers, i) {
        Some(numbers) => {
            fields.copy_from_slice(&numbers);
            0
        }
        None => 1, // no such event
    }
}

// A text of event i, copied to the front of `text`: its length, 0 where there is none. 0 is the logical key's character, 1 the text, 2 the
// text with all modifiers, 3 the character of the key without modifiers. Where there is no such event or text, its bytes are not an event's,
// or `text` has less than 48 bytes: 4,294,967,295, and the bytes stay as they are.
#[tactic(auto, using(crate::proofs::Interface::no_room), unfolding(crate::specs::Events::text_left))]
pub fn mahjonglarch_event_text(answers: &[u8], i: u32, which: u32, text: &mut [u8]) -> u32
    ensures { ◌≡◌ {A = ℕ × List ℕ} (result, text.new) (text_left (text_at (event_at answers.now i) which) text.old) }
{
    if text.len() < TEXT_MOST {
        return NONE; // less room than a text may need
    }
    match crate::events::text_of(answers, i, which) {
        Some(bytes) => {
            text[..bytes.len()].copy_from_slice(bytes);
            bytes.len() as u32
        }
        None => NONE,
    }
}
