// tao's KeyEventBuilder::process_message as a window procedure calls it, up to the peek: it is lent the message result. Beside it, the call that
// makes the message result and lends it.
ghost use Rattle.std.specs.Prelude.{◌≡◌};
ghost use Rattle.session.specs.Answers.{open_of, open_said};
ghost use Rattle.message.specs.Calls.{inputs, left};

use crate::Opened;
use session::{Message, PendingMessageToken, ProcResult, Refusal};

// SCOPE 10.8: the message result, lent and set by an open.
#[derive(Clone, Copy)]
pub struct MessageResult {
    pub value: ProcResult,
}

// SCOPE 3.3, 10.8: takes a message and sets the message result that it is lent.
pub fn process_message(
    session: &mut [u8],
    answers: &mut [u8],
    state: &[u8],
    block: &[u8],
    table: &[u8],
    message: Message,
    res: &mut MessageResult,
) -> Result<Option<PendingMessageToken>, Refusal>
    ensures { left (open_said result) res.new.value session.new answers.new ≡ open_of session.old answers.old res.old.value (inputs state.now block.now table.now) message }
{
    let old = res.value;
    let opened = crate::open(session, answers, state, block, table, message, old);
    res.value = opened.result;
    opened.answer
}

// SCOPE 3.3, 10.8: takes a message by process_message, which it lends a message result: `res` is its value before, and the answer has its value
// after.
pub fn lend_result(
    session: &mut [u8],
    answers: &mut [u8],
    state: &[u8],
    block: &[u8],
    table: &[u8],
    message: Message,
    res: ProcResult,
) -> Opened
    ensures { left (open_said result.answer) result.result session.new answers.new ≡ open_of session.old answers.old res (inputs state.now block.now table.now) message }
{
    let mut lent = MessageResult { value: res };
    let answer = process_message(session, answers, state, block, table, message, &mut lent);
    let after = lent.value;
    Opened {
        answer,
        result: after,
    }
}
