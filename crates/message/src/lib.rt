// tao's KeyEventBuilder::process_message, cut at its peek: open takes a message, finish what was peeked (SCOPE 2.2; SCOPE and a number is a
// clause of docs/SCOPE.md).
#![tactic(auto)]

mod finishing;
mod opening;
pub mod process_message;

ghost use Rattle.std.specs.Prelude.{◌≡◌, IfOk};
ghost use Rattle.session.specs.Answers.{questions, open_of, finish_of, open_said, finish_said};
ghost use Rattle.session.specs.Calls.{sort_of};
ghost use Rattle.session.specs.Given.{brought};
ghost use Rattle.session.specs.Questions.{first_no};
ghost use Rattle.session.specs.declared.ProcResult.{ProcResult};
ghost use Rattle.message.specs.Calls.{inputs, left};
ghost use Rattle.questions.specs.Asked.{as_no};
ghost use Rattle.questions.specs.Sorts.{as_sort};

use event::keyboard::Keyboard;
use questions::Checked;
use questions::sorts::MessageSort;
use session::{Message, PendingMessageToken, ProcResult, Refusal};

// What an open answers, the token of the message that it opened, if any, and the message result after it.
#[derive(Clone, Copy)]
pub struct Opened {
    pub answer: Result<Option<PendingMessageToken>, Refusal>,
    pub result: ProcResult,
}

// What an open takes its message by.
#[derive(Clone, Copy)]
struct Passed<'a> {
    keyboard: Keyboard<'a>,
    sort: MessageSort,
}

// The questions that are put to an open: the first that is failed, or what the message is taken by, with what it is to the calls.
fn ask_open<'a>(
    session: &[u8],
    answers: &[u8],
    state: &'a [u8],
    block: &'a [u8],
    table: &'a [u8],
    message: Message,
) -> Result<Passed<'a>, Refusal>
    ensures refusal { as_no result ≡ first_no (questions session.now answers.now (brought (inputs state.now block.now table.now) message)) }
    ensures passed { IfOk result (λ passed. (as_sort passed.sort ≡ sort_of message) × (passed.keyboard.state.now ≡ state.now) × (passed.keyboard.layout.bytes.now ≡ block.now)) }
{
    let keyboard = questions::ask_areas(session, answers, state, block, table)?.keyboard; // 1 to 3, 11, 4
    let sort = questions::sorts::sort_of(message);
    questions::ask_message(session, keyboard, sort, message)?; // 5 to 9
    Ok(Passed { keyboard, sort })
}

// SCOPE 1.1, 2.2: takes a message. `res` is the message result as it was.
pub fn open(
    session: &mut [u8],
    answers: &mut [u8],
    state: &[u8],
    block: &[u8],
    table: &[u8],
    message: Message,
    res: ProcResult,
) -> Opened
    ensures { left (open_said result.answer) result.result session.new answers.new ≡ open_of session.old answers.old res (inputs state.now block.now table.now) message }
{
    match ask_open(session, answers, state, block, table, message) {
        Err(no) => Opened {
            answer: Err(no),
            result: res,
        },
        Ok(Passed { keyboard, sort }) => {
            let h = record::read::header_at(session);
            let after = crate::opening::result_after(sort, h.held, message, res);
            let token = crate::opening::open_by(session, answers, keyboard, sort, message);
            Opened {
                answer: Ok(token),
                result: after,
            }
        }
    }
}

// SCOPE 1.1, 2.2: finishes the latest open message with what was peeked.
pub fn finish(
    session: &mut [u8],
    answers: &mut [u8],
    state: &[u8],
    block: &[u8],
    table: &[u8],
    token: PendingMessageToken,
    peeked: Option<Message>,
) -> Result<(), Refusal>
    ensures { (was : ProcResult) → left (finish_said result) was session.new answers.new ≡ finish_of session.old answers.old was (inputs state.now block.now table.now) token.0 peeked }
{
    let Checked { keyboard, table } = questions::ask_areas(session, answers, state, block, table)?;
    questions::ask_finish(session, token)?;
    let seen = event::peeked::seen(peeked);
    crate::finishing::finish_open(session, answers, keyboard, table, token, seen);
    Ok(())
}
