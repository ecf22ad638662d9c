// What a call answers, as the C interface's numbers: of the question that refused it, of the token, of what became of the message result.
ghost use Rattle.std.specs.Prelude.{◌≡◌};
ghost use Rattle.session.specs.Answers.{refusal_number, open_said};
ghost use Rattle.export.specs.Numbers.{refused_number, token_number, change_of};

use session::{PendingMessageToken, ProcResult, Refusal};

// Stands for a number that there is not.
pub(crate) const NONE: u32 = 0xffff_ffff;

// The number of the question that a refusal answers no. No From: its impl would have to stand in `session`, which has no code that runs.
#[tactic(auto, unfolding(session::specs::Answers::refusal_number))]
pub fn refusal_number(no: Refusal) -> u32
    ensures { result ≡ refusal_number no }
{
    match no {
        Refusal::AreaSize => 1,
        Refusal::KeyStateSize => 2,
        Refusal::Block => 3,
        Refusal::Table => 11,
        Refusal::Session => 4,
        Refusal::NothingHeld => 5,
        Refusal::TooManyOpen => 6,
        Refusal::QueueFull => 7,
        Refusal::TokensUsed => 8,
        Refusal::TooManyUnits => 9,
        Refusal::NotLatest => 10,
    }
}

// The number of the question that refused a call, 0 where none did.
#[tactic(auto, unfolding(crate::specs::Numbers::refused_number))]
pub(crate) fn refused_number<T: Drop>(answer: Result<T, Refusal>) -> u32
    ensures { result ≡ refused_number answer }
{
    match answer {
        Ok(_) => 0,
        Err(no) => refusal_number(no),
    }
}

// The token that was opened; 4,294,967,295 where none was.
#[tactic(auto, unfolding(crate::specs::Numbers::token_number, session::specs::Answers::open_said))]
pub(crate) fn token_number(answer: Result<Option<PendingMessageToken>, Refusal>) -> u32
    ensures { result ≡ token_number (open_said answer) }
{
    match answer {
        Ok(Some(token)) => token.0,
        _ => NONE,
    }
}

// What became of a message result that was value 1, which no call sets: it stayed, or it is the default procedure's, or value 0.
#[tactic(auto, unfolding(crate::specs::Numbers::change_of))]
pub(crate) fn result_number(r: ProcResult) -> u32
    ensures { result ≡ change_of r }
{
    match r {
        ProcResult::DefWindowProc => 1,
        ProcResult::Value(0) => 2,
        ProcResult::Value(_) => 0,
    }
}
