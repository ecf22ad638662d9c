// The values of the limits and of the refusals (docs/SCOPE.md, 8.2 and 6), executed: what just passes, what is refused, and that a refused
// call keeps both areas and the message result. There is one message result, which goes from each message to the next and is printed behind each that
// passes. It reads its steps from standard input; a step that has a name is printed with what it gave. The layout has one key, 31 with the scan code
// 02, whose character is 1. The break table is the largest that passes: 7,280 ranges.
//
//   new                        a fresh session
//   keys VK ..                 the keys that are down; all others are up
//   mark AT                    a byte of the session area set to 1
//   result V                   the message result, 7 or 9; before the first such line it is the default procedure's
//   short N                    the calls that follow get a session area (1), an answer area (2), a key state (3), a block (4) or a break table (5)
//                              that lacks its last byte; two digits: both; 0: none
//   message K W L: NAME        a message: kind, wParam, lParam
//   finish T: NAME             the message of the token T finished with nothing peeked
//   opens N K W L: NAME        N such messages opened: how many passed
//   wholes N P K W L: NAME     N such messages opened and finished, with a message of the kind P peeked, or with none where P is 0
//   events: NAME               how many events the last call handed out
//
// Numbers are hexadecimal; what is printed is decimal.
#![tactic(auto)]

ghost use Rattle.std.specs.Prelude.{◌≤◌};

use export::numbers::refusal_number;
use lines::Numbers;
use message::Opened;
use message::process_message::lend_result;
use session::{Message, PendingMessageToken, ProcResult, Refusal};
use show::{Host, read_file, read_input};
use std::io;

// ---- a line of the steps

#[derive(Clone, Copy)]
enum Call {
    Message(Message),
    Finish(PendingMessageToken),
}

// A step with a name.
#[derive(Clone, Copy)]
enum Step {
    Call(Call),
    Opens(u64, Message),
    Wholes(u64, Option<Message>, Message),
    Events,
}

// A message that was peeked, by its kind.
fn peeked_of(kind: u64) -> Option<Message> {
    if kind == 0 {
        return None;
    }
    Some(Message {
        kind: (kind % 0x1_0000_0000) as u32,
        wparam: 0x31,
        lparam: 0x20001,
    })
}

// The first number of a line from a place on; one that the line does not have is 0.
fn number_at(line: &[u8], from: usize) -> u64 {
    Numbers::new(line, from).next().unwrap_or(0)
}

fn step_of(line: &[u8]) -> Step {
    match line.first() {
        Some(b'm') => Step::Call(Call::Message(Numbers::new(line, 7).message())),
        Some(b'f') => {
            let token = (number_at(line, 6) % 0x1_0000_0000) as u32;
            Step::Call(Call::Finish(PendingMessageToken(token)))
        }
        Some(b'e') => Step::Events,
        Some(b'o') => {
            let mut numbers = Numbers::new(line, 5);
            Step::Opens(numbers.next().unwrap_or(0), numbers.message())
        }
        _ => {
            let mut numbers = Numbers::new(line, 6);
            let count = numbers.next().unwrap_or(0);
            let peeked = peeked_of(numbers.next().unwrap_or(0));
            Step::Wholes(count, peeked, numbers.message())
        }
    }
}

// What stands behind the colon and the blank of a line that has a name.
fn name_of(line: &[u8]) -> Option<&[u8]> {
    let colon = line.iter().position(|b| *b == b':')?;
    Some(line[colon..].get(2..).unwrap_or_default())
}

// ---- a call that is given less

// A length, or one less where one of the two digits of `short` is that of the bytes.
fn cut(len: usize, short: u64, digit: u64) -> usize
    ensures { result ≤ len }
{
    if short % 16 == digit || short / 16 == digit {
        return len.saturating_sub(1);
    }
    len
}

// ---- the steps

#[derive(Drop)]
struct Steps<'a, R: Print> {
    rt: &'a R,
    host: Host<'a>,
    // what lacks its last byte
    short: u64,
    result: ProcResult,
}

impl<'a, R: Print> Steps<'a, R> {
    fn take_line(&mut self, line: &[u8]) -> io::Result<()> {
        if line.first() == Some(&b's') {
            self.short = number_at(line, 5);
        }
        match name_of(line) {
            None => {
                self.prepare(line);
                Ok(())
            }
            Some(name) => {
                self.rt.write_all(name)?;
                print!(self.rt; ": ")?;
                self.show_step(step_of(line))
            }
        }
    }

    // A step without a name.
    fn prepare(&mut self, line: &[u8]) {
        match line {
            [b'n', ..] => self.host.renew(),
            [b'k', ..] => lines::set_keys(line, &mut self.host.state),
            [b'm', b'a', ..] => {
                self.host.session[(number_at(line, 4) % 65536) as usize] = 1;
            }
            [b'r', ..] => {
                self.result = ProcResult::Value(number_at(line, 6).cast_signed());
            }
            _ => {}
        }
    }

    fn show_step(&mut self, step: Step) -> io::Result<()> {
        match step {
            Step::Call(call) => self.show_call(call),
            Step::Opens(count, message) => {
                let passed = count_passed(count, || matches!(self.open(message), Ok(Some(_))));
                println!(self.rt; "{passed}")
            }
            Step::Wholes(count, peeked, message) => {
                let passed = count_passed(count, || self.passes_whole(message, peeked));
                println!(self.rt; "{passed}")
            }
            Step::Events => println!(self.rt; "{}", self.host.event_count()),
        }
    }

    // A call that is shown, a refused one with whether it kept both areas and the message result.
    fn show_call(&mut self, call: Call) -> io::Result<()> {
        // what no call writes, so that a change is seen
        self.host.answers.fill(7);
        let session = self.host.session;
        let answers = self.host.answers;
        let result = self.result;
        match self.make_call(call) {
            Err(no) => {
                let kept = self.host.session == session
                    && self.host.answers == answers
                    && self.result == result;
                let what = if kept { "kept" } else { "changed" };
                return println!(self.rt; "refused {}, {what}", refusal_number(no));
            }
            Ok(None) => print!(self.rt; "passed")?,
            Ok(Some(token)) => print!(self.rt; "opened, token {}", token.0)?,
        }
        if let Call::Message(_) = call {
            self.show_result()?;
        }
        println!(self.rt)
    }

    // A value is the 0 that a message leaves, or 7 or 9, which the steps set.
    fn show_result(&self) -> io::Result<()> {
        match self.result {
            ProcResult::DefWindowProc => print!(self.rt; ", result default"),
            ProcResult::Value(v @ (0 | 7 | 9)) => print!(self.rt; ", result {v}"),
            ProcResult::Value(_) => print!(self.rt; ", result another"),
        }
    }

    // A call whose bytes may lack their last one.
    fn make_call(&mut self, call: Call) -> Result<Option<PendingMessageToken>, Refusal> {
        let opened = host_call(&mut self.host, self.short, call, self.result);
        self.result = opened.result;
        opened.answer
    }

    fn open(&mut self, message: Message) -> Result<Option<PendingMessageToken>, Refusal> {
        let opened = self.host.lend_result(message, self.result);
        self.result = opened.result;
        opened.answer
    }

    // A message opened, and finished with what was peeked. The finish behind one that opened nothing names the token 0, and that behind a
    // refused one the number of the refusal.
    fn passes_whole(&mut self, message: Message, peeked: Option<Message>) -> bool {
        let answer = self.open(message);
        let token = match answer {
            Ok(Some(token)) => token,
            Ok(None) => PendingMessageToken(0),
            Err(no) => PendingMessageToken(refusal_number(no)),
        };
        let finished = self.host.finish(token, peeked);
        matches!(answer, Ok(Some(_))) && finished.is_ok()
    }
}

fn host_call(host: &mut Host<'_>, short: u64, call: Call, res: ProcResult) -> Opened {
    cut_call(
        &mut host.session,
        &mut host.answers,
        &host.state,
        host.block,
        host.table,
        short,
        call,
        res,
    )
}

// A call on bytes that may lack their last one, as `short` says. A finish does not see the message result.
fn cut_call(
    session: &mut [u8],
    answers: &mut [u8],
    state: &[u8],
    block: &[u8],
    table: &[u8],
    short: u64,
    call: Call,
    res: ProcResult,
) -> Opened {
    let session_end = cut(session.len(), short, 1);
    let answers_end = cut(answers.len(), short, 2);
    let session = &mut session[..session_end];
    let answers = &mut answers[..answers_end];
    let state = &state[..cut(state.len(), short, 3)];
    let block = &block[..cut(block.len(), short, 4)];
    let table = &table[..cut(table.len(), short, 5)];
    match call {
        Call::Message(message) => {
            lend_result(session, answers, state, block, table, message, res)
        }
        Call::Finish(token) => Opened {
            answer: message::finish(session, answers, state, block, table, token, None).map(
                |()| None,
            ),
            result: res,
        },
    }
}

// How many of so many calls pass.
fn count_passed<F: FnMut() -> bool>(count: u64, mut passes: F) -> u64
    requires { F.IsAlwaysCallable passes }
{
    let mut passed: u64 = 0;
    for _ in 0..count {
        passed = passed.wrapping_add(u64::from(passes()));
    }
    passed
}

// ---- the files

const FILE_MOST: u64 = 65536;

fn main(rt: HostRuntime) -> io::Result<()> {
    let Some(block) = read_file(&rt, "one-key.block", FILE_MOST)? else {
        return Ok(());
    };
    let Some(table) = read_file(&rt, "most.breaks", FILE_MOST)? else {
        return Ok(());
    };
    let input = read_input(&rt, FILE_MOST)?;
    let mut steps = Steps {
        rt: &rt,
        host: Host::new(&block, &table),
        short: 0,
        result: ProcResult::DefWindowProc,
    };
    for line in input.split(|b| *b == b'\n') {
        steps.take_line(line)?;
    }
    Ok(())
}
