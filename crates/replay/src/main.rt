// Replays calls with tao's own answers (data/calls, whose form oracle/README.md describes), and says where an answer is another.
#![tactic(auto)]

use export::numbers::refusal_number;
use session::{
    ANSWER_EVENT_SIZE, ANSWER_EVENTS_AT, AREA_SIZE, COUNT_AT, HELD_FIELD_AT, KEY_STATE_SIZE,
    Message, PendingMessageToken, ProcResult, Refusal,
};
use show::{Host, Reader, read_file, u16_at};
use std::{fmt, io};

// ---- the file

// A part of the file, and the place behind it. One that the file ends before is empty, and behind it stands the file's first byte.
#[derive(Clone, Copy)]
struct Part<'a> {
    bytes: &'a [u8],
    next: usize,
}

fn part_from<'a>(file: &'a [u8], from: usize, count: usize) -> Part<'a> {
    let next = from.saturating_add(count);
    match file.get(from..next) {
        Some(bytes) => Part { bytes, next },
        None => Part {
            bytes: &[],
            next: 0,
        },
    }
}

// The file begins with two lists, of blocks and of break tables: 1 byte says how many there are, and 4 bytes before each how long it is.

// The block or table that starts at a place.
fn listed_from<'a>(file: &'a [u8], at: usize) -> Part<'a> {
    let head = part_from(file, at, 4);
    match head.bytes.first_chunk() {
        Some(length) => part_from(file, head.next, u32::from_le_bytes(*length) as usize),
        None => head,
    }
}

// The one of a number, in the list that starts at a place.
fn listed<'a>(file: &'a [u8], list: usize, number: u8) -> Part<'a> {
    let mut found = listed_from(file, list.saturating_add(1));
    for _ in 0..number {
        found = listed_from(file, found.next);
    }
    found
}

// The place behind a list.
fn behind_list(file: &[u8], list: usize) -> usize {
    match file.get(list) {
        None => list,
        Some(0) => list.saturating_add(1),
        Some(count) => listed(file, list, count - 1).next,
    }
}

const BLOCKS_AT: usize = 0;

// Unpacks a field: pairs of a number of zeros and the byte behind them; 255 stands for zeros to the field's end.
fn unpack(file: &mut Reader<'_>, field: &mut [u8]) {
    field.fill(0);
    let mut rest = field;
    while !rest.is_empty() {
        let zeros = usize::from(file.u8());
        if zeros == 255 || rest.len() <= zeros {
            return;
        }
        rest[zeros] = file.u8();
        rest = &mut rest[zeros + 1..];
    }
}

// ---- a call

const RECORD_SIZE: usize = 48;

// What a call says, in the file's numbers: 0 and the refusal's number, 1 where it opened none or finished, 2 and the token.
#[derive(Clone, Copy, PartialEq, Eq)]
struct Answer {
    what: u8,
    number: u32,
}

impl From<Result<Option<PendingMessageToken>, Refusal>> for Answer {
    fn from(said: Result<Option<PendingMessageToken>, Refusal>) -> Answer {
        match said {
            Err(no) => Answer {
                what: 0,
                number: refusal_number(no),
            },
            Ok(None) => Answer { what: 1, number: 0 },
            Ok(Some(token)) => Answer {
                what: 2,
                number: token.0,
            },
        }
    }
}

// A record of a call, and what tao did.
#[derive(Drop)]
struct Record<'a> {
    // what is opened, or peeked
    message: Message,
    // the message result that an open is lent; the token of a finish, and whether a message was peeked
    given: Reader<'a>,
    answer: Answer,
    result: ProcResult,
    tokens: u16,
    held: u8,
    entries: u16,
}

// A message result that was set: the default procedure's, or the value with the bits.
fn result_of(tag: u8, bits: u64) -> ProcResult {
    match tag {
        0 => ProcResult::DefWindowProc,
        _ => ProcResult::Value(bits.cast_signed()),
    }
}

fn read_record<'a>(mut bytes: Reader<'a>) -> Record<'a> {
    Record {
        message: Message {
            kind: bytes.u32(),
            wparam: bytes.u64(),
            lparam: bytes.u64(),
        },
        given: Reader {
            rest: bytes.slice(9),
        },
        answer: Answer {
            what: bytes.u8(),
            number: bytes.u32(),
        },
        result: result_of(bytes.u8(), bytes.u64()),
        tokens: bytes.u16(),
        held: bytes.u8(),
        entries: bytes.u16(),
    }
}

// What a call did otherwise than tao; of events, at which byte of the answer area.
#[derive(Clone, Copy)]
enum Difference {
    Answer,
    Result,
    Session,
    Events(usize),
}

impl fmt::Display for Difference {
    fn fmt<W: fmt::Write>(&self, f: &mut fmt::Formatter<W>) -> fmt::Result {
        match *self {
            Difference::Answer => write!(f, "another answer"),
            Difference::Result => write!(f, "another result"),
            Difference::Session => write!(f, "another session"),
            Difference::Events(at) => match at.checked_sub(ANSWER_EVENTS_AT) {
                None => write!(f, "other events: their number"),
                Some(at) => {
                    let event = at / ANSWER_EVENT_SIZE;
                    let byte = at % ANSWER_EVENT_SIZE;
                    write!(f, "other events: event {event}, byte {byte}")
                }
            },
        }
    }
}

// ---- scripts

#[derive(Clone, Copy)]
struct Count {
    calls: u64,
    events: u64,
}

impl fmt::Display for Count {
    fn fmt<W: fmt::Write>(&self, f: &mut fmt::Formatter<W>) -> fmt::Result {
        write!(f, "{} calls, {} events", self.calls, self.events)
    }
}

#[derive(Drop)]
struct Replay<'a> {
    bytes: &'a [u8],
    // what of it is still to be played
    file: Reader<'a>,
    tables_at: usize,
    host: Host<'a>,
    // the answer area that tao's last events make
    expected: [u8; AREA_SIZE],
    result: ProcResult,
    // what the script made so far
    count: Count,
}

impl<'a> Replay<'a> {
    // The name of a script: its length, its bytes.
    fn name(&mut self) -> &'a [u8] {
        let length = self.file.u8();
        let at = self.bytes.len().saturating_sub(self.file.rest.len());
        let name = part_from(self.bytes, at, usize::from(length));
        self.file.rest = self.bytes.get(name.next..).unwrap_or_default();
        name.bytes
    }

    // Takes what the calls that follow bring.
    fn bring(&mut self) {
        self.host.block = listed(self.bytes, BLOCKS_AT, self.file.u8()).bytes;
        self.host.table = listed(self.bytes, self.tables_at, self.file.u8()).bytes;
        let mut state = [0; KEY_STATE_SIZE];
        unpack(&mut self.file, &mut state);
        self.host.state = state;
    }

    fn open(&mut self, record: &Record<'_>) -> Answer {
        let mut given = record.given;
        let lent = match (given.u8(), given.u64()) {
            // what the open before left
            (2, _) => self.result,
            (tag, bits) => result_of(tag, bits),
        };
        let opened = self.host.lend_result(record.message, lent);
        self.result = opened.result;
        Answer::from(opened.answer)
    }

    fn finish(&mut self, record: &Record<'_>) -> Answer {
        let mut given = record.given;
        let token = PendingMessageToken(given.u32());
        let peeked = match given.u8() {
            0 => None,
            _ => Some(record.message),
        };
        Answer::from(self.host.finish(token, peeked).map(|()| None))
    }

    // Makes the call of the record that stands next.
    fn play_call(&mut self, opens: bool) -> Result<(), Difference> {
        let mut bytes = [0; RECORD_SIZE];
        unpack(&mut self.file, &mut bytes);
        let record = read_record(Reader { rest: &bytes });
        let answer = if opens {
            self.open(&record)
        } else {
            self.finish(&record)
        };
        self.count.calls = self.count.calls.wrapping_add(1);
        // A refused call leaves the answer area as it was, so no area is in the file for it.
        if record.answer.what != 0 {
            unpack(&mut self.file, &mut self.expected);
            let events = u64::from(self.host.event_count());
            self.count.events = self.count.events.wrapping_add(events);
        }
        if answer != record.answer {
            return Err(Difference::Answer);
        }
        if opens && self.result != record.result {
            return Err(Difference::Result);
        }
        self.compare_areas(&record)
    }

    fn compare_areas(&self, record: &Record<'_>) -> Result<(), Difference> {
        let session = &self.host.session;
        if u16_at(session, 0) != record.tokens
            || session[HELD_FIELD_AT] != record.held
            || u16_at(session, COUNT_AT) != record.entries
        {
            return Err(Difference::Session);
        }
        // `==` compares many bytes at a time; the place is looked for where it is needed
        if self.host.answers == self.expected {
            return Ok(());
        }
        let mut bytes = self.host.answers.iter().zip(&self.expected);
        Err(Difference::Events(bytes.position(|(a, b)| a != b).unwrap_or(AREA_SIZE)))
    }

    // One script from a fresh session, to the next one, the end, or a call that tao answered otherwise.
    fn play(&mut self) -> Result<(), Difference> {
        self.host.renew();
        self.host.state.fill(0);
        self.host.block = &[];
        self.host.table = &[];
        self.result = ProcResult::DefWindowProc;
        self.count = Count {
            calls: 0,
            events: 0,
        };
        for _ in 0..self.bytes.len() {
            let Some((&kind @ 2.., rest)) = self.file.rest.split_first() else {
                break;
            };
            self.file.rest = rest;
            match kind {
                2 => self.bring(),
                3 => self.play_call(true)?,
                _ => self.play_call(false)?,
            }
        }
        Ok(())
    }
}

// Plays all scripts, with a line for each, and a last one for all.
fn play_all(rt: &impl Print, replay: &mut Replay<'_>) -> io::Result<()> {
    let mut all = Count {
        calls: 0,
        events: 0,
    };
    let mut scripts: u64 = 0;
    let mut played = Ok(());
    for _ in 0..replay.bytes.len() {
        let (Ok(()), 1) = (played, replay.file.u8()) else {
            break;
        };
        rt.write_all(replay.name())?;
        played = replay.play();
        println!(rt; ": {}", replay.count)?;
        if let Err(difference) = played {
            println!(rt; "{difference}")?;
        }
        scripts = scripts.wrapping_add(1);
        all.calls = all.calls.wrapping_add(replay.count.calls);
        all.events = all.events.wrapping_add(replay.count.events);
    }
    let how = match played {
        Ok(()) => "all as tao answered",
        Err(_) => "the last call not as tao answered",
    };
    println!(rt; "{scripts} scripts, {all}: {how}")
}

fn main(rt: HostRuntime) -> io::Result<()> {
    let Some(bytes) = read_file(&rt, "calls", 524288)? else {
        return Ok(());
    };
    let tables_at = behind_list(&bytes, BLOCKS_AT);
    let scripts_at = behind_list(&bytes, tables_at);
    let mut replay = Replay {
        bytes: &bytes,
        file: Reader {
            rest: bytes.get(scripts_at..).unwrap_or_default(),
        },
        tables_at,
        host: Host::new(&[], &[]),
        expected: [0; AREA_SIZE],
        result: ProcResult::DefWindowProc,
        count: Count {
            calls: 0,
            events: 0,
        },
    };
    play_all(&rt, &mut replay)
}
