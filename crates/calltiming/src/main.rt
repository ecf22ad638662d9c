// Calls of open and finish to be timed, by tools/bench. The first argument says what, the second how many rounds.
//
//   e, u   a digit's six calls at an empty queue (press, character and release, an open and a finish each); e with the smallest block and
//          break table, of 2,634 and 8 zeros, u with us.block and unicode.breaks
//   q, v   the same two on a queue of 254 entries: the digit's own two make it 256
//   f, g   the floor of one call, with the same: the session, the block and the table read, the answers cleared
//
// It prints how many calls passed and events were handed out, added up, and how many entries the queue is left with; of f and g how
// many rounds read what they had written.
#![tactic(auto)]

use lookup::block::HEAD;
use session::{
    AREA_SIZE, COUNT_AT, ENTRIES_AT, ENTRY_SIZE, Message, PendingMessageToken, ProcResult, Refusal,
    WM_CHAR, WM_KEYDOWN, WM_KEYUP,
};
use show::{Host, read_file, u16_at};
use std::io;
use std::rt::Env;

// The digit 1: the key 31, whose scan code is 02.

const PRESS: Message = Message {
    kind: WM_KEYDOWN,
    wparam: 0x31,
    lparam: 0x20001,
};

const CHARACTER: Message = Message {
    kind: WM_CHAR,
    wparam: 0x31,
    lparam: 0x20001,
};

const RELEASE: Message = Message {
    kind: WM_KEYUP,
    wparam: 0x31,
    lparam: 0xc0020001,
};

// ---- what is asked for

#[derive(Clone, Copy)]
enum Work {
    Digits,
    DigitsBehind,
    Floors,
}

// What a letter asks for, and whether it is timed with us.block and unicode.breaks.
fn work_of(letter: u8) -> (Work, bool) {
    match letter {
        b'u' => (Work::Digits, true),
        b'q' => (Work::DigitsBehind, false),
        b'v' => (Work::DigitsBehind, true),
        b'f' => (Work::Floors, false),
        b'g' => (Work::Floors, true),
        _ => (Work::Digits, false),
    }
}

// What the rounds count, added up.
fn count_rounds<F: FnMut(u64) -> u64>(rounds: u64, mut count_round: F) -> u64
    requires { F.IsAlwaysCallable count_round }
{
    let mut count: u64 = 0;
    for i in 0..rounds {
        count = count.wrapping_add(count_round(i));
    }
    count
}

// ---- calls

// tools/stack takes the frames of this function and of `whole` by their names.
fn open(host: &mut Host<'_>, message: Message) -> Result<Option<PendingMessageToken>, Refusal> {
    host.open(message, ProcResult::DefWindowProc).answer
}

// A message opened, and finished with what was peeked: 2 where both calls passed, and how many events the finish handed out.
fn whole(host: &mut Host<'_>, message: Message, peeked: Option<Message>) -> u64 {
    let passed = match open(host, message) {
        Ok(Some(token)) => host.finish(token, peeked).is_ok(),
        _ => false,
    };
    let events = u64::from(host.event_count());
    if passed { events + 2 } else { events }
}

// The six calls of a digit: 6, and 2 events where the queue was empty.
fn digit(host: &mut Host<'_>) -> u64 {
    let pressed = whole(host, PRESS, Some(CHARACTER));
    let typed = whole(host, CHARACTER, None);
    let released = whole(host, RELEASE, None);
    pressed.wrapping_add(typed).wrapping_add(released)
}

fn digits(host: &mut Host<'_>, rounds: u64) -> u64 {
    count_rounds(rounds, |_| digit(host))
}

// ---- a long queue

// 254 entries: a press that stays open, 126 digits of two events each and a release.
fn fill_queue(host: &mut Host<'_>) {
    let _ = open(host, PRESS);
    digits(host, 126);
    whole(host, RELEASE, None);
}

// The queue of 254 entries as it was: what stands before the entries, and no entry behind the 254.
fn put_back(session: &mut [u8; AREA_SIZE], before: &[u8; ENTRIES_AT]) {
    area::span::copy_part(before, 0, session, 0, ENTRIES_AT);
    area::span::put_zeros(session, ENTRIES_AT + ENTRY_SIZE * 254, ENTRY_SIZE * 2);
}

fn digits_behind(host: &mut Host<'_>, rounds: u64) -> u64 {
    let mut before = [0u8; ENTRIES_AT];
    fill_queue(host);
    area::span::copy_part(&host.session, 0, &mut before, 0, ENTRIES_AT);
    count_rounds(rounds, |_| {
        put_back(&mut host.session, &before);
        digit(host)
    })
}

// ---- the floor

// The plain work of one call. A byte of each area changes from round to round, so that no round can be left out. It counts where it is read.
fn floor_one(
    session: &mut [u8; AREA_SIZE],
    answers: &mut [u8; AREA_SIZE],
    block: &mut [u8],
    table: &mut [u8],
    round: u64,
) -> u64 {
    let at = (round % 65536) as usize;
    let bit = (round % 2) as u8;
    let ([block_byte, ..], [table_byte, ..]) = (&mut *block, &mut *table) else {
        return 0;
    };
    session[at] = bit;
    *block_byte = bit;
    *table_byte = bit;
    answers[at] = 1;
    let read = area::scan::or_all(session) | area::scan::or_all(block) | area::scan::or_all(table);
    area::span::fill_zero(answers, 0);
    u64::from(bit <= read && answers[at] == 0)
}

// ---- the program

fn show_count(rt: &impl Print, count: u64, session: &[u8; AREA_SIZE]) -> io::Result<()> {
    println!(rt; "{count} counted, {} entries", u16_at(session, COUNT_AT))
}

// Not inlined, nor is `run_calls`: one frame would have room for the areas of both.
#[inline(never)]
fn run_floors(rt: &impl Print, block: &mut [u8], table: &mut [u8], rounds: u64) -> io::Result<()> {
    let mut session = [0; AREA_SIZE];
    let mut answers = [0; AREA_SIZE];
    let count = count_rounds(rounds, |i| {
        floor_one(&mut session, &mut answers, block, table, i)
    });
    show_count(rt, count, &session)
}

#[inline(never)]
fn run_calls<F: FnOnce(&mut Host<'_>) -> u64>(
    rt: &impl Print,
    block: &[u8],
    table: &[u8],
    count_calls: F,
) -> io::Result<()>
    requires { F.IsAlwaysCallable count_calls }
{
    let mut host = Host::new(block, table);
    let count = count_calls(&mut host);
    show_count(rt, count, &host.session)
}

fn run(
    rt: &impl Print,
    work: Work,
    block: &mut [u8],
    table: &mut [u8],
    rounds: u64,
) -> io::Result<()> {
    match work {
        Work::Digits => run_calls(rt, block, table, |host| digits(host, rounds)),
        Work::DigitsBehind => run_calls(rt, block, table, |host| digits_behind(host, rounds)),
        Work::Floors => run_floors(rt, block, table, rounds),
    }
}

fn main(rt: HostRuntime) -> io::Result<()> {
    let mut word = [0u8; 4096];
    let _ = rt.arg(1, &mut word);
    let (work, with_us) = work_of(word[0]);
    let mut number = [0u8; 4096];
    let n = rt.arg(2, &mut number).unwrap_or(0);
    let rounds = lines::rounds_in(&number[..n]);
    if !with_us {
        return run(&rt, work, &mut [0; HEAD], &mut [0; 8], rounds);
    }
    let Some(mut block) = read_file(&rt, "us.block", 65536)? else {
        return Ok(());
    };
    let Some(mut table) = read_file(&rt, "unicode.breaks", 65536)? else {
        return Ok(());
    };
    run(&rt, work, &mut block, &mut table, rounds)
}
