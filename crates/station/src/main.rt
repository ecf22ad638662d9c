// Turns key messages into key events: the work of the station. It reads a shift from standard input, at most 65,536 bytes of lines, and
// prints each call with its answer, each event that it hands out, and at the end of a card the digits that the events brought.
//
//   # ..               printed as it is
//   layout N           the layout of the calls that follow: 0 us.block, 1 the same with its AltGr flag set, 2 accent.block
//   keys VK ..         the keys that are down; all others are up
//   message K W L      a message: kind, wParam, lParam
//   finish T           the message of the token T is finished with nothing peeked
//   finish T K W L     the same with a message peeked
//   card               shows the digits since the last card
//
// Numbers are hexadecimal. The break table of all calls is unicode.breaks, Unicode 15.0's.
#![tactic(auto)]

use arrayvec::ArrayVec;
use export::numbers::refusal_number;
use lines::Numbers;
use session::{KEY_TEXT_MOST, Message, PendingMessageToken, ProcResult, Refusal, TEXT_MOST};
use show::{Host, Reader, read_file, read_input};
use std::io;
use std::rt::Runtime;

// ---- an event (docs/AREAS.md)

#[derive(Drop)]
struct Key<'a> {
    number: u16,
    second: u8,
    third: u32,
    text: &'a [u8],
}

#[derive(Drop)]
struct Event<'a> {
    code_value: u32,
    code_kind: u8,
    code: u8,
    logical_key: Key<'a>,
    text: &'a [u8],
    location: u8,
    released: bool,
    repeat: bool,
    synthetic: bool,
    text_with_all_modifiers: &'a [u8],
    key_without_modifiers: Key<'a>,
}

// A text: its length, and its bytes in the room that it has.
fn read_text<'a>(bytes: &mut Reader<'a>, room: usize) -> &'a [u8] {
    let length = usize::from(bytes.u8());
    Reader {
        rest: bytes.slice(room),
    }
    .slice(length)
}

fn read_key<'a>(bytes: &mut Reader<'a>, room: usize) -> Key<'a> {
    Key {
        number: bytes.u16(),
        second: bytes.u8(),
        third: bytes.u32(),
        text: read_text(bytes, room),
    }
}

fn read_event<'a>(mut bytes: Reader<'a>) -> Event<'a> {
    Event {
        code_value: bytes.u32(),
        code_kind: bytes.u8(),
        code: bytes.u8(),
        logical_key: read_key(&mut bytes, TEXT_MOST),
        text: read_text(&mut bytes, TEXT_MOST),
        location: bytes.u8(),
        released: bytes.u8() != 0,
        repeat: bytes.u8() != 0,
        synthetic: bytes.u8() != 0,
        text_with_all_modifiers: read_text(&mut bytes, TEXT_MOST),
        key_without_modifiers: read_key(&mut bytes, KEY_TEXT_MOST),
    }
}

// ---- a line of the shift

enum Step<'a> {
    Comment(&'a [u8]),
    Layout(u64),
    Keys(&'a [u8]),
    Message(Message),
    Finish(PendingMessageToken, Option<Message>),
    Card,
}

fn step_of(line: &[u8]) -> Option<Step<'_>> {
    match *line.first()? {
        b'#' => Some(Step::Comment(line)),
        b'l' => Some(Step::Layout(Numbers::new(line, 6).next().unwrap_or(0))),
        b'k' => Some(Step::Keys(line)),
        b'm' => Some(Step::Message(Numbers::new(line, 7).message())),
        b'f' => Some(finish_of(line)),
        b'c' => Some(Step::Card),
        _ => None,
    }
}

fn finish_of(line: &[u8]) -> Step<'_> {
    let mut numbers = Numbers::new(line, 6);
    let token = (numbers.next().unwrap_or(0) % 0x1_0000_0000) as u32;
    let peeked = match Numbers::new(numbers.rest, 0).next() {
        None => None,
        Some(_) => Some(numbers.message()),
    };
    Step::Finish(PendingMessageToken(token), peeked)
}

// ---- what is printed

// How many cases KeyCode has: `names` has the name of each in a line, then that of each case of Key.
const CODES: usize = 195;

fn show_name(rt: &impl Print, names: &[u8], place: usize) -> io::Result<()> {
    rt.write_all(names.split(|b| *b == b'\n').nth(place).unwrap_or_default())
}

fn show_code(rt: &impl Print, names: &[u8], event: &Event<'_>) -> io::Result<()> {
    show_name(rt, names, usize::from(event.code))?;
    if event.code == 0 {
        print!(rt; " {}:{:x}", event.code_kind, event.code_value)?;
    }
    Ok(())
}

fn show_text(rt: &impl Print, text: &[u8]) -> io::Result<()> {
    if text.is_empty() {
        return print!(rt; "none");
    }
    print!(rt; "\"")?;
    rt.write_all(text)?;
    print!(rt; "\"")
}

fn show_key(rt: &impl Print, names: &[u8], key: &Key<'_>) -> io::Result<()> {
    if key.number == 0 {
        return show_text(rt, key.text);
    }
    show_name(rt, names, CODES + usize::from(key.number))?;
    match (key.number, key.second) {
        (1, kind) => print!(rt; " {kind}:{:x}", key.third),
        (2, 1) => print!(rt; " {:04x}", key.third),
        _ => Ok(()),
    }
}

fn location_name(location: u8) -> &'static str {
    match location {
        0 => "standard",
        1 => "left",
        2 => "right",
        _ => "numpad",
    }
}

fn show_event(rt: &impl Print, names: &[u8], event: &Event<'_>) -> io::Result<()> {
    print!(rt; "    ")?;
    show_code(rt, names, event)?;
    print!(rt;
        " {} {}{}{}: key ",
        location_name(event.location),
        if event.released {
            "released"
        } else {
            "pressed"
        },
        if event.repeat { " repeat" } else { "" },
        if event.synthetic { " synthetic" } else { "" }
    )?;
    show_key(rt, names, &event.logical_key)?;
    print!(rt; ", text ")?;
    show_text(rt, event.text)?;
    print!(rt; ", with all modifiers ")?;
    show_text(rt, event.text_with_all_modifiers)?;
    print!(rt; ", without modifiers ")?;
    show_key(rt, names, &event.key_without_modifiers)?;
    println!(rt)
}

fn show_message(rt: &impl Print, message: Message) -> io::Result<()> {
    print!(rt;
        "{:x} {:02x} {:08x}",
        message.kind, message.wparam, message.lparam
    )
}

// ---- the station

// How many bytes a card has room for; one that has none is left out. Behind the files nothing is allocated.
const CARD_MOST: usize = 255;

#[derive(Drop)]
struct Station<'a, R: Runtime> {
    rt: &'a R,
    names: &'a [u8],
    us: &'a [u8],
    us_with_alt_graph: &'a [u8],
    accent: &'a [u8],
    host: Host<'a>,
    card: ArrayVec<u8, CARD_MOST>,
}

impl<'a, R: Runtime> Station<'a, R> {
    fn make_step(&mut self, step: Step<'_>) -> io::Result<()> {
        if self.show_step(step)? {
            self.hand_out()?;
        }
        Ok(())
    }

    // Whether it was a call that was answered. Not inlined: the room that its line is printed by is not held while its events are shown.
    #[inline(never)]
    fn show_step(&mut self, step: Step<'_>) -> io::Result<bool> {
        match step {
            Step::Comment(line) => {
                self.rt.write_all(line)?;
                println!(self.rt)?;
            }
            Step::Layout(layout) => {
                self.host.block = match layout {
                    0 => self.us,
                    1 => self.us_with_alt_graph,
                    _ => self.accent,
                };
            }
            Step::Keys(line) => lines::set_keys(line, &mut self.host.state),
            Step::Message(message) => return self.open(message),
            Step::Finish(token, peeked) => return self.finish(token, peeked),
            Step::Card => self.show_card()?,
        }
        Ok(false)
    }

    fn open(&mut self, message: Message) -> io::Result<bool> {
        print!(self.rt; "message ")?;
        show_message(self.rt, message)?;
        let opened = self.host.open(message, ProcResult::DefWindowProc);
        match opened.answer {
            Err(no) => return self.show_refused(no),
            Ok(None) => print!(self.rt; ": opens none")?,
            Ok(Some(token)) => print!(self.rt; ": token {:x}", token.0)?,
        }
        match opened.result {
            ProcResult::DefWindowProc => println!(self.rt; ", default procedure")?,
            ProcResult::Value(0) => println!(self.rt; ", result 0")?,
            ProcResult::Value(_) => println!(self.rt; ", another result")?,
        }
        Ok(true)
    }

    fn finish(&mut self, token: PendingMessageToken, peeked: Option<Message>) -> io::Result<bool> {
        print!(self.rt; "finish {:x}, peeked ", token.0)?;
        match peeked {
            None => print!(self.rt; "nothing")?,
            Some(message) => show_message(self.rt, message)?,
        }
        match self.host.finish(token, peeked) {
            Err(no) => self.show_refused(no),
            Ok(()) => {
                println!(self.rt)?;
                Ok(true)
            }
        }
    }

    fn show_refused(&self, no: Refusal) -> io::Result<bool> {
        println!(self.rt; ": refused {}", refusal_number(no))?;
        Ok(false)
    }

    // What a call handed out: shown, and taken to the card.
    fn hand_out(&mut self) -> io::Result<()> {
        for bytes in self.host.events() {
            let event = read_event(Reader { rest: bytes });
            show_event(self.rt, self.names, &event)?;
            // A press that the focus brought was typed before.
            if !event.released && !event.synthetic {
                for b in event.text {
                    let _ = self.card.try_push(*b);
                }
            }
        }
        Ok(())
    }

    // Shows the card, and starts the next one.
    fn show_card(&mut self) -> io::Result<()> {
        print!(self.rt; "card ")?;
        show_text(self.rt, self.card.as_slice())?;
        println!(self.rt)?;
        self.card.clear();
        Ok(())
    }
}

// ---- the files

const FILE_MOST: u64 = 65536;

fn main(rt: HostRuntime) -> io::Result<()> {
    let Some(names) = read_file(&rt, "names", FILE_MOST)? else {
        return Ok(());
    };
    let Some(us) = read_file(&rt, "us.block", FILE_MOST)? else {
        return Ok(());
    };
    let Some(accent) = read_file(&rt, "accent.block", FILE_MOST)? else {
        return Ok(());
    };
    let Some(table) = read_file(&rt, "unicode.breaks", FILE_MOST)? else {
        return Ok(());
    };
    let input = read_input(&rt, FILE_MOST)?;
    let mut room = [0; FILE_MOST as usize];
    let Some(us_with_alt_graph) = room.get_mut(..us.len()) else {
        return Ok(()); // a file of more bytes, which read_file does not read
    };
    us_with_alt_graph.copy_from_slice(&us);
    if let Some(flag) = us_with_alt_graph.first_mut() {
        *flag = 1;
    }
    let mut station = Station {
        rt: &rt,
        names: &names,
        us: &us,
        us_with_alt_graph,
        accent: &accent,
        host: Host::new(&us, &table),
        card: ArrayVec::new(),
    };
    for line in input.split(|b| *b == b'\n') {
        if let Some(step) = step_of(line) {
            station.make_step(step)?;
        }
    }
    Ok(())
}
