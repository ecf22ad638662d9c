// What the programs that make calls share: what a host keeps for its calls, numbers read from the front of bytes, files read whole.
#![tactic(auto)]

use message::Opened;
use session::{
    ANSWER_EVENT_SIZE, ANSWER_EVENTS_AT, AREA_SIZE, KEY_STATE_SIZE, Message, PendingMessageToken,
    ProcResult, Refusal,
};
use std::io::Read;
use std::rt::Runtime;
use std::{fs, io};

// ---- what a host keeps for its calls

#[derive(Drop)]
pub struct Host<'a> {
    pub session: [u8; AREA_SIZE],
    pub answers: [u8; AREA_SIZE],
    pub state: [u8; KEY_STATE_SIZE],
    pub block: &'a [u8],
    pub table: &'a [u8],
}

impl<'a> Host<'a> {
    // A fresh session, and no key down.
    pub fn new(block: &'a [u8], table: &'a [u8]) -> Host<'a> {
        let mut host = Host {
            session: [0; AREA_SIZE],
            answers: [0; AREA_SIZE],
            state: [0; KEY_STATE_SIZE],
            block,
            table,
        };
        host.renew();
        host
    }

    // Begins the session again.
    pub fn renew(&mut self) {
        record::write::fresh(&mut self.session);
    }

    pub fn open(&mut self, message: Message, res: ProcResult) -> Opened {
        message::open(
            &mut self.session,
            &mut self.answers,
            &self.state,
            self.block,
            self.table,
            message,
            res,
        )
    }

    // An open by process_message, which is lent the message result.
    pub fn lend_result(&mut self, message: Message, res: ProcResult) -> Opened {
        message::process_message::lend_result(
            &mut self.session,
            &mut self.answers,
            &self.state,
            self.block,
            self.table,
            message,
            res,
        )
    }

    pub fn finish(
        &mut self,
        token: PendingMessageToken,
        peeked: Option<Message>,
    ) -> Result<(), Refusal> {
        message::finish(
            &mut self.session,
            &mut self.answers,
            &self.state,
            self.block,
            self.table,
            token,
            peeked,
        )
    }

    // How many events the last call handed out.
    pub fn event_count(&self) -> u16 {
        u16_at(&self.answers, 0)
    }

    // The events that the last call handed out.
    pub fn events(&self) -> &[[u8; ANSWER_EVENT_SIZE]] {
        let (events, _) = self.answers[ANSWER_EVENTS_AT..].as_chunks::<ANSWER_EVENT_SIZE>();
        let count = usize::from(self.event_count()).min(events.len());
        &events[..count]
    }
}

// ---- numbers of areas and files, with the low byte first

// The number at a place; 0 where the bytes end before, as in a file that was cut off.
pub fn u16_at(bytes: &[u8], at: usize) -> u16 {
    Reader {
        rest: bytes.get(at..).unwrap_or_default(),
    }
    .u16()
}

// Reads bytes from the front. What they end before is 0 or empty, and nothing is taken for it.
#[derive(Clone, Copy)]
pub struct Reader<'a> {
    pub rest: &'a [u8],
}

impl<'a> Reader<'a> {
    pub fn slice(&mut self, count: usize) -> &'a [u8] {
        let Some((front, rest)) = self.rest.split_at_checked(count) else {
            return &[];
        };
        self.rest = rest;
        front
    }

    fn array<const N: usize>(&mut self) -> [u8; N] {
        let Some((front, rest)) = self.rest.split_first_chunk() else {
            return [0; N];
        };
        self.rest = rest;
        *front
    }

    pub fn u8(&mut self) -> u8 {
        u8::from_le_bytes(self.array())
    }

    pub fn u16(&mut self) -> u16 {
        u16::from_le_bytes(self.array())
    }

    pub fn u32(&mut self) -> u32 {
        u32::from_le_bytes(self.array())
    }

    pub fn u64(&mut self) -> u64 {
        u64::from_le_bytes(self.array())
    }
}

// ---- files

// What a file has, so many bytes of it at most. Where it does not open, that is printed, and nothing is answered.
pub fn read_file<R: Runtime>(rt: &R, name: &str, most: u64) -> io::Result<Option<Vec<u8, R::A>>> {
    match fs::open(rt, name) {
        Ok(file) => {
            let mut bytes = Vec::new(rt.alloc());
            file.take(most).read_to_end(&mut bytes)?;
            Ok(Some(bytes))
        }
        Err(e) => {
            eprintln!(rt; "{name}: {e}")?;
            Ok(None)
        }
    }
}

// Standard input, so many bytes of it at most.
pub fn read_input<R: Runtime>(rt: &R, most: u64) -> io::Result<Vec<u8, R::A>> {
    let mut bytes = Vec::new(rt.alloc());
    rt.reader().take(most).read_to_end(&mut bytes)?;
    Ok(bytes)
}
