// Lines of text, by which the programs are told what to do: their numbers, messages, keys.
#![tactic(auto)]

ghost use Rattle.std.specs.Prelude.{length};
ghost use Rattle.std.specs.Iterator.{at_most};

use session::Message;

// The numbers of a line: hexadecimal, parted by blanks. They end where no digit stands.
#[derive(Drop)]
pub struct Numbers<'a> {
    pub rest: &'a [u8],
}

impl<'a> Iterator for Numbers<'a> {
    type Item = u64;

    ghost remaining = { λ s. at_most (length s.rest.now) };

    // Of more than sixteen digits, the last sixteen.
    fn next(&mut self) -> Option<u64> {
        let start = self
            .rest
            .iter()
            .position(|b| *b != b' ')
            .unwrap_or(self.rest.len());
        let mut rest = &self.rest[start..];
        let mut value = None;
        while let Some((b, behind)) = rest.split_first() {
            let Some(digit) = char::from(*b).to_digit(16) else {
                break;
            };
            value = Some(value.unwrap_or(0) << 4 | u64::from(digit));
            rest = behind;
        }
        self.rest = rest;
        value
    }
}

// ---- what a call is given

impl<'a> Numbers<'a> {
    // The numbers from a place of a line on.
    pub fn new(line: &'a [u8], from: usize) -> Numbers<'a> {
        Numbers {
            rest: line.get(from..).unwrap_or_default(),
        }
    }

    // Kind, wParam and lParam; one that a line does not have is 0.
    pub fn message(&mut self) -> Message {
        let kind = (self.next().unwrap_or(0) % 0x1_0000_0000) as u32;
        let wparam = self.next().unwrap_or(0);
        let lparam = self.next().unwrap_or(0);
        Message {
            kind,
            wparam,
            lparam,
        }
    }
}

// The keys of a line are down, all others up.
pub fn set_keys(line: &[u8], state: &mut [u8; 256]) {
    state.fill(0);
    for vk in Numbers::new(line, 4) {
        state[(vk % 256) as usize] = 0x80;
    }
}

// The rounds that decimal digits spell; ten digits and more spell 0, which parse would refuse or read.
pub fn rounds_in(digits: &[u8]) -> u64 {
    if 9 < digits.len() {
        return 0;
    }
    digits
        .iter()
        .fold(0, |n, b| n % 1_000_000_000 * 10 + u64::from(*b % 16))
}
