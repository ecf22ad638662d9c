// The lines that a replay prints, written into a lent buffer.
ghost use Rattle.std.specs.Prelude.{◌≡◌, [], ◌∷◌, ◌+◌, ◌≤◌, ◌<◌, length};
ghost use Rattle.trace.specs.Wrote.{Wrote};
ghost use Rattle.session.specs.Limits.{TEXT_MOST};
ghost use Rattle.trace.specs.Lines.{FIELD_MOST, HEAD_MOST, MARKS_MOST, TEXT_PART_MOST, EVENT_LINE_MOST, REFUSAL_LINE_MOST, field, pairs, event_head, event_marks, event_text, event_line, refusal_line};

use crate::numeral::{glyph_of, put_digits, width_of};

// A lent buffer, and the place behind what is written.
#[derive(Drop)]
pub struct Out<'a> {
    pub bytes: &'a mut [u8],
    pub at: usize,
}

impl<'a> Out<'a> {
    fn put_byte(&mut self, b: u8)
        requires { self.old.at < length self.old.bytes.now }
        ensures same_reference { self.new.bytes.ghost_name ≡ self.old.bytes.ghost_name } // by it a lender learns what was written
        ensures wrote { Wrote self.old.at (b ∷ []) self.old.bytes.now self.new.bytes.now self.new.at }
    {
        self.bytes[self.at] = b;
        self.at += 1;
    }

    // A separator and a number.
    fn put_field(&mut self, base: u64, v: u64)
        requires { (10 ≤ base) × (base ≤ 16) × (self.old.at + FIELD_MOST ≤ length self.old.bytes.now) }
        ensures same_reference { self.new.bytes.ghost_name ≡ self.old.bytes.ghost_name }
        ensures wrote { Wrote self.old.at (field base v) self.old.bytes.now self.new.bytes.now self.new.at }
        ensures upper_bound { self.new.at ≤ self.old.at + FIELD_MOST }
    {
        self.put_byte(b',');
        let k = width_of(base, v);
        put_digits(self.bytes, self.at, base, v, k);
        self.at += k;
    }

    // Two digits a byte.
    fn put_pairs(&mut self, text: &[u8])
        requires { self.old.at + length text.now + length text.now ≤ length self.old.bytes.now }
        ensures same_reference { self.new.bytes.ghost_name ≡ self.old.bytes.ghost_name }
        ensures wrote { Wrote self.old.at (pairs text.now) self.old.bytes.now self.new.bytes.now self.new.at }
        ensures value { self.new.at ≡ self.old.at + length text.now + length text.now }
    {
        for b in text {
            self.put_byte(glyph_of(u64::from(*b / 16)));
            self.put_byte(glyph_of(u64::from(*b % 16)));
        }
    }

    // `E`, key and location.
    fn put_head(&mut self, key: u64, location: u32)
        requires { self.old.at + HEAD_MOST ≤ length self.old.bytes.now }
        ensures same_reference { self.new.bytes.ghost_name ≡ self.old.bytes.ghost_name }
        ensures wrote { Wrote self.old.at (event_head key location) self.old.bytes.now self.new.bytes.now self.new.at }
        ensures upper_bound { self.new.at ≤ self.old.at + HEAD_MOST }
    {
        self.put_byte(b'E');
        self.put_field(16, key);
        self.put_field(16, u64::from(location));
    }

    // State and marks.
    fn put_marks(&mut self, state: u32, repeat: u32, synthetic: u32)
        requires { self.old.at + MARKS_MOST ≤ length self.old.bytes.now }
        ensures same_reference { self.new.bytes.ghost_name ≡ self.old.bytes.ghost_name }
        ensures wrote { Wrote self.old.at (event_marks state repeat synthetic) self.old.bytes.now self.new.bytes.now self.new.at }
        ensures upper_bound { self.new.at ≤ self.old.at + MARKS_MOST }
    {
        self.put_field(16, u64::from(state));
        self.put_field(16, u64::from(repeat));
        self.put_field(16, u64::from(synthetic));
    }

    // The text and the line's end.
    fn put_text(&mut self, text: &[u8])
        requires { (self.old.at + TEXT_PART_MOST ≤ length self.old.bytes.now) × (length text.now ≤ TEXT_MOST) }
        ensures same_reference { self.new.bytes.ghost_name ≡ self.old.bytes.ghost_name }
        ensures wrote { Wrote self.old.at (event_text text.now) self.old.bytes.now self.new.bytes.now self.new.at }
        ensures upper_bound { self.new.at ≤ self.old.at + TEXT_PART_MOST }
    {
        self.put_byte(b',');
        self.put_pairs(text);
        self.put_byte(b'\n');
    }

    // An event's line.
    pub fn put_event(
        &mut self,
        key: u64,
        location: u32,
        state: u32,
        repeat: u32,
        synthetic: u32,
        text: &[u8],
    )
        requires { (self.old.at + EVENT_LINE_MOST ≤ length self.old.bytes.now) × (length text.now ≤ TEXT_MOST) }
        ensures same_reference { self.new.bytes.ghost_name ≡ self.old.bytes.ghost_name }
        ensures wrote { Wrote self.old.at (event_line key location state repeat synthetic text.now) self.old.bytes.now self.new.bytes.now self.new.at }
        ensures upper_bound { self.new.at ≤ self.old.at + EVENT_LINE_MOST }
    {
        self.put_head(key, location);
        self.put_marks(state, repeat, synthetic);
        self.put_text(text);
    }

    // A refusal's line.
    pub fn put_refusal(&mut self, line: u64, number: u32)
        requires { self.old.at + REFUSAL_LINE_MOST ≤ length self.old.bytes.now }
        ensures same_reference { self.new.bytes.ghost_name ≡ self.old.bytes.ghost_name }
        ensures wrote { Wrote self.old.at (refusal_line line number) self.old.bytes.now self.new.bytes.now self.new.at }
        ensures upper_bound { self.new.at ≤ self.old.at + REFUSAL_LINE_MOST }
    {
        self.put_byte(b'X');
        self.put_field(10, line);
        self.put_field(10, u64::from(number));
        self.put_byte(b'\n');
    }
}
