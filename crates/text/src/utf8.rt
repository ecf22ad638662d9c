// UTF-8, step by step, and whether bytes are well-formed.
ghost use Rattle.std.specs.Prelude.{◌≡◌, ◌≤◌, ◌<◌, length, drop, get_or};
ghost use Rattle.text.specs.Unicode.{lead_of, later, by_lead, utf8_step, well_formed};

use crate::Lead;

// ---- the first byte: its row of table 3-7 of the Unicode Standard

// The row of table 3-7 for a first byte.
fn lead_of(b: u32) -> Lead
    ensures { result ≡ lead_of b }
{
    // Guards, not ranges: of ranges the compiler makes a table of jumps, which takes longer than these tests.
    match b {
        _ if b < 0x80 => Lead::One,
        _ if b < 0xC2 => Lead::Ill,
        _ if b < 0xE0 => Lead::Two(0x80, 0xBF),
        _ if b < 0xE1 => Lead::Three(0xA0, 0xBF),
        _ if b < 0xED => Lead::Three(0x80, 0xBF),
        _ if b < 0xEE => Lead::Three(0x80, 0x9F),
        _ if b < 0xF0 => Lead::Three(0x80, 0xBF),
        _ if b < 0xF1 => Lead::Four(0x90, 0xBF),
        _ if b < 0xF4 => Lead::Four(0x80, 0xBF),
        _ if b < 0xF5 => Lead::Four(0x80, 0x8F),
        _ => Lead::Ill,
    }
}

// ---- a step, and whether bytes are well-formed

// The byte k places behind i, or 0 past the end, where the definition utf8_step reads 0 too.
fn byte_at(t: &[u8], i: usize, k: usize) -> u32
    requires { i ≤ length t.now }
    ensures { (result ≡ get_or (drop i t.now) k 0) × (result < 256) }
{
    t[i..].get(k).map_or(0, |b| u32::from(*b))
}

// Whether the bytes behind a first one are in their ranges.
fn are_later(low: u32, high: u32, c: u32, d: u32, e: u32) -> bool
    ensures { result ≡ later low high c d e }
{
    let later = 0x80..=0xBF;
    (low..=high).contains(&c) && later.contains(&d) && later.contains(&e)
}

// What the bytes b, c, d, e begin. In place of a byte that is not asked for stands 80, which is in range. Not `then_some`: of a choice of values the
// next step would wait for the tests.
#[tactic(auto, unfolding(crate::specs::Unicode::by_lead))]
fn byte_step(lead: Lead, b: u32, c: u32, d: u32, e: u32) -> Option<(u32, usize)>
    ensures { result ≡ by_lead lead b c d e }
{
    match lead {
        Lead::Ill => None,
        Lead::One => Some((b, 1)),
        Lead::Two(low, high) => {
            if !are_later(low, high, c, 0x80, 0x80) {
                return None;
            }
            Some((b % 32 * 64 + c % 64, 2))
        }
        Lead::Three(low, high) => {
            if !are_later(low, high, c, d, 0x80) {
                return None;
            }
            Some((b % 16 * 4096 + c % 64 * 64 + d % 64, 3))
        }
        Lead::Four(low, high) => {
            if !are_later(low, high, c, d, e) {
                return None;
            }
            Some((b % 8 * 262144 + c % 64 * 4096 + d % 64 * 64 + e % 64, 4))
        }
    }
}

// The step of UTF-8 from i on.
pub fn utf8_step(t: &[u8], i: usize) -> Option<(u32, usize)>
    ensures { result ≡ utf8_step (drop i t.now) }
{
    let b = u32::from(*t.get(i)?);
    byte_step(
        lead_of(b),
        b,
        byte_at(t, i, 1),
        byte_at(t, i, 2),
        byte_at(t, i, 3),
    )
}

// Whether bytes are UTF-8. Most texts are ASCII, which one OR shows.
pub fn well_formed(t: &[u8]) -> bool
    ensures { result ≡ well_formed t.now }
{
    if area::scan::or_all(t) < 0x80 {
        return true;
    }
    let mut i = 0;
    // No `for`: a step is of one byte to four. The end is tested here, which is a step less for each text than to ask for one behind it.
    while i < t.len() {
        let Some((_, n)) = utf8_step(t, i) else {
            return false;
        };
        i += n;
    }
    true
}
