// The lines of a station trace, read at a place: a message, the finish of the latest open one, a key-state byte, copies of the message above.
ghost use Rattle.std.specs.Prelude.{◌≡◌, ◌≤◌, ◌<◌, length, drop, IfSome};
ghost use Rattle.trace.specs.Form.{digit_of, digits_from, number_at, field_at, message_at, finish_at, key_at, again_at, line_at};

#[derive(Clone, Copy)]
pub enum Line {
    Message { kind: u32, wparam: u64, lparam: u64 },
    Finish { present: u8, kind: u32, lparam: u64 },
    Key { vk: u8, byte: u8 },
    Again(u8),
}

// The value of a digit. Upper-case letters are none, which std's to_digit takes.
#[tactic(auto, unfolding(crate::specs::Form::digit_of))]
fn digit_of(b: u8) -> Option<u64>
    ensures value { result ≡ digit_of b }
    ensures within { IfSome result (λ d. d < 16) }
{
    match b {
        b'0'..=b'9' => Some(u64::from(b - b'0')),
        b'a'..=b'f' => Some(u64::from(b - b'a' + 10)),
        _ => None,
    }
}

// The digits from a place on, with the place behind them.
#[tactic(auto, unfolding(crate::specs::Form::digits_from))]
fn digits_from(x: &[u8], top: u64, from: usize) -> Option<(u64, usize)>
    requires { from ≤ length x.now }
    ensures { result ≡ digits_from top 0 from (drop from x.now) }
{
    let mut v: u64 = 0;
    for at in from..x.len() {
        let Some(d) = digit_of(x[at]) else {
            return Some((v, at));
        };
        v = v.checked_mul(16)?.checked_add(d)?;
        if top < v {
            return None;
        }
    }
    Some((v, x.len()))
}

// The number at a place, with the place behind it.
#[tactic(auto, unfolding(crate::specs::Form::number_at, crate::specs::Form::digit_of))]
fn number_at(x: &[u8], top: u64, at: usize) -> Option<(u64, usize)>
    ensures { result ≡ number_at x.now top at }
{
    let d = digit_of(*x.get(at)?)?;
    if d == 0 {
        return Some((0, at + 1));
    }
    digits_from(x, top, at)
}

// A number and the byte that ends it, with the place behind that.
#[tactic(auto, unfolding(crate::specs::Form::field_at))]
fn field_at(x: &[u8], top: u64, sep: u8, at: usize) -> Option<(u64, usize)>
    requires { 0 < sep }
    ensures { result ≡ field_at x.now top sep at }
{
    let (v, n) = number_at(x, top, at)?;
    if *x.get(n)? == sep {
        return Some((v, n + 1));
    }
    None
}

#[tactic(auto, using(crate::proofs::form::Within::within), unfolding(crate::specs::Form::message_at))]
fn message_at(x: &[u8], at: usize) -> Option<(Line, usize)>
    ensures { result ≡ message_at x.now at }
{
    let (kind, n) = field_at(x, 0xffff_ffff, b',', at)?;
    let (wparam, m) = field_at(x, 0xffff_ffff_ffff_ffff, b',', n)?;
    let (lparam, next) = field_at(x, 0xffff_ffff_ffff_ffff, b'\n', m)?;
    let kind = kind as u32;
    Some((
        Line::Message {
            kind,
            wparam,
            lparam,
        },
        next,
    ))
}

#[tactic(auto, using(crate::proofs::form::Within::within), unfolding(crate::specs::Form::finish_at))]
fn finish_at(x: &[u8], at: usize) -> Option<(Line, usize)>
    ensures { result ≡ finish_at x.now at }
{
    let (present, n) = field_at(x, 1, b',', at)?;
    let (kind, m) = field_at(x, 0xffff_ffff, b',', n)?;
    let (lparam, next) = field_at(x, 0xffff_ffff_ffff_ffff, b'\n', m)?;
    let present = present as u8;
    let kind = kind as u32;
    Some((
        Line::Finish {
            present,
            kind,
            lparam,
        },
        next,
    ))
}

#[tactic(auto, using(crate::proofs::form::Within::within), unfolding(crate::specs::Form::key_at))]
fn key_at(x: &[u8], at: usize) -> Option<(Line, usize)>
    ensures { result ≡ key_at x.now at }
{
    let (vk, n) = field_at(x, 0xff, b',', at)?;
    let (byte, next) = field_at(x, 0xff, b'\n', n)?;
    let vk = vk as u8;
    let byte = byte as u8;
    Some((Line::Key { vk, byte }, next))
}

#[tactic(auto, using(crate::proofs::form::Within::within), unfolding(crate::specs::Form::again_at))]
fn again_at(x: &[u8], at: usize) -> Option<(Line, usize)>
    ensures { result ≡ again_at x.now at }
{
    let (n, next) = field_at(x, 0x64, b'\n', at)?;
    if n == 0 {
        return None;
    }
    Some((Line::Again(n as u8), next))
}

// The line at a place, with the place behind it.
#[tactic(auto, unfolding(crate::specs::Form::line_at))]
pub fn line_at(x: &[u8], at: usize) -> Option<(Line, usize)>
    ensures { result ≡ line_at x.now at }
{
    let kind = *x.get(at)?;
    if *x.get(at + 1)? != b',' {
        return None;
    }
    match kind {
        b'M' => message_at(x, at + 2),
        b'F' => finish_at(x, at + 2),
        b'S' => key_at(x, at + 2),
        b'R' => again_at(x, at + 2),
        _ => None,
    }
}
