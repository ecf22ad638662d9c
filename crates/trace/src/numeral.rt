// Numbers as text, in a lent buffer.
ghost use Rattle.std.specs.Prelude.{◌≡◌, ◌+◌, ◌≤◌, ◌<◌, length};
ghost use Rattle.area.specs.Splice.{splice};
ghost use Rattle.trace.specs.Numeral.{glyph, numeral};

// The code of a digit; std's from_digit gives a char.
#[tactic(auto, unfolding(crate::specs::Numeral::glyph))]
pub(crate) fn glyph_of(d: u64) -> u8
    requires { d < 16 }
    ensures { result ≡ glyph d }
{
    let d = d as u8;
    if d < 10 { b'0' + d } else { b'a' - 10 + d }
}

// How many digits a number has. Nothing is counted up to an end: the number itself falls.
pub(crate) fn width_of(base: u64, v: u64) -> usize
    requires { (1 < base) × (base ≤ 16) }
    ensures { result ≡ length (numeral base v) }
{
    let mut rest = v;
    let mut k = 1;
    while base <= rest {
        rest /= base;
        k += 1;
    }
    k
}

// Writes a number of k digits. No `for` over the k places: what is left behind the first digit is 0, which is a digit more than is left to write.
pub(crate) fn put_digits(out: &mut [u8], at: usize, base: u64, v: u64, k: usize)
    requires { (1 < base) × (base ≤ 16) × (k ≡ length (numeral base v)) × (at + k ≤ length out.old) }
    ensures { out.new ≡ splice at (numeral base v) out.old }
{
    let mut rest = v;
    let mut i = k;
    while base <= rest {
        i -= 1;
        out[at + i] = glyph_of(rest % base);
        rest /= base;
    }
    out[at] = glyph_of(rest);
}
