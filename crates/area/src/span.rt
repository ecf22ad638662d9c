// Runs of bytes in place: copies, moves and fills.
ghost use Rattle.std.specs.Prelude.{◌≡◌, ◌+◌, ◌≤◌, length, take, drop, replicate};
ghost use Rattle.area.specs.Splice.{splice, padded};
ghost use Rattle.area.specs.Zero.{zero_from};

// `count` bytes of src from `from`, to dst at `to`.
pub fn copy_part(src: &[u8], from: usize, dst: &mut [u8], to: usize, count: usize)
    requires { (from + count ≤ length src.now) × (to + count ≤ length dst.old) }
    ensures { dst.new ≡ splice to (take count (drop from src.now)) dst.old }
{
    dst[to..to + count].copy_from_slice(&src[from..from + count]);
}

// ---- moves within one list: `copy_within`, once for each direction, whose contract has the gap as its callers have it

// `count` bytes of s from `to + gap`, down to `to`; the two parts may overlap.
pub fn move_down(s: &mut [u8], to: usize, gap: usize, count: usize)
    requires { to + gap + count ≤ length s.old }
    ensures { s.new ≡ splice to (take count (drop (to + gap) s.old)) s.old }
{
    s.copy_within(to + gap..to + gap + count, to);
}

// `count` bytes of s from `from`, up to `from + gap`; the two parts may overlap.
pub fn move_up(s: &mut [u8], from: usize, gap: usize, count: usize)
    requires { from + gap + count ≤ length s.old }
    ensures { s.new ≡ splice (from + gap) (take count (drop from s.old)) s.old }
{
    s.copy_within(from..from + count, from + gap);
}

// ---- zeros

// `count` zeros from `at` on.
pub fn put_zeros(s: &mut [u8], at: usize, count: usize)
    requires { at + count ≤ length s.old }
    ensures { s.new ≡ splice at (replicate count 0) s.old }
{
    s[at..at + count].fill(0);
}

// t at `at`, with zeros behind it up to the width.
pub fn put_padded(s: &mut [u8], at: usize, width: usize, t: &[u8])
    requires { (at + width ≤ length s.old) × (length t.now ≤ width) }
    ensures { s.new ≡ splice at (padded width t.now) s.old }
{
    let n = t.len();
    copy_part(t, 0, s, at, n);
    put_zeros(s, at + n, width - n);
}

// Zeros from n to the end.
pub fn fill_zero(s: &mut [u8], n: usize)
    requires { n ≤ length s.old }
    ensures { s.new ≡ zero_from n s.old }
{
    s[n..].fill(0);
}
