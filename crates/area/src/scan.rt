// Scans of bytes for zeros. They have no way out before the end, so that they compile to wide instructions.
ghost use Rattle.std.specs.Prelude.{◌≡◌, ◌-◌, ◌≤◌, length, take, drop};
ghost use Rattle.area.specs.Zero.{all_zero, or_rest};

// The OR of all bytes.
pub fn or_all(t: &[u8]) -> u8
    ensures { result ≡ or_rest 0 t.now }
{
    let mut acc = 0;
    for x in t {
        acc |= *x;
    }
    acc
}

// Whether the bytes from n to the end are all 0.
pub fn zero_from(s: &[u8], n: usize) -> bool
    ensures { result ≡ all_zero (drop n s.now) }
{
    if s.len() < n {
        return true;
    }
    or_all(&s[n..]) == 0
}

// Whether the bytes from `from` and before `to` are all 0.
pub fn zero_part(s: &[u8], from: usize, to: usize) -> bool
    requires { (from ≤ to) × (to ≤ length s.now) }
    ensures { result ≡ all_zero (take (to - from) (drop from s.now)) }
{
    or_all(&s[from..to]) == 0
}
