// UTF-16 units that stand in an area, two bytes each, and the text that they have, written into an area.
ghost use Rattle.std.specs.Prelude.{◌≡◌, ◌+◌, ◌*◌, ◌≤◌, length, drop};
ghost use Rattle.text.specs.Placed.{units_at, Put};
ghost use Rattle.text.specs.Unicode.{utf16_step};

// The step of UTF-16 from unit i on, of the n units that stand at `from`.
fn utf16_step(s: &[u8], from: usize, n: usize, i: usize) -> Option<(u32, usize)>
    requires { from + 2 * n ≤ length s.now }
    ensures { result ≡ utf16_step (drop i (units_at n (drop from s.now))) }
{
    if n <= i {
        return None;
    }
    let u = area::get_u16(s, from + 2 * i) as u32;
    match u {
        0xD800..=0xDBFF => {}
        0xDC00..=0xDFFF => return None,
        _ => return Some((u, 1)),
    }
    if n - i < 2 {
        return None;
    }
    let v = area::get_u16(s, from + 2 * i + 2) as u32;
    (0xDC00..=0xDFFF)
        .contains(&v)
        .then_some((0x10000 + u % 0x400 * 0x400 + v % 0x400, 2))
}

// SCOPE 3.12: writes the text of the n units at `from` of src to dst at `at`, and says its length, 0 where they have none, as the text's field has it
// (docs/AREAS.md). No `for`: a step is of one unit or of two.
pub fn put_text(src: &[u8], from: usize, n: usize, dst: &mut [u8], at: usize) -> usize
    requires { (from + 2 * n ≤ length src.now) × (n ≤ 16) × (at + 48 ≤ length dst.old) }
    ensures { Put (units_at n (drop from src.now)) at dst.old dst.new result }
{
    let mut to = at;
    let mut i = 0;
    while i < n {
        let Some((c, k)) = utf16_step(src, from, n, i) else {
            return 0; // a surrogate stands alone
        };
        to = crate::put_scalar(dst, to, c);
        i += k;
    }
    to - at
}
