// Writes the text of typed units straight into a text field. docs/AREAS.md has the offsets of both.
ghost use Rattle.std.specs.Prelude.{true, ◌≡◌, ◌+◌, ◌≤◌, ◌*◌, length, drop};
ghost use Rattle.area.specs.Splice.{splice};
ghost use Rattle.session.specs.Area.{opt_text};
ghost use Rattle.session.specs.Builder.{typed_text};
ghost use Rattle.session.specs.Codec.{number, list_of};
ghost use Rattle.session.specs.Limits.{TEXT_MOST as text_most, UNITS_MOST};

use session::TEXT_MOST;

// SCOPE 3.12: the text of the list of units at `from` of src, to the text field at `to` of dst: its bytes, zeros behind, then its
// length before them.
pub fn put_typed(src: &[u8], from: usize, dst: &mut [u8], to: usize)
    requires { (from + (1 + 2 * UNITS_MOST) ≤ length src.now) × ((list_of 1 UNITS_MOST (number 2)).ok (drop from src.now) ≡ true) × (to + (1 + text_most) ≤ length dst.old) }
    ensures { dst.new ≡ splice to (opt_text.put (typed_text ((list_of 1 UNITS_MOST (number 2)).get (drop from src.now)))) dst.old }
{
    let n = src[from] as usize;
    let len = text::utf16::put_text(src, from + 1, n, dst, to + 1);
    area::span::put_zeros(dst, to + 1 + len, TEXT_MOST - len);
    area::put_u8(dst, to, len as u8);
}

// The same within one area: the list stands before the field.
pub fn put_typed_within(s: &mut [u8], from: usize, to: usize)
    requires { (from + (1 + 2 * UNITS_MOST) ≤ to) × ((list_of 1 UNITS_MOST (number 2)).ok (drop from s.old) ≡ true) × (to + (1 + text_most) ≤ length s.old) }
    ensures { s.new ≡ splice to (opt_text.put (typed_text ((list_of 1 UNITS_MOST (number 2)).get (drop from s.old)))) s.old }
{
    let (list, field) = s.split_at_mut(to);
    put_typed(list, from, field, 0);
}
