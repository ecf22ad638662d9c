// Text segmentation: extended grapheme clusters of Unicode Annex 29, by a lent table of break classes. tao counts them by the crate
// unicode-segmentation. SCOPE and a number is a clause of docs/SCOPE.md.
#![tactic(auto)]

pub mod break_table;
pub mod grapheme;

ghost use Rattle.std.specs.Prelude.{◌≡◌, drop};
ghost use Rattle.segmentation.specs.Forward.{breaks_by};
ghost use Rattle.segmentation.specs.Layout.{table_of};
ghost use Rattle.segmentation.specs.Table.{several_in};

use crate::break_table::BreakTable;
use crate::grapheme::Behind;

// What a table says of a scalar value: its break class and its pictographic mark.
#[derive(Clone, Copy)]
pub struct Props {
    pub class: u32,
    pub pictographic: bool,
}

// Whether some piece ends before a scalar value from `from` on, behind what stands before.
fn breaks_from(table: BreakTable<'_>, text: &[u8], from: usize, before: Behind) -> bool
    ensures { result ≡ breaks_by (table_of table.entry.bytes.now) before (drop from text.now) }
{
    let mut behind = before;
    let mut i = from;
    while let Some((scalar, n)) = text::utf8::utf8_step(text, i) {
        let p = table.props_at(scalar);
        if crate::grapheme::breaks(behind, p) {
            return true;
        }
        behind = crate::grapheme::next(behind, p);
        i += n;
    }
    false
}

// SCOPE 3.13: whether a text has several pieces. For one scalar value, which most texts are, the table is not asked.
pub fn several_pieces(table: BreakTable<'_>, text: &[u8]) -> bool
    ensures { result ≡ several_in (table_of table.entry.bytes.now) text.now }
{
    let Some((scalar, n)) = text::utf8::utf8_step(text, 0) else {
        return false;
    };
    if text.len() <= n {
        return false;
    }
    let p = table.props_at(scalar);
    breaks_from(table, text, n, crate::grapheme::first(p))
}
