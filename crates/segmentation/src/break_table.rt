// The lent table of break classes: question 11, and the properties of a scalar value.
ghost use Rattle.std.specs.Prelude.{true, false, ◌≡◌, length, MatchOption};
ghost use Rattle.area.specs.Walk.{every};
ghost use Rattle.segmentation.specs.Layout.{count_in, size_of, after_last, ends_ok, ends_at, kind_ok, known_at, props_by, table_of, table_ok};
ghost use Rattle.segmentation.specs.Table.{props_in};

use crate::Props;
use crate::grapheme::OTHER;

// The most bytes of a table.
pub const TABLE_MOST: usize = 65536;

// The bytes before the ranges: the form's number and the number of ranges.
const HEAD: usize = 8;

// The number of this form.
const FORM: u32 = 0;

// How many break classes there are.
const CLASSES: u8 = 14;

// ---- question 11

// The tests of one range are sums of bits: a walk has no way out before its end, so that it compiles to wide instructions.
fn ends_ok(first: u32, last: u32) -> bool
    ensures { result ≡ ends_ok first last }
{
    let from = (first < 0xD800) | ((0xDFFF < first) & (first < 0x110000));
    let to = (last < 0xD800) | ((0xDFFF < last) & (last < 0x110000));
    (first <= last) & (from & to)
}

fn kind_ok(kind: u8) -> bool
    ensures { result ≡ kind_ok kind }
{
    (kind / 16 < 2) & (kind % 16 < CLASSES)
}

fn all_ends(table: &[u8], n: usize) -> bool
    requires { (n ≡ count_in table.now) × (length table.now ≡ size_of n) }
    ensures { result ≡ every (ends_at table.now) n 0 }
{
    let mut ok = true;
    for i in 0..n {
        let first = area::get_u32(table, HEAD + 4 * i);
        let last = area::get_u32(table, HEAD + 4 * n + 4 * i);
        ok &= ends_ok(first, last);
    }
    ok
}

// From the second range on: the column of the last values is read one place behind.
fn all_after(table: &[u8], n: usize) -> bool
    requires { (n ≡ count_in table.now) × (length table.now ≡ size_of n) }
    ensures { result ≡ every (after_last table.now) n 0 }
{
    let mut ok = true;
    for i in 1..n {
        let last = area::get_u32(table, HEAD + 4 * n + 4 * i - 4);
        let first = area::get_u32(table, HEAD + 4 * i);
        ok &= last < first;
    }
    ok
}

fn all_known(table: &[u8], n: usize) -> bool
    requires { (n ≡ count_in table.now) × (length table.now ≡ size_of n) }
    ensures { result ≡ every (known_at table.now) n 0 }
{
    let mut ok = true;
    for kind in &table[HEAD + 8 * n..] {
        ok &= kind_ok(*kind);
    }
    ok
}

// Question 11: a table is in order.
pub fn table_ok(table: &[u8]) -> bool
    ensures { result ≡ table_ok table.now }
{
    if TABLE_MOST < table.len() {
        return false;
    }
    if table.len() < HEAD {
        return false;
    }
    if area::get_u32(table, 0) != FORM {
        return false;
    }
    let n = area::get_u32(table, 4) as usize;
    if table.len() == HEAD + 9 * n {
        return all_after(table, n) & (all_ends(table, n) & all_known(table, n));
    }
    false
}

// ---- the properties of a scalar value

fn props_by(kind: u8) -> Props
    ensures { result ≡ props_by kind }
{
    let k = u32::from(kind);
    Props {
        class: k % 16,
        pictographic: k / 16 == 1,
    }
}

// ---- the table

// A break table, which passed question 11.
#[derive(Clone, Copy)]
pub struct BreakTable<'a> {
    pub bytes: &'a [u8],
    ghost whole: { table_ok bytes.now ≡ true },
}

impl<'a> BreakTable<'a> {
    // The break table that the bytes are, if they are one.
    pub fn new(bytes: &'a [u8]) -> Option<Self>
        ensures { MatchOption result (table_ok bytes.now ≡ false) (λ table. table.bytes.now ≡ bytes.now) }
    {
        if !table_ok(bytes) {
            return None;
        }
        Some(Self { bytes })
    }

    // By halving: the ranges rise. std's searches take a slice of elements, and these stand in columns of bytes.
    pub fn props_at(self, scalar: u32) -> Props
        ensures { result ≡ props_in (table_of self.entry.bytes.now) scalar }
    {
        let n = area::get_u32(self.bytes, 4) as usize;
        let mut low: usize = 0;
        let mut high = n;
        while low < high {
            let middle = low + (high - low) / 2;
            if scalar < area::get_u32(self.bytes, HEAD + 4 * middle) {
                high = middle;
            } else if scalar <= area::get_u32(self.bytes, HEAD + 4 * n + 4 * middle) {
                return props_by(self.bytes[HEAD + 8 * n + middle]);
            } else {
                low = middle + 1;
            }
        }
        Props {
            class: OTHER,
            pictographic: false,
        }
    }
}
