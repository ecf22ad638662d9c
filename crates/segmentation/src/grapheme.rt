// The rules of Annex 29 in one pass forward.
ghost use Rattle.std.specs.Prelude.{◌≡◌};
ghost use Rattle.segmentation.specs.Forward.{break_by, start, next_of};

use crate::Props;

// The break classes that the rules name, by their numbers in a table: as an enum each rule would be a match, and no longer the definition's term.
pub(crate) const OTHER: u32 = 0;

const CR: u32 = 1;

const LF: u32 = 2;

const CONTROL: u32 = 3;

const EXTEND: u32 = 4;

const ZWJ: u32 = 5;

const RI: u32 = 6;

const PREPEND: u32 = 7;

const SPACING_MARK: u32 = 8;

const L: u32 = 9;

const V: u32 = 10;

const T: u32 = 11;

const LV: u32 = 12;

const LVT: u32 = 13;

// What the rules ask of the scalar values up to the last one read.
#[derive(Clone, Copy)]
pub struct Behind {
    // its break class
    pub last: u32,
    // whether an odd number of regional indicators stands there
    pub odd: bool,
    // whether a pictograph and Extends stand there
    pub pictograph: bool,
    // whether a ZWJ stands behind those
    pub joiner: bool,
}

// Whether a piece ends before a scalar value with these properties. Sums of bits with no branch and no call, nested as the definition is: the
// two are the same term.
pub fn breaks(behind: Behind, p: Props) -> bool
    ensures { result ≡ break_by behind p }
{
    let a = behind.last;
    let b = p.class;
    let crlf = (a == CR) & (b == LF);
    let control = ((a == CR) | ((a == LF) | (a == CONTROL)))
        | ((b == CR) | ((b == LF) | (b == CONTROL)));
    let gb6 = (a == L) & ((b == L) | ((b == V) | ((b == LV) | (b == LVT))));
    let gb7 = ((a == LV) | (a == V)) & ((b == V) | (b == T));
    let gb8 = ((a == LVT) | (a == T)) & (b == T);
    let gb9 = ((b == EXTEND) | (b == ZWJ)) | ((b == SPACING_MARK) | (a == PREPEND));
    let gb11 = behind.joiner & p.pictographic;
    let gb12 = behind.odd & (b == RI);
    !crlf & (control | !((gb6 | (gb7 | gb8)) | (gb9 | (gb11 | gb12))))
}

// What stands behind one more scalar value.
pub fn next(behind: Behind, p: Props) -> Behind
    ensures { result ≡ next_of behind p }
{
    Behind {
        last: p.class,
        odd: (p.class == RI) & !behind.odd,
        pictograph: p.pictographic | ((p.class == EXTEND) & behind.pictograph),
        joiner: (p.class == ZWJ) & behind.pictograph,
    }
}

// What stands behind the first one.
pub fn first(p: Props) -> Behind
    ensures { result ≡ next_of start p }
{
    next(
        Behind {
            last: OTHER,
            odd: false,
            pictograph: false,
            joiner: false,
        },
        p,
    )
}
