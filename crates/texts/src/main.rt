// Published examples of UTF-16 and UTF-8, through the conversion and the check.
#![tactic(auto)]

use std::io;

// The Unicode Standard's examples of the encoding forms, an emoji, surrogates without their partners, two zeros.
const UNITS: [&[u16]; 12] = [
    &[0x004D],
    &[0x0430],
    &[0x4E8C],
    &[0xD800, 0xDF02],
    &[0xD83D, 0xDE00],
    &[0xD83D],
    &[0xDE00],
    &[0xDE00, 0xD83D],
    &[0x0061, 0xD83D],
    &[0xD83D, 0x0061],
    &[0xD83D, 0xD83D, 0xDE00],
    &[0x0000, 0x0000],
];

// RFC 3629, section 7; ill-formed bytes; the ends of the rows of the Unicode Standard's table 3-7.
const BYTES: [&[u8]; 28] = [
    &[0x41, 0xE2, 0x89, 0xA2, 0xCE, 0x91, 0x2E],
    &[0xED, 0x95, 0x9C, 0xEA, 0xB5, 0xAD, 0xEC, 0x96, 0xB4],
    &[0xE6, 0x97, 0xA5, 0xE6, 0x9C, 0xAC, 0xE8, 0xAA, 0x9E],
    &[0xEF, 0xBB, 0xBF, 0xF0, 0xA3, 0x8E, 0xB4],
    &[0xC0, 0xAF],
    &[0xE0, 0x9F, 0x80],
    &[0xF4, 0x90, 0x80, 0x80],
    &[0xC1, 0xBF],
    &[0xED, 0xA0, 0x80],
    &[0xED, 0xBF, 0xBF],
    &[0xF0, 0x80, 0x80, 0x80],
    &[0xF8, 0x88, 0x80, 0x80, 0x80],
    &[0x80],
    &[0xC2],
    &[0xE2, 0x82],
    &[0xF0, 0x9F, 0x98],
    &[0xF5, 0x80, 0x80, 0x80],
    &[0xC3, 0x28],
    &[0xC2, 0x80],
    &[0xDF, 0xBF],
    &[0xE0, 0xA0, 0x80],
    &[0xED, 0x9F, 0xBF],
    &[0xEE, 0x80, 0x80],
    &[0xEF, 0xBF, 0xBF],
    &[0xF0, 0x90, 0x80, 0x80],
    &[0xF4, 0x8F, 0xBF, 0xBF],
    &[0x00],
    &[0x7F],
];

// UTF-16 units, a blank behind each, and the bytes of their text, a blank before each.
fn show_text(rt: &impl Print, units: &[u16]) -> io::Result<()> {
    for unit in units {
        print!(rt; "{unit:04x} ")?;
    }
    print!(rt; "->")?;
    let mut area = [0u8; 6];
    for (place, unit) in area.chunks_exact_mut(2).zip(units) {
        place.copy_from_slice(&unit.to_le_bytes());
    }
    let mut bytes = [0u8; 48];
    let len = text::utf16::put_text(&area, 0, units.len().min(3), &mut bytes, 0);
    if len == 0 {
        return println!(rt; " none");
    }
    for byte in bytes.iter().take(len) {
        print!(rt; " {byte:02x}")?;
    }
    println!(rt)
}

// Bytes, blanks between them, and whether they are UTF-8.
fn show_check(rt: &impl Print, bytes: &[u8]) -> io::Result<()> {
    for byte in bytes {
        print!(rt; "{byte:02x} ")?;
    }
    if text::utf8::well_formed(bytes) {
        println!(rt; "ok")
    } else {
        println!(rt; "bad")
    }
}

fn main(rt: HostRuntime) -> io::Result<()> {
    for units in UNITS {
        show_text(&rt, units)?;
    }
    for bytes in BYTES {
        show_check(&rt, bytes)?;
    }
    Ok(())
}
