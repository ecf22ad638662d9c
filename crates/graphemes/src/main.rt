// Executes the texts of Unicode 15.0's GraphemeBreakTest with its break table, unicode.breaks. A line of standard input is a text: its scalar
// values in hexadecimal, parted by blanks. It is printed as Unicode's file has it, with ÷ where a piece ends and × where none does. The last
// line is no part of that file: how many texts there are, and whether several_pieces says of each what its marks say.
#![tactic(auto)]

use lines::Numbers;
use segmentation::break_table::BreakTable;
use segmentation::grapheme;
use std::io::Read;
use std::{fs, io};

// The most bytes of the table, and of the input, that are read.
const MOST: u64 = 65536;

// ---- a text in UTF-8

fn scalar_of(number: u64) -> u32 {
    (number % 0x1_0000_0000) as u32
}

// Puts a scalar value behind the bytes that are there, and answers how many there are then; one that has no room is left out.
fn put_scalar(out: &mut [u8; 256], len: usize, scalar: u32) -> usize {
    if 252 < len || !text::is_scalar(scalar) {
        return len;
    }
    text::put_scalar(out, len, scalar)
}

// Writes the text of a line, and answers its length.
fn put_text(line: &[u8], out: &mut [u8; 256]) -> usize {
    let mut len = 0;
    for number in Numbers::new(line, 0) {
        len = put_scalar(out, len, scalar_of(number));
    }
    len
}

// ---- a text with its marks

fn show_mark(rt: &impl Print, breaks: bool) -> io::Result<()> {
    let mark = if breaks { "÷" } else { "×" };
    print!(rt; "{mark}")
}

// A mark, and the scalar value behind it as the line has it.
fn show_scalar(rt: &impl Print, breaks: bool, digits: &[u8]) -> io::Result<()> {
    show_mark(rt, breaks)?;
    print!(rt; " ")?;
    rt.write_all(digits)?;
    print!(rt; " ")
}

// What was read of a line, by what was left of it before and what is left now.
fn read<'a>(before: &'a [u8], now: &[u8]) -> &'a [u8] {
    before
        .get(..before.len().saturating_sub(now.len()))
        .unwrap_or_default()
}

// Prints the text of a line with its marks, and answers whether it has several pieces by them.
fn show_pieces(rt: &impl Print, table: BreakTable<'_>, line: &[u8]) -> io::Result<bool> {
    let mut numbers = Numbers::new(line, 0);
    let first = table.props_at(scalar_of(numbers.next().unwrap_or(0)));
    show_scalar(rt, true, read(line, numbers.rest))?;
    let mut behind = grapheme::first(first);
    let mut several = false;
    let mut rest = numbers.rest;
    while let Some(number) = numbers.next() {
        let props = table.props_at(scalar_of(number));
        let breaks = grapheme::breaks(behind, props);
        let digits = read(rest, numbers.rest);
        show_scalar(rt, breaks, digits.strip_prefix(b" ").unwrap_or(digits))?;
        behind = grapheme::next(behind, props);
        several |= breaks;
        rest = numbers.rest;
    }
    show_mark(rt, true)?;
    println!(rt)?;
    Ok(several)
}

// Prints the text of a line, and answers whether several_pieces says what its marks say.
fn show_text(rt: &impl Print, table: BreakTable<'_>, line: &[u8]) -> io::Result<bool> {
    let several = show_pieces(rt, table, line)?;
    let mut space = [0u8; 256];
    let len = put_text(line, &mut space);
    let text = space.get(..len).unwrap_or_default();
    Ok(segmentation::several_pieces(table, text) == several)
}

// ---- all texts

fn show_all(rt: &impl Print, table: BreakTable<'_>, input: &[u8]) -> io::Result<()> {
    let mut texts = 0u64;
    let mut agree = true;
    for line in input.split(|b| *b == b'\n') {
        if !line.is_empty() {
            texts = texts.wrapping_add(1);
            agree &= show_text(rt, table, line)?;
        }
    }
    let says = if agree { "agrees" } else { "disagrees" };
    println!(rt; "{texts} texts, several_pieces {says}")
}

fn main(rt: HostRuntime) -> io::Result<()> {
    let file = match fs::open(&rt, "unicode.breaks") {
        Ok(file) => file,
        Err(e) => return eprintln!(rt; "unicode.breaks: {e}"),
    };
    let mut table = Vec::new(rt.alloc());
    file.take(MOST).read_to_end(&mut table)?;
    let Some(table) = BreakTable::new(&table) else {
        return println!(rt; "unicode.breaks: no break table");
    };
    let mut input = Vec::new(rt.alloc());
    rt.reader().take(MOST).read_to_end(&mut input)?;
    show_all(&rt, table, &input)
}
