// Work to be timed, by tools/bench: the first argument says what (b: the check of us.block, k: lookups in it, r: the check of the ranges of
// unicode.breaks, t: text conversions, z: scans of 65,536 zeros), the second how many rounds. It prints how many passed, found a character, have a
// text, or found zeros.
#![tactic(auto)]

use lookup::block::{Layout, block_ok};
use lookup::keyboard_layout::WindowsModifiers;
use lookup::keycode::keycode_from_scancode;
use segmentation::break_table::table_ok;
use std::env::Env;
use std::fs::File;
use std::io;
use std::io::Read;
use std::rt::Files;

// The most bytes of a file that are read, and how many zeros there are.
const MOST: usize = 65536;

// ---- a round, by its number, which changes what it works on, so that none can be left out

// The check of a block, whose AltGr flag changes.
fn check_block(block: &mut [u8], i: u64) -> bool {
    let Some(flag) = block.first_mut() else {
        return false;
    };
    *flag = (i % 2) as u8;
    block_ok(block)
}

// The check of a break table. The class of its last range, which is its last byte, changes.
fn check_table(table: &mut [u8], i: u64) -> bool {
    let Some(class) = table.last_mut() else {
        return false;
    };
    *class = (i % 2) as u8;
    table_ok(table)
}

// A lookup: whether it finds a character.
fn finds(layout: Layout<'_>, i: u64) -> bool {
    let vkey = (i % 256) as u16;
    let scancode = layout.scancode_for(vkey);
    let code = keycode_from_scancode(scancode);
    let modifiers = WindowsModifiers {
        shift: i / 256 % 2 == 1,
        control: i / 512 % 2 == 1,
        alt: i / 1024 % 2 == 1,
        caps_lock: i / 2048 % 2 == 1,
    };
    let found = layout.get_key(modifiers, i / 4096 % 2 == 1, vkey, scancode, code);
    found.len != 0
}

// The conversion of sixteen units: whether they have a text. The first changes, and the others are 0.
fn convert(text: &mut [u8; 48], i: u64) -> bool {
    let mut units = [0u8; 32];
    units[..2].copy_from_slice(&((i % 0x8000) as u16).to_le_bytes());
    text::utf16::put_text(&units, 0, 16, text, 0) != 0
}

// The scan of an area: whether it finds nothing but zeros.
fn scan(bytes: &mut [u8], i: u64) -> bool {
    let Some(byte) = bytes.get_mut((i % 65536) as usize) else {
        return false;
    };
    *byte = 0;
    area::scan::zero_from(bytes, 0)
}

// ---- all rounds

// How many rounds pass.
fn repeat<F: FnMut(u64) -> bool>(rounds: u64, mut passes: F) -> u64
    requires { F.IsAlwaysCallable passes }
{
    let mut count = 0;
    for i in 0..rounds {
        count += u64::from(passes(i));
    }
    count
}

fn look_up(block: &[u8], rounds: u64) -> u64 {
    let Some(layout) = Layout::new(block) else {
        return 0;
    };
    repeat(rounds, |i| finds(layout, i))
}

// Prints what is counted over a file.
fn on_file<F: FnOnce(&mut [u8]) -> u64>(
    rt: &(impl Files + Print + Eprint + Alloc),
    name: &str,
    count: F,
) -> io::Result<()>
    requires { F.IsAlwaysCallable count }
{
    let file = match File::open(rt, name) {
        Ok(file) => file,
        Err(error) => return eprintln!(rt; "{name}: {error}"),
    };
    let mut bytes = Vec::new(rt.alloc());
    file.take(MOST as u64).read_to_end(&mut bytes)?;
    let n = count(&mut bytes);
    println!(rt; "{n}")
}

fn show(rt: &impl Print, n: u64) -> io::Result<()> {
    println!(rt; "{n}")
}

fn main(rt: HostRuntime) -> io::Result<()> {
    let mut word = [0u8; 4096];
    let _ = rt.arg(1, &mut word);
    let mut number = [0u8; 4096];
    let n = rt.arg(2, &mut number).unwrap_or(0);
    let rounds = lines::rounds_in(number.get(..n).unwrap_or_default());
    match word[0] {
        b't' => {
            let mut text = [0u8; 48];
            show(&rt, repeat(rounds, |i| convert(&mut text, i)))
        }
        b'z' => {
            let mut zeros = [0u8; MOST];
            show(&rt, repeat(rounds, |i| scan(&mut zeros, i)))
        }
        b'r' => on_file(&rt, "unicode.breaks", |table| {
            repeat(rounds, |i| check_table(table, i))
        }),
        b'k' => on_file(&rt, "us.block", |block| look_up(block, rounds)),
        b'b' => on_file(&rt, "us.block", |block| {
            repeat(rounds, |i| check_block(block, i))
        }),
        _ => on_file(&rt, "us.block", |block| repeat(rounds, |i| scan(block, i))),
    }
}
