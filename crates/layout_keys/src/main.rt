// Looks keys up in the US layout block, and prints what it finds: set of modifiers, Num Lock, virtual key, scan code, key.
#![tactic(auto)]

use keys::Key;
use keys::native_code::NativeFields;
use lookup::block::Layout;
use lookup::keyboard_layout::{LayoutKey, WindowsModifiers, key_text};
use lookup::keycode::keycode_from_scancode;
use std::fs::File;
use std::io;
use std::io::Read;

// The most bytes of a file that are read.
const MOST: u64 = 65536;

// The set of modifiers with those bits: Shift 1, Control 2, Alt 4, Caps Lock 8.
fn modifiers(set: u8) -> WindowsModifiers {
    WindowsModifiers {
        shift: set & 1 != 0,
        control: set & 2 != 0,
        alt: set & 4 != 0,
        caps_lock: set & 8 != 0,
    }
}

fn show_bytes(rt: &impl Print, text: &[u8]) -> io::Result<()> {
    print!(rt; "C")?;
    for byte in text {
        print!(rt; "{byte:02x}")?;
    }
    Ok(())
}

fn show_key(rt: &impl Print, block: &[u8], found: LayoutKey) -> io::Result<()> {
    match found.key {
        Key::Named(n) => print!(rt; "N{n}"),
        Key::Character => show_bytes(rt, key_text(block, found)),
        Key::Unidentified(native) => {
            let held = NativeFields::from(native);
            print!(rt; "U{}:{:x}", held.kind, held.value)
        }
        Key::Dead => print!(rt; "D"),
        Key::DeadChar(c) => print!(rt; "D{c:x}"),
    }
}

// One virtual key, by the scan code that the block has for it; nothing where it has none.
fn show(rt: &impl Print, layout: Layout<'_>, set: u8, num_lock: bool, vkey: u16) -> io::Result<()> {
    let scancode = layout.scancode_for(vkey);
    if scancode == 0 {
        return Ok(());
    }
    let code = keycode_from_scancode(scancode);
    let found = layout.get_key(modifiers(set), num_lock, vkey, scancode, code);
    let on = u8::from(num_lock);
    print!(rt; "{set} {on} {vkey:02x} {scancode:04x} ")?;
    show_key(rt, layout.bytes, found)?;
    println!(rt)
}

fn show_lock(rt: &impl Print, layout: Layout<'_>, set: u8, num_lock: bool) -> io::Result<()> {
    for vkey in 0..256 {
        show(rt, layout, set, num_lock, vkey)?;
    }
    Ok(())
}

fn show_all(rt: &impl Print, block: &[u8]) -> io::Result<()> {
    let Some(layout) = Layout::new(block) else {
        return println!(rt; "not a layout block");
    };
    for set in [0, 1, 2, 4, 6, 8, 9] {
        show_lock(rt, layout, set, false)?;
        show_lock(rt, layout, set, true)?;
    }
    Ok(())
}

fn main(rt: HostRuntime) -> io::Result<()> {
    let file = match File::open(&rt, "us.block") {
        Ok(file) => file,
        Err(error) => return eprintln!(rt; "us.block: {error}"),
    };
    let mut block = Vec::new(rt.alloc());
    file.take(MOST).read_to_end(&mut block)?;
    show_all(&rt, &block)
}
