// All 65,536 scan codes: each that is identified with its key code's place, then how many are unidentified with their own code.
#![tactic(auto)]

use keys::NativeKeyCode;
use keys::key_code::code_native;
use lookup::keycode::keycode_from_scancode;
use std::io;

// Shows a code that is identified, or unidentified with another inside; answers whether it is unidentified with itself inside.
fn show(rt: &impl Print, scancode: u16) -> io::Result<bool> {
    let code = keycode_from_scancode(scancode);
    let number = u16::from(code);
    if number != 0 {
        println!(rt; "{scancode:04x} {number}")?;
        return Ok(false);
    }
    let own = code_native(code) == NativeKeyCode::Windows(scancode);
    if !own {
        println!(rt; "odd {scancode:04x}")?;
    }
    Ok(own)
}

fn main(rt: HostRuntime) -> io::Result<()> {
    let mut unidentified: u64 = 0;
    for scancode in 0..=u16::MAX {
        unidentified += u64::from(show(&rt, scancode)?);
    }
    println!(rt; "{unidentified} unidentified, each with its code")
}
