// The location of every scan code of some pages, over a block in which a code has the virtual key of its low byte.
#![tactic(auto)]

use lookup::block::Layout;
use lookup::keyboard::get_location;
use std::fs::File;
use std::io;
use std::io::Read;

// The most bytes of a file that are read.
const MOST: u64 = 65536;

// Sixteen codes to a line.
fn show_page(rt: &impl Print, layout: Layout<'_>, page: u8) -> io::Result<()> {
    println!(rt; "page {page:02x}")?;
    for low in 0..=u8::MAX {
        let location = get_location(layout, u16::from_be_bytes([page, low]));
        print!(rt; "{}", u8::from(location))?;
        if low % 16 == 15 {
            println!(rt)?;
        }
    }
    Ok(())
}

fn show_all(rt: &impl Print, block: &[u8]) -> io::Result<()> {
    let Some(layout) = Layout::new(block) else {
        return println!(rt; "not a layout block");
    };
    for page in [0x00, 0xE0, 0xE1, 0x01, 0xFF] {
        show_page(rt, layout, page)?;
    }
    Ok(())
}

fn main(rt: HostRuntime) -> io::Result<()> {
    let file = match File::open(&rt, "locations.block") {
        Ok(file) => file,
        Err(error) => return eprintln!(rt; "locations.block: {error}"),
    };
    let mut block = Vec::new(rt.alloc());
    file.take(MOST).read_to_end(&mut block)?;
    show_all(&rt, &block)
}
