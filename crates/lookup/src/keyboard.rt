// The leaves of tao's keyboard.rs that need no event: the parts of lParam and wParam, a message's scan code, the location of a key.
ghost use Rattle.std.specs.Prelude.{◌≡◌};
ghost use Rattle.lookup.specs.Block.{maps_of};
ghost use Rattle.lookup.specs.LParam.{key_lparam, ex_scancode, ex_scancode_of, virtual_key};
ghost use Rattle.lookup.specs.Layout.{message_scancode};
ghost use Rattle.lookup.specs.Location.{vkey_place, location_in, location_of};

use crate::block::Layout;
use keys::KeyLocation;

// ---- lParam and wParam

#[derive(Clone, Copy, PartialEq, Eq, Debug)]
pub struct KeyLParam {
    pub scancode: u8,
    pub extended: bool,
    pub is_repeat: bool,
}

#[tactic(auto, unfolding(crate::specs::LParam::key_lparam))]
pub fn destructure_key_lparam(lparam: u64) -> KeyLParam
    ensures { result ≡ key_lparam lparam }
{
    let previous_state = lparam / 0x4000_0000 % 2;
    let transition_state = lparam / 0x8000_0000 % 2;
    KeyLParam {
        scancode: (lparam / 0x1_0000 % 0x100) as u8,
        extended: lparam / 0x100_0000 % 2 == 1,
        is_repeat: previous_state != transition_state,
    }
}

#[tactic(auto, unfolding(crate::specs::LParam::ex_scancode))]
fn new_ex_scancode(scancode: u8, extended: bool) -> u16
    ensures { result ≡ ex_scancode scancode extended }
{
    u16::from(scancode) + if extended { 0xE000 } else { 0 }
}

#[tactic(auto, unfolding(crate::specs::LParam::key_lparam, crate::specs::LParam::ex_scancode_of))]
pub fn ex_scancode_from_lparam(lparam: u64) -> u16
    ensures { result ≡ ex_scancode_of lparam }
{
    let next = destructure_key_lparam(lparam);
    new_ex_scancode(next.scancode, next.extended)
}

#[tactic(auto, unfolding(crate::specs::LParam::virtual_key))]
pub fn virtual_key(wparam: u64) -> u16
    ensures { result ≡ virtual_key wparam }
{
    (wparam % 0x1_0000) as u16
}

// ---- scan code and location

// SCOPE 3.1: the scan code of a press or a release, the block's where the message carries none.
#[tactic(auto, unfolding(crate::specs::Layout::message_scancode))]
pub fn message_scancode(layout: Layout<'_>, vkey: u16, l: KeyLParam) -> u16
    ensures { result ≡ message_scancode (maps_of layout.entry.bytes.now) vkey l }
{
    if l.scancode == 0 {
        return layout.scancode_for(vkey);
    }
    new_ex_scancode(l.scancode, l.extended)
}

// Where a virtual key belongs, before the scan code's page is looked at.
#[derive(Clone, Copy, PartialEq, Eq, Debug)]
enum VkeyPlace {
    Left,
    Right,
    Enter,
    Editing,
    Numpad,
    Other,
}

#[tactic(auto, unfolding(crate::specs::Location::vkey_place, crate::specs::Location::places, area::specs::Look::assoc))]
fn vkey_place(vkey: u16) -> VkeyPlace
    ensures { result ≡ vkey_place vkey }
{
    match vkey {
        0xA0 | 0xA2 | 0xA4 | 0x5B => VkeyPlace::Left,
        0xA1 | 0xA3 | 0xA5 | 0x5C => VkeyPlace::Right,
        0x0D => VkeyPlace::Enter,
        0x0C | 0x21..=0x28 | 0x2D | 0x2E => VkeyPlace::Editing,
        0x60..=0x6B | 0x6D..=0x6F | 0xC2 => VkeyPlace::Numpad,
        _ => VkeyPlace::Other,
    }
}

#[tactic(auto, unfolding(crate::specs::Location::location_in))]
fn location_in(place: VkeyPlace, extended: bool) -> KeyLocation
    ensures { result ≡ location_in place extended }
{
    match place {
        VkeyPlace::Left => KeyLocation::Left,
        VkeyPlace::Right => KeyLocation::Right,
        VkeyPlace::Enter if extended => KeyLocation::Numpad,
        VkeyPlace::Editing if !extended => KeyLocation::Numpad,
        VkeyPlace::Numpad => KeyLocation::Numpad,
        VkeyPlace::Enter | VkeyPlace::Editing | VkeyPlace::Other => KeyLocation::Standard,
    }
}

#[tactic(auto, unfolding(crate::specs::Location::location_of, crate::specs::Location::extended_code))]
pub fn get_location(layout: Layout<'_>, scancode: u16) -> KeyLocation
    ensures { result ≡ location_of (maps_of layout.entry.bytes.now) scancode }
{
    let extended = 0xE000 <= scancode;
    location_in(vkey_place(layout.vkey_for(scancode)), extended)
}
