// Native key codes, key locations and keys (tao's keyboard.rs).
#![tactic(auto)]

pub mod key_code;
pub mod key_number;
pub mod native_code;

// Places of cases in tao's Key: the first without a value, how many there are, and the keys that the code names.
// places: from tao's files
const FIRST_NAMED: u16 = 3;

const KEY_CASES: u16 = 308;

pub const CONTROL: u16 = 6;

pub const NUM_LOCK: u16 = 9;

const ENTER: u16 = 16;

const TAB: u16 = 17;

const SPACE: u16 = 18;

const BACKSPACE: u16 = 27;

const ESCAPE: u16 = 44;

pub const PAUSE: u16 = 48;

// places: end

// What the platform calls a physical key.
#[derive(Clone, Copy, PartialEq, Eq, Debug)]
pub enum NativeKeyCode {
    Unidentified,
    Windows(u16),
    MacOS(u16),
    Gtk(u16),
    Android(i32),
}

// Which of several keys of one meaning it is.
#[derive(Clone, Copy, PartialEq, Eq, Debug)]
pub enum KeyLocation {
    Standard,
    Left,
    Right,
    Numpad,
}

// What a key means. tao's Key has 308 cases and an enum here at most 256, so its keys without a value are one case,
// with their place in tao's Key; a character's text stands beside the key, and Dead(None) and Dead(Some(c)) are Dead and DeadChar(c).
#[derive(Clone, Copy, PartialEq, Eq, Debug)]
pub enum Key {
    Named(u16),
    Character,
    Unidentified(NativeKeyCode),
    Dead,
    DeadChar(u32),
}

// The text that a key gives: none, the character's own, or one byte. No Option: what is there would need an enum of its own two cases.
#[derive(Clone, Copy, PartialEq, Eq, Debug)]
pub enum KeyText {
    Nothing,
    Own,
    Byte(u8),
}
