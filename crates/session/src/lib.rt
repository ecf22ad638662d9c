// What the calls are given and what they answer, as types: messages, key events, the held press, tokens, message results, refusals. No code runs
// here; specs/ says what open and finish answer. SCOPE and a number is a clause of docs/SCOPE.md.
#![tactic(auto)]

use keys::key_code::KeyCode;
use keys::{KeyLocation, KeyText};
use lookup::keyboard_layout::LayoutKey;

// ---- limits and sizes, as specs/Limits names them

pub const AREA_SIZE: usize = 65536;

pub const KEY_STATE_SIZE: usize = 256;

pub const OPEN_MOST: usize = 8;

pub const ENTRIES_MOST: usize = 256;

pub const TOKENS_MOST: usize = 4096;

pub const UNITS_MOST: usize = 16;

pub const TEXT_MOST: usize = 48;

pub const KEY_TEXT_MOST: usize = 24;

pub const INFO_SIZE: usize = 68;

pub const HELD_SIZE: usize = 104;

pub const HELD_FIELD_SIZE: usize = 105;

pub const EVENT_SIZE: usize = 196;

pub const ENTRY_SIZE: usize = 199;

pub const ENTRY_EVENT_AT: usize = 3;

pub const ANSWER_EVENT_SIZE: usize = 196;

pub const HELD_FIELD_AT: usize = 2;

pub const HELD_AT: usize = 3;

pub const COUNT_AT: usize = 107;

pub const ENTRIES_AT: usize = 109;

pub const ANSWER_EVENTS_AT: usize = 2;

// ---- what the calls are given

// A window message.
#[derive(Clone, Copy)]
pub struct Message {
    pub kind: u32,
    pub wparam: u64,
    pub lparam: u64,
}

// ---- the kinds of messages that the calls know, by Microsoft's names

pub const WM_SETFOCUS: u32 = 0x007;

pub const WM_KILLFOCUS: u32 = 0x008;

pub const WM_QUIT: u32 = 0x012;

pub const WM_KEYDOWN: u32 = 0x100;

pub const WM_KEYUP: u32 = 0x101;

pub const WM_CHAR: u32 = 0x102;

pub const WM_DEADCHAR: u32 = 0x103;

pub const WM_SYSKEYDOWN: u32 = 0x104;

pub const WM_SYSKEYUP: u32 = 0x105;

pub const WM_SYSCHAR: u32 = 0x106;

pub const WM_SYSDEADCHAR: u32 = 0x107;

// ---- events

// tao's ElementState (event.rs).
#[derive(Clone, Copy)]
pub enum ElementState {
    Pressed,
    Released,
}

// ---- what is read from the layout and not written yet: the texts of its keys stand in the block

// What tao's PartialKeyEventInfo holds for presses and releases alike; the key code is the scan code's. A dead key without modifiers becomes its
// character where it is written.
#[derive(Clone, Copy)]
pub struct PartialKeyEventInfo {
    pub scancode: u16,
    pub is_repeat: bool,
    pub location: KeyLocation,
    pub logical_key: LayoutKey,
    pub key_without_modifiers: LayoutKey,
}

// tao's KeyEvent (event.rs) with KeyEventExtra's key_without_modifiers and MessageAsKeyEvent's is_synthetic. Its two texts are one, which the logical
// key gives; where `dead` is set a dead key without modifiers stays one.
#[derive(Clone, Copy)]
pub struct KeyEvent {
    pub physical_key: KeyCode,
    pub logical_key: LayoutKey,
    pub text: KeyText,
    pub location: KeyLocation,
    pub state: ElementState,
    pub repeat: bool,
    pub is_synthetic: bool,
    pub dead: bool,
    pub key_without_modifiers: LayoutKey,
}

// ---- what completes a held press

// Its text: that of its units, or what a key of the layout gives. No Option: the first case is another source of a text, not the lack of one.
#[derive(Clone, Copy)]
pub enum LastText {
    Typed,
    Layout(LayoutKey, KeyText),
}

// Its logical key: the one that it was held with, none that is known, or its text.
#[derive(Clone, Copy)]
pub enum LastKey {
    Held,
    Unidentified,
    Text,
}

// ---- what the calls answer

// tao's ProcResult (event_loop.rs): what the window procedure returns, an LRESULT or the default procedure's. It is tao's own enum, and no Option.
#[derive(Clone, Copy, PartialEq, Eq)]
pub enum ProcResult {
    DefWindowProc,
    Value(i64),
}

// SCOPE 10.6: tao's PendingMessageToken, a number of its own type, so that no place in the queue can be passed for it.
#[derive(Clone, Copy)]
pub struct PendingMessageToken(pub u32);

// SCOPE 6.1 to 6.11: why a call is refused, in the order of the questions: 11, of the break table, stands behind 3. An open answers
// `Result<Option<PendingMessageToken>, Refusal>`, with no token where it opened no message, and a finish `Result<(), Refusal>`.
#[derive(Clone, Copy)]
pub enum Refusal {
    AreaSize,
    KeyStateSize,
    Block,
    Table,
    Session,
    NothingHeld,
    TooManyOpen,
    QueueFull,
    TokensUsed,
    TooManyUnits,
    NotLatest,
}
