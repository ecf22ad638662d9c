// tao's PartialKeyEventInfo::from_message: what a press or a release is, read from layout and key state. The texts of its keys stand in the block.
ghost use Rattle.std.specs.Prelude.{true, not, ◌&&◌, List, [], ◌≡◌, ℕ, option_map};
ghost use Rattle.keys.specs.Text.{full, bare_of};
ghost use Rattle.lookup.specs.Block.{maps_of};
ghost use Rattle.lookup.specs.Codes.{key_code_of};
ghost use Rattle.lookup.specs.Layout.{get_key, key_in};
ghost use Rattle.lookup.specs.Modifiers.{bits_of};
ghost use Rattle.session.specs.Builder.{code_as_key, from_message, is_character, mark_of, plain_key};
ghost use Rattle.session.specs.Event.{Info};
ghost use Rattle.session.specs.InBlock.{FitsIn, info_in, InfoIn};
ghost use Rattle.event.specs.Written.{keyboard_at};

use crate::keyboard::Keyboard;
use keys::Key;
use keys::key_code::KeyCode;
use lookup::block::Layout;
use lookup::keyboard::KeyLParam;
use lookup::keyboard_layout::{LayoutKey, WindowsModifiers};
use session::PartialKeyEventInfo;

// ---- keys of the layout

// The layout's key under some modifiers.
pub(crate) fn layout_key(
    layout: Layout<'_>,
    mods: WindowsModifiers,
    num_lock_on: bool,
    vkey: u16,
    scancode: u16,
) -> LayoutKey
    ensures { (key_in layout.entry.bytes.now result ≡ get_key (maps_of layout.entry.bytes.now) (bits_of mods) num_lock_on vkey scancode (key_code_of scancode)) × FitsIn layout.entry.bytes.now result }
{
    let code = lookup::keycode::keycode_from_scancode(scancode);
    layout.get_key(mods, num_lock_on, vkey, scancode, code)
}

// The layout's key without modifiers.
#[tactic(auto, using(lookup::proofs::keyboard_layout::Sets::caps_bits), unfolding(session::specs::Builder::plain_key))]
pub(crate) fn plain_key(layout: Layout<'_>, vkey: u16, scancode: u16) -> LayoutKey
    ensures { ((state : List ℕ) → key_in layout.entry.bytes.now result ≡ plain_key (keyboard_at state layout.entry.bytes.now) vkey scancode) × FitsIn layout.entry.bytes.now result }
{
    let none = WindowsModifiers {
        shift: false,
        control: false,
        alt: false,
        caps_lock: false,
    };
    layout_key(layout, none, false, vkey, scancode)
}

// ---- presses and releases

// SCOPE 3.7, the key that a code is with Control on: NumLock or Pause.
#[tactic(auto, using(crate::proofs::partial::Control::not_forced), unfolding(session::specs::Builder::code_as_key, keys::specs::Number::code_number, keys::specs::Text::full, area::specs::Look::assoc))]
fn forced_key(control: bool, code: KeyCode) -> Option<Key>
    ensures { option_map (λ k. full k []) result ≡ code_as_key control code }
{
    if !control {
        return None;
    }
    match code {
        KeyCode::NumLock => Some(Key::Named(keys::NUM_LOCK)),
        KeyCode::Pause => Some(Key::Named(keys::PAUSE)),
        _ => None,
    }
}

// What is kept of a press or a release. With Control on, NumLock and Pause are themselves, whatever the layout says.
pub fn from_message(keyboard: Keyboard<'_>, vkey: u16, l: KeyLParam) -> PartialKeyEventInfo
    ensures { (info_in keyboard.entry.layout.bytes.now result ≡ from_message (keyboard_at keyboard.entry.state.now keyboard.entry.layout.bytes.now) vkey l) × InfoIn keyboard.entry.layout.bytes.now result }
{
    let Keyboard { state, layout } = keyboard;
    let scancode = lookup::keyboard::message_scancode(layout, vkey, l);
    let mods = WindowsModifiers::active_modifiers(state);
    let location = lookup::keyboard::get_location(layout, scancode);
    let is_repeat = l.is_repeat;
    let code = lookup::keycode::keycode_from_scancode(scancode);
    if let Some(key) = forced_key(mods.control, code) {
        let forced = LayoutKey {
            key,
            start: 0,
            len: 0,
        };
        return PartialKeyEventInfo {
            scancode,
            is_repeat,
            location,
            logical_key: forced,
            key_without_modifiers: forced,
        };
    }
    let num_lock = lookup::keyboard_layout::num_lock_on(state);
    let shown = mods.remove_only_ctrl();
    let logical_key = layout_key(layout, shown, num_lock, vkey, scancode);
    let key_without_modifiers = plain_key(layout, vkey, scancode);
    PartialKeyEventInfo {
        scancode,
        is_repeat,
        location,
        logical_key,
        key_without_modifiers,
    }
}

// SCOPE 3.13, whether a typed text may become the logical key: the layout's answer is a character and Control is off.
#[tactic(auto, unfolding(session::specs::Builder::is_character, keys::specs::Text::full))]
fn mark_of(key: Key, control: bool) -> bool
    ensures { result ≡ (is_character (full key []) && not control) }
{
    !control && matches!(key, Key::Character)
}

// The mark that a press is held with at its finish, by the case of its logical key.
#[tactic(auto, using(crate::proofs::partial::Control::bare_character), unfolding(session::specs::Builder::mark_of))]
pub fn press_mark(state: &[u8], key: Key) -> bool
    ensures { (block : List ℕ) (n : Info) → bare_of n.logical_key ≡ key → result ≡ mark_of (keyboard_at state.now block) n }
{
    let mods = WindowsModifiers::active_modifiers(state);
    mark_of(key, mods.control)
}
