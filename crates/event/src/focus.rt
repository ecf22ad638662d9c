// tao's synthesize_kbd_state: which keys a focus change writes, in their order, and their events (create_synthetic).
ghost use Rattle.std.specs.Prelude.{true, List, [], ◌∷◌, ◌++◌, ◌≡◌, ℕ, ◌+◌, ◌≤◌, ◌<◌, length};
ghost use Rattle.keys.specs.Text.{full, text_from};
ghost use Rattle.lookup.specs.Block.{maps_of};
ghost use Rattle.lookup.specs.Layout.{scan_code_for};
ghost use Rattle.session.specs.Focus.{modifier_keys, is_other, others_from, focus_keys, written, focus_events, focus_text, synthetic_event};
ghost use Rattle.session.specs.InBlock.{event_in, EventIn};
ghost use Rattle.session.specs.Limits.{KEYS};
ghost use Rattle.event.specs.Written.{keyboard_at, written_of};

use crate::keyboard::Keyboard;
use keys::{Key, KeyText};
use lookup::keyboard_layout::WindowsModifiers;
use session::{ElementState, KEY_STATE_SIZE, KeyEvent};
use std::marker::Model;

// ---- which keys, in which order

// The keys that are written, by their virtual keys: the first `len`. The kit's ArrayVec is not `Copy`.
#[derive(Clone, Copy)]
pub struct FocusKeys {
    keys: [u8; KEY_STATE_SIZE],
    len: usize,
}

impl Model for FocusKeys {
    ghost use Rattle.std.specs.Prelude.{◌≡◌, ◌≤◌, ◌++◌, length, take, drop};
    ghost use Rattle.std.proofs.Common.{arith, take-append-drop, length-take-le};
    ghost use Rattle.event.specs.FocusKeys.{FocusKeys as Items};
    ghost use Rattle.session.specs.Limits.{KEYS};

    ghost Value = { Items };

    ghost view = { λ s. record { items = take s.len s.keys; spare = drop s.len s.keys } };

    ghost invariant = { λ s. (s.len ≤ KEYS) × (length s.keys ≡ KEYS) };

    ghost inverse = { λ s. record { keys = s.items ++ s.spare; len = length s.items } };

    ghost inverse_ok = { λ s h i. record {
      keys = take-append-drop s.len s.keys i;
      len = length-take-le s.len s.keys (omega (arith, h.0, h.1)) i;
    } };
}

impl FocusKeys {
    // No key.
    fn new() -> Self
        ensures { result.items ≡ [] }
    {
        Self {
            keys: [0; KEY_STATE_SIZE],
            len: 0,
        }
    }

    // One key more.
    fn push(&mut self, vk: u8)
        requires { length self.old.items < KEYS }
        ensures { self.new.items ≡ self.old.items ++ vk ∷ [] }
    {
        self.keys[self.len] = vk;
        self.len += 1;
    }

    // How many keys.
    pub fn len(&self) -> usize
        ensures value { result ≡ length self.now.items }
        ensures fits { result ≤ KEYS }
    {
        self.as_slice().len()
    }

    // The keys, in their order.
    pub fn as_slice(&self) -> &[u8]
        ensures value { result.now ≡ self.now.items }
        ensures fits { length result.now ≤ KEYS }
    {
        &self.keys[..self.len]
    }
}

const VK_CAPITAL: u8 = 0x14;

// SCOPE 3.14, 10.7: VK_LCONTROL, VK_LSHIFT, VK_LMENU, VK_RCONTROL, VK_RSHIFT, VK_RMENU.
const MODIFIER_KEYS: [u8; 6] = [0xA2, 0xA0, 0xA4, 0xA3, 0xA1, 0xA5];

// Whether a key is among the others: all but Caps Lock, VK_SHIFT, VK_CONTROL, VK_MENU and the six.
#[tactic(auto, unfolding(session::specs::Focus::is_other, area::specs::Look::assoc))]
fn is_other(vk: u8) -> bool
    ensures { result ≡ is_other vk }
{
    !matches!(vk, 0x10 | 0x11 | 0x12 | VK_CAPITAL | 0xA0..=0xA5)
}

// Whether a key is down and has a scan code.
#[tactic(auto, unfolding(session::specs::Focus::written))]
fn is_written(keyboard: Keyboard<'_>, vk: u8) -> bool
    ensures { result ≡ written (keyboard_at keyboard.entry.state.now keyboard.entry.layout.bytes.now) vk }
{
    lookup::keyboard_layout::is_down(keyboard.state, vk as usize)
        && keyboard.layout.scancode_for(vk as u16) != 0
}

// Notes a key where it is written.
#[tactic(auto, unfolding(crate::specs::Written::written_of))]
fn note(keys: &mut FocusKeys, keyboard: Keyboard<'_>, vk: u8)
    requires { length keys.old.items < KEYS }
    ensures { (keys.new.items ≡ keys.old.items ++ written_of (keyboard_at keyboard.entry.state.now keyboard.entry.layout.bytes.now) (vk ∷ [])) × (length keys.new.items ≤ length keys.old.items + 1) }
{
    if is_written(keyboard, vk) {
        keys.push(vk);
    }
}

// Notes the six modifier keys that are written, in the table's order.
fn note_modifiers(keys: &mut FocusKeys, keyboard: Keyboard<'_>)
    requires { length keys.old.items + 6 ≤ KEYS }
    ensures { (keys.new.items ≡ keys.old.items ++ written_of (keyboard_at keyboard.entry.state.now keyboard.entry.layout.bytes.now) modifier_keys) × (length keys.new.items ≤ length keys.old.items + 6) }
{
    for vk in MODIFIER_KEYS {
        note(keys, keyboard, vk);
    }
}

// Notes the other keys that are written, ascending.
fn note_others(keys: &mut FocusKeys, keyboard: Keyboard<'_>)
    requires { length keys.old.items ≤ 7 }
    ensures { (keys.new.items ≡ keys.old.items ++ written_of (keyboard_at keyboard.entry.state.now keyboard.entry.layout.bytes.now) (others_from KEYS 0)) × (length keys.new.items ≤ length keys.old.items + 246) }
{
    for vk in 0..KEY_STATE_SIZE {
        if is_other(vk as u8) {
            note(keys, keyboard, vk as u8);
        }
    }
}

// SCOPE 3.14, the keys that a focus change writes: at gain Caps Lock, the others, the six; at loss Caps Lock, the six, the others.
#[tactic(auto, using(crate::proofs::focus::Keys::gain_keys, crate::proofs::focus::Keys::loss_keys))]
pub fn focus_keys(keyboard: Keyboard<'_>, st: ElementState) -> FocusKeys
    ensures { (result.items ≡ written_of (keyboard_at keyboard.entry.state.now keyboard.entry.layout.bytes.now) (focus_keys st)) × (length result.items ≤ 253) }
{
    let mut keys = FocusKeys::new();
    note(&mut keys, keyboard, VK_CAPITAL);
    match st {
        ElementState::Pressed => {
            note_others(&mut keys, keyboard);
            note_modifiers(&mut keys, keyboard);
        }
        ElementState::Released => {
            note_modifiers(&mut keys, keyboard);
            note_others(&mut keys, keyboard);
        }
    }
    keys
}

// How many events a focus change has.
pub fn focus_count(keyboard: Keyboard<'_>, st: ElementState) -> usize
    ensures { result ≡ length (focus_events (keyboard_at keyboard.entry.state.now keyboard.entry.layout.bytes.now) st) }
{
    focus_keys(keyboard, st).len()
}

// ---- the event of one key

// SCOPE 3.12, the text of a focus event: the logical key's at gain, none at loss.
#[tactic(auto, unfolding(session::specs::Focus::focus_text, keys::specs::Text::text_from))]
fn focus_text(st: ElementState, k: Key) -> KeyText
    ensures { (t : List ℕ) → text_from t result ≡ focus_text st (full k t) }
{
    match st {
        ElementState::Pressed => keys::key_number::to_text(k),
        ElementState::Released => KeyText::Nothing,
    }
}

// The event of a key that a focus change writes, in which a dead key stays one. Of the modifiers it knows the Caps Lock and Num Lock toggles alone.
pub fn synthetic_event(keyboard: Keyboard<'_>, st: ElementState, vk: u8) -> KeyEvent
    ensures { (event_in keyboard.entry.layout.bytes.now result ≡ synthetic_event (keyboard_at keyboard.entry.state.now keyboard.entry.layout.bytes.now) st vk (scan_code_for (maps_of keyboard.entry.layout.bytes.now) vk)) × EventIn keyboard.entry.layout.bytes.now result }
{
    let Keyboard { state, layout } = keyboard;
    let vkey = vk as u16;
    let scancode = layout.scancode_for(vkey);
    let toggles = WindowsModifiers {
        shift: false,
        control: false,
        alt: false,
        caps_lock: lookup::keyboard_layout::caps_lock_on(state),
    };
    let num_lock = lookup::keyboard_layout::num_lock_on(state);
    let logical_key = crate::partial::layout_key(layout, toggles, num_lock, vkey, scancode);
    let key_without_modifiers = crate::partial::plain_key(layout, vkey, scancode);
    let key = logical_key.key;
    let text = focus_text(st, key);
    let physical_key = lookup::keycode::keycode_from_scancode(scancode);
    let location = lookup::keyboard::get_location(layout, scancode);
    KeyEvent {
        physical_key,
        logical_key,
        text,
        location,
        state: st,
        repeat: false,
        is_synthetic: true,
        dead: true,
        key_without_modifiers,
    }
}
