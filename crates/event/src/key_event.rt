// tao's finalize, of the press that no character message follows. What characters complete is the module `character`'s.
ghost use Rattle.std.specs.Prelude.{List, [], ◌≡◌, ℕ};
ghost use Rattle.session.specs.Builder.{press_event};
ghost use Rattle.session.specs.InBlock.{info_in, event_in, InfoIn, EventIn};
ghost use Rattle.event.specs.PressKey.{press_key};

use keys::{Key, KeyText, NativeKeyCode};
use lookup::keyboard_layout::LayoutKey;
use session::{ElementState, KeyEvent, PartialKeyEventInfo};

// SCOPE 3.6, its logical key: unidentified where a typed text might have become it, since none came.
fn press_key(n: PartialKeyEventInfo, mark: bool) -> LayoutKey
    ensures { result ≡ press_key n mark }
{
    if mark {
        return LayoutKey {
            key: Key::Unidentified(NativeKeyCode::Windows(n.scancode)),
            start: 0,
            len: 0,
        };
    }
    n.logical_key
}

// SCOPE 3.6, its event: it has no text.
pub fn press_event(n: PartialKeyEventInfo, mark: bool) -> KeyEvent
    ensures { (block : List ℕ) → InfoIn block n → (vkey : ℕ) → (event_in block result ≡ press_event (record { info = info_in block n; vkey = vkey; mark = mark; units = [] })) × EventIn block result }
{
    let physical_key = lookup::keycode::keycode_from_scancode(n.scancode);
    let logical_key = press_key(n, mark);
    let location = n.location;
    let key_without_modifiers = n.key_without_modifiers;
    KeyEvent {
        physical_key,
        logical_key,
        text: KeyText::Nothing,
        location,
        state: ElementState::Pressed,
        repeat: n.is_repeat,
        is_synthetic: false,
        dead: false,
        key_without_modifiers,
    }
}
