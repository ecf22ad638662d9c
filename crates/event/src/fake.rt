// Whether a key is the fake Control that comes with AltGr: tao's is_current_fake.
ghost use Rattle.std.specs.Prelude.{true, List, [], ◌≡◌, ℕ, Some};
ghost use Rattle.keys.specs.Text.{full, bare_of};
ghost use Rattle.session.specs.Builder.{is_control, fake};
ghost use Rattle.session.specs.Event.{Info};
ghost use Rattle.event.specs.Written.{keyboard_at};

use keys::Key;
use lookup::block::Layout;
use session::Message;

// Whether a key is Control, the left or the right one.
#[tactic(auto, unfolding(session::specs::Builder::is_control, keys::specs::Text::full))]
fn is_control(key: Key) -> bool
    ensures { result ≡ is_control (full key []) }
{
    matches!(key, Key::Named(keys::CONTROL))
}

// SCOPE 3.8, tao's is_current_fake: on an AltGr layout, Control before the right Alt key, whose lParam was peeked. The logical key's case is
// enough: Control has no text.
#[tactic(auto, using(crate::proofs::fake::Fake::bare_control), unfolding(session::specs::Builder::fake))]
pub fn is_current_fake(layout: Layout<'_>, key: Key, next: Message) -> bool
    ensures { (state : List ℕ) (n : Info) → bare_of n.logical_key ≡ key → result ≡ fake (keyboard_at state layout.entry.bytes.now) n (Some next) }
{
    layout.has_alt_graph()
        && is_control(key)
        && lookup::keyboard::ex_scancode_from_lparam(next.lparam) == 0xE038
}
