// What was peeked behind a message, what of it counts, and what it tells: whether a press is held, whether more characters are coming, whether a key is fake.
ghost use Rattle.std.specs.Prelude.{true, not, ◌&&◌, List, ◌≡◌, ℕ};
ghost use Rattle.keys.specs.Text.{bare_of};
ghost use Rattle.session.specs.Builder.{fake};
ghost use Rattle.session.specs.Calls.{seen, holds, more_coming};
ghost use Rattle.session.specs.Event.{Info};
ghost use Rattle.event.specs.Written.{keyboard_at};

use keys::Key;
use lookup::block::Layout;
use session::{
    Message, WM_CHAR, WM_KEYDOWN, WM_KEYUP, WM_QUIT, WM_SYSCHAR, WM_SYSKEYDOWN, WM_SYSKEYUP,
};

// SCOPE 3.17: what counts as peeked. PeekMessage hands out WM_QUIT whatever the filter: it belongs to no key, and counts as nothing.
#[tactic(auto, unfolding(session::specs::Calls::seen, area::specs::Look::assoc))]
pub fn seen(peeked: Option<Message>) -> Option<Message>
    ensures { result ≡ seen peeked }
{
    peeked.filter(|message| message.kind != WM_QUIT)
}

// SCOPE 3.5: whether what was peeked makes a press the held one: any message but a press or a release. A press with nothing behind it is complete.
#[tactic(auto, unfolding(session::specs::Calls::holds, area::specs::Look::assoc))]
pub fn holds(peeked: Option<Message>) -> bool
    ensures { result ≡ holds peeked }
{
    peeked.is_some_and(|message| {
        !matches!(
            message.kind,
            WM_KEYDOWN | WM_KEYUP | WM_SYSKEYDOWN | WM_SYSKEYUP
        )
    })
}

// SCOPE 3.10: whether more characters are coming.
#[tactic(auto, unfolding(session::specs::Calls::more_coming, area::specs::Look::assoc))]
fn more_coming(peeked: Option<Message>) -> bool
    ensures { result ≡ more_coming peeked }
{
    peeked.is_some_and(|message| matches!(message.kind, WM_CHAR | WM_SYSCHAR))
}

// Whether a character completes the held press: one is held, and no more characters are coming.
pub fn completes(held: bool, peeked: Option<Message>) -> bool
    ensures { result ≡ (held && not (more_coming peeked)) }
{
    held && !more_coming(peeked)
}

// SCOPE 3.8: whether the key is fake, by what was peeked. With nothing peeked no right Alt key is behind it.
pub fn is_fake(layout: Layout<'_>, key: Key, peeked: Option<Message>) -> bool
    ensures { (state : List ℕ) (n : Info) → bare_of n.logical_key ≡ key → result ≡ fake (keyboard_at state layout.entry.bytes.now) n peeked }
{
    // Not `is_some_and`: nothing is known of a closure that captures a Layout, so its proof doesn't close.
    match peeked {
        Some(message) => crate::fake::is_current_fake(layout, key, message),
        None => false,
    }
}
