// What a message is to the calls, by its kind (SCOPE 2.3).
ghost use Rattle.std.specs.Prelude.{◌≡◌};
ghost use Rattle.session.specs.Calls.{sort_of};
ghost use Rattle.questions.specs.Sorts.{as_sort};

use session::{
    ElementState, Message, WM_CHAR, WM_DEADCHAR, WM_KEYDOWN, WM_KEYUP, WM_KILLFOCUS, WM_SETFOCUS,
    WM_SYSCHAR, WM_SYSDEADCHAR, WM_SYSKEYDOWN, WM_SYSKEYUP,
};

// What a message is to the calls.
#[derive(Clone, Copy)]
pub enum MessageSort {
    KeyDown,
    KeyUp,
    Char,
    DeadChar,
    Focus(ElementState),
    Ignored,
}

const VK_F4: u64 = 0x73;

// Of a system key press wParam decides too; of any other kind the kind alone.
#[tactic(auto, unfolding(crate::specs::Sorts::as_sort, session::specs::Calls::sort_of, area::specs::Look::assoc))]
pub fn sort_of(message: Message) -> MessageSort
    ensures { as_sort result ≡ sort_of message }
{
    match message.kind {
        WM_SETFOCUS => MessageSort::Focus(ElementState::Pressed),
        WM_KILLFOCUS => MessageSort::Focus(ElementState::Released),
        WM_SYSKEYDOWN if message.wparam == VK_F4 => MessageSort::Ignored, // SCOPE 3.2: Alt and F4 close the window
        WM_KEYDOWN | WM_SYSKEYDOWN => MessageSort::KeyDown,
        WM_KEYUP | WM_SYSKEYUP => MessageSort::KeyUp,
        WM_CHAR | WM_SYSCHAR => MessageSort::Char,
        WM_DEADCHAR | WM_SYSDEADCHAR => MessageSort::DeadChar,
        _ => MessageSort::Ignored,
    }
}
