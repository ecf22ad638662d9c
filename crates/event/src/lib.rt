// What tao makes of presses, releases, characters and focus changes, as values without text: a key of the layout names its text by where it
// stands in the lent block, and what completes a held press says where text and logical key come from. The queue is not known here.
// SCOPE and a number is a clause of docs/SCOPE.md.
#![tactic(auto)]

pub mod character;
mod fake;
pub mod focus;
pub mod key_event;
pub mod keyboard;
pub mod partial;
pub mod peeked;
