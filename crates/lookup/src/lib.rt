// The lookups. The message part relies on these contracts alone (SCOPE 10.3; SCOPE and a number is a clause of docs/SCOPE.md).
#![tactic(auto)]

pub mod block;
pub mod keyboard;
pub mod keyboard_layout;
pub mod keycode;
