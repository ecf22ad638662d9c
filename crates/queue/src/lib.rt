// tao's PendingEventQueue over the session area and the answer area. Laws on a session's area as a whole stand at the root of proofs/.
// SCOPE and a number is a clause of docs/SCOPE.md.
#![tactic(auto)]

pub mod answers;
pub mod event_queue;
pub mod held_event;
pub mod held_press;
pub mod pending;
