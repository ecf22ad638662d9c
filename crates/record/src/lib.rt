// The records of the areas. docs/AREAS.md has their offsets. `read` reads them, `write` writes numbers, marks, open presses and characters,
// `layout` what is read from the layout, its texts straight from the block, `complete` events from the records that are kept, `typed` the text
// of typed units. SCOPE and a number is a clause of docs/SCOPE.md.
#![tactic(auto)]

pub mod complete;
pub mod layout;
pub mod read;
pub mod typed;
pub mod write;
