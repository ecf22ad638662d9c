// The text of a station trace and of what its replay prints: numbers as text, the forms of the lines that are read, the lines that are written.
#![tactic(auto)]

pub mod form;
mod numeral;
pub mod print;
