// Worked examples: calls, and what the definitions of session answer to them. No function.
#![tactic(auto)]

pub mod values;
