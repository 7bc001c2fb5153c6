//! Plain texts: lines, fields that blanks separate, numbers, and texts in double quotes.
#![tactic(auto)]

pub mod fields;
pub mod lines;
pub mod numbers;
pub mod quoted;
