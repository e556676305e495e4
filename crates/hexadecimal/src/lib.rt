// Hexadecimal: digits, bytes as text; and the search for a byte.
#![tactic(auto)]

pub mod digits;
pub mod search;
pub mod text;
