#![tactic(auto)]

// The run sheet: the judgement of one command at its place, what is known after it, and the index of an accepted sheet.
pub mod check;
pub mod checked;
pub mod index;
pub mod learned;
