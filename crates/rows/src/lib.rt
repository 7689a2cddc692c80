// Slots of the working diagram, and sets of slots as rows of bits that are worked a word at a time.
#![tactic(auto)]

pub mod row;
pub mod slot;
pub mod slots;
