// Deposits: what the program does with the bytes that it is given.
#![tactic(auto)]

mod question;
pub mod report;
