// Tests of the archive from outside, through its public calls alone.
#![tactic(auto)]

#[cfg(test)]
mod circuit_items;
#[cfg(test)]
mod circuit_refusals;
#[cfg(test)]
mod lines;
#[cfg(test)]
mod program;
#[cfg(test)]
mod slots;
#[cfg(test)]
mod vocabulary;
