// Tests of the layers from outside, through their public calls alone.
#![tactic(auto)]

#[cfg(test)]
mod adjoints;
#[cfg(test)]
mod asking;
#[cfg(test)]
mod holds;
#[cfg(test)]
mod piles;
