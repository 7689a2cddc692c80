// Tests of loading, reduction and amplitudes from outside, against a sum that the tests make themselves.
#![tactic(auto)]

#[cfg(test)]
mod against_sums;
#[cfg(test)]
mod limits;
#[cfg(test)]
mod making;
#[cfg(test)]
mod program;
#[cfg(test)]
mod questions;
#[cfg(test)]
mod samples;
#[cfg(test)]
mod sums;
#[cfg(test)]
mod worked;
