//! Tests of slices.
#![tactic(auto)]

#[cfg(test)]
mod lines;
#[cfg(test)]
mod slices;
#[cfg(test)]
mod whole;
