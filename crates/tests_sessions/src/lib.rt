//! Tests of sessions, and of two scripts.
#![tactic(auto)]

#[cfg(test)]
mod limits;
#[cfg(test)]
mod lines;
#[cfg(test)]
mod pages;
#[cfg(test)]
mod permissions;
#[cfg(test)]
mod steps;
#[cfg(test)]
mod twins;
#[cfg(test)]
mod views;
