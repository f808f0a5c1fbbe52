//! Tests of replies, and of what is read in them.
#![tactic(auto)]

#[cfg(test)]
mod accounts;
#[cfg(test)]
mod damage;
#[cfg(test)]
mod direct;
#[cfg(test)]
mod memory;
#[cfg(test)]
mod offers;
#[cfg(test)]
mod provider;
#[cfg(test)]
mod reply;
#[cfg(test)]
mod rules;
#[cfg(test)]
mod steps;
#[cfg(test)]
mod token;
