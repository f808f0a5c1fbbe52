//! Tests of script lines and transcript lines.
#![tactic(auto)]

#[cfg(test)]
mod check;
#[cfg(test)]
mod print;
#[cfg(test)]
mod script;
#[cfg(test)]
mod script_calls;
#[cfg(test)]
mod script_events;
#[cfg(test)]
mod script_pairs;
#[cfg(test)]
mod script_permissions;
#[cfg(test)]
mod script_pieces;
