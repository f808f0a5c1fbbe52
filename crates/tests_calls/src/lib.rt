//! Tests of consents, requests and calls.
#![tactic(auto)]

#[cfg(test)]
mod asks;
#[cfg(test)]
mod browser;
#[cfg(test)]
mod call;
#[cfg(test)]
mod call_assertions;
#[cfg(test)]
mod call_dialogs;
#[cfg(test)]
mod call_inputs;
#[cfg(test)]
mod call_windows;
#[cfg(test)]
mod call_words;
#[cfg(test)]
mod consent;
#[cfg(test)]
mod direct;
#[cfg(test)]
mod disconnect;
#[cfg(test)]
mod disconnect_inputs;
#[cfg(test)]
mod disconnect_words;
#[cfg(test)]
mod lines;
#[cfg(test)]
mod offers;
#[cfg(test)]
mod replies;
#[cfg(test)]
mod request;
#[cfg(test)]
mod several;
#[cfg(test)]
mod several_effects;
#[cfg(test)]
mod several_settled;
#[cfg(test)]
mod several_words;
#[cfg(test)]
mod values;
