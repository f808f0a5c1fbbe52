//! Tests of URLs, suffixes, cookies and statuses.
#![tactic(auto)]

#[cfg(test)]
mod cookie;
#[cfg(test)]
mod filled;
#[cfg(test)]
mod io;
#[cfg(test)]
mod jar;
#[cfg(test)]
mod limit;
#[cfg(test)]
mod lines;
#[cfg(test)]
mod links;
#[cfg(test)]
mod numbers;
#[cfg(test)]
mod origin;
#[cfg(test)]
mod status;
#[cfg(test)]
mod suffix;
#[cfg(test)]
mod table;
#[cfg(test)]
mod values;
