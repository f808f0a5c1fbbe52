//! Tests of whole runs.
#![tactic(auto)]

#[cfg(test)]
mod audits;
#[cfg(test)]
mod calls;
#[cfg(test)]
mod checks;
#[cfg(test)]
mod compares;
#[cfg(test)]
mod dialogs;
#[cfg(test)]
mod forms;
#[cfg(test)]
mod lines;
#[cfg(test)]
mod made;
#[cfg(test)]
mod pages;
#[cfg(test)]
mod permissions;
#[cfg(test)]
mod pieces;
#[cfg(test)]
mod runs;
#[cfg(test)]
mod saves;
#[cfg(test)]
mod several;
#[cfg(test)]
mod slices;
#[cfg(test)]
mod tied;
#[cfg(test)]
mod tokens;
#[cfg(test)]
mod twins;
#[cfg(test)]
mod windows;
