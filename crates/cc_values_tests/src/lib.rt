//! Tests of the crates at the bottom: the list and the plain types, files and sinks, plans, texts, frames, threads. They stand in a crate of their own, since a crate with tests is proved twice.
#![tactic(auto)]

#[cfg(test)]
mod frames;
#[cfg(test)]
mod list;
#[cfg(test)]
mod outside;
#[cfg(test)]
mod plans;
#[cfg(test)]
mod program;
#[cfg(test)]
mod texts;
#[cfg(test)]
mod threads;
