//! Tests of instructions, their arithmetic, and of bodies.
#![tactic(auto)]

#[cfg(test)]
mod arithmetic;
#[cfg(test)]
mod bodies_sample;
#[cfg(test)]
mod decoding;
#[cfg(test)]
mod linking;
#[cfg(test)]
mod opcodes;
#[cfg(test)]
mod reading;
#[cfg(test)]
mod shown;
#[cfg(test)]
mod uses;
