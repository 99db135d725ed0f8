//! Tests of whole programs: read, checked and refused.
#![tactic(auto)]

#[cfg(test)]
mod check_words;
#[cfg(test)]
mod checking;
#[cfg(test)]
mod checks;
#[cfg(test)]
mod command;
#[cfg(test)]
mod exceptions;
#[cfg(test)]
mod faults;
#[cfg(test)]
mod listings_read;
#[cfg(test)]
mod malformed;
#[cfg(test)]
mod reading;
#[cfg(test)]
mod sample;
#[cfg(test)]
mod whole;
#[cfg(test)]
mod words;
