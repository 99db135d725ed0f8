//! Tests of register types, the world of a run, built-in methods and scripts.
#![tactic(auto)]

#[cfg(test)]
mod methods;
#[cfg(test)]
mod registers;
#[cfg(test)]
mod scripts;
#[cfg(test)]
mod worlds;
