//! Reader of the classes of a DEX file: class data, code items with their tries and handlers, and static values.
#![tactic(auto)]

mod classes;
mod code;
mod flaw;
mod little;
mod members;
mod methods;
mod numbers;
mod rows;
mod tries;
mod values;
mod walk;

pub use classes::read_classes;
