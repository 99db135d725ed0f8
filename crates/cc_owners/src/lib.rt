//! Which class the members belong to that a file's rows name.
#![tactic(auto)]

mod beyond;
mod built_in;
mod chain;
mod climb;
mod field_chain;
mod fields;
mod index;
mod linked;
mod members;
mod methods;
mod place;
mod search;

pub use fields::field_owners;
pub use methods::method_owners;
