//! The members of a program: all in the order of their whole names, found by the rows of a file, and made.
#![tactic(auto)]

mod field_rows;
mod made_built_in;
mod making_fields;
mod making_methods;
mod method_rows;
mod named;
mod order;
mod planned_built_in;
mod planned_fields;
mod planned_methods;
mod sources;
mod tables;
mod taking;

pub use field_rows::field_links;
pub use making_fields::fields;
pub use making_methods::methods;
pub use method_rows::method_links;
pub use planned_fields::field_plans;
pub use planned_methods::method_plans;
