//! Names of a program's classes and members: what a name names, and how a method is printed.
#![tactic(auto)]

mod lookup;
mod methods;
mod names;

pub use lookup::{class_named, field_named};
pub use methods::{method_name, method_names};
pub use names::{add_ascii, add_class_name, add_descriptor, field_name, is_ascii};
