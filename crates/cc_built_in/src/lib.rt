//! The classes that every program has beside those of its file: their superclasses and their methods.
#![tactic(auto)]

mod lookup;
mod names;
pub mod table;
mod text;

pub use lookup::{
    built_in_class, built_in_superclass, is_built_in, is_built_in_throwable, methods_of_class,
};
pub use names::built_in_names;
pub use table::{array_methods, built_in_classes};
pub use text::{spells, units_of};
