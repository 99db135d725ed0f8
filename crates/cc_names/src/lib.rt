//! The names of a file's classes, texts and members in their order, and the numbers and types that they give.
#![tactic(auto)]

mod classes;
mod listed;
mod members;
mod order;
mod pieces;
mod place;
mod rows;
mod types;

pub use classes::class_names;
pub use listed::{numbers_of_texts, texts};
pub use members::{
    compare_fields, compare_methods, prototype_piece, sorted_fields, sorted_methods,
};
pub use order::{Naming, in_order, is_behind_last};
pub use pieces::{Pieces, compare};
pub use place::find;
pub use rows::{text, type_name};
pub use types::{type_of, types_of_rows};
