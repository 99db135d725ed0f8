//! The tables of a file that is built: a row for each thing that is named, in the order of the format, found by what it names.
#![tactic(auto)]

mod descriptor;
mod members;
mod names;
mod needs;
mod order;
mod places;
mod prototype;
mod prototypes;
mod row;
mod row_order;
mod rows;
mod tables;
mod text_rows;
mod texts;

pub use members::{field_row, method_row};
pub use prototype::split_prototype;
pub use prototypes::proto_row;
pub use row::row_of;
pub use tables::tables_of;
pub use text_rows::{text_row, type_row};
