//! The bytes of a whole DEX file for tables and classes.
#![tactic(auto)]

mod classes;
mod file;
mod head_laws;
mod header;
mod layout;
mod numbers;
mod offsets;
mod section;
mod table_rows;
mod tables;
mod widths;
mod writer;

pub use file::whole_file;
pub use head_laws::fitting_rows_are_small;
pub use layout::data_start;
pub use offsets::Offsets;
pub use writer::write_file;
