//! A builder of DEX files: it is given classes with their members, by names, in any order.
#![tactic(auto)]

mod builder;
mod catches;
mod classes;
mod code;
mod fields;
mod flags;
mod methods;
mod rows;
mod text;
mod units;
mod values;

pub use builder::DexBuilder;
pub use classes::raw_classes;
pub use text::units_of;
pub use units::put_row;
