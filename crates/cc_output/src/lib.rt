//! What is written: plans that are carried out over two sinks, lines, and the faults that end a command.
#![tactic(auto)]

mod carry;
mod ended;
mod fault;
mod fields;
mod file_words;
mod plan;
mod shown;
mod travel;
mod verify_words;

pub use carry::carry_out;
pub use ended::{ended_line, ended_status};
pub use fault::Fault;
pub use plan::Plan;
pub use shown::{put_text, put_units};
pub use travel::put_travel_line;
