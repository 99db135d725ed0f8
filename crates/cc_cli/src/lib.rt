//! CloneCloud as one call, over whatever the outside is.
#![tactic(auto)]

mod command;
mod offload;
mod run;

pub use run::run_words;
