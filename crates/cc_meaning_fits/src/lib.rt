//! What it is for a run's values, registers, frames and worlds to fit a typing, and what soundness says.
#![tactic(auto)]
