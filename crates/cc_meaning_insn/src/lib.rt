//! What units of code spell, and how instructions reckon.
#![tactic(auto)]

mod forms;
mod laws;

pub use forms::{
    Bare, Constant, Distant, Listed, Named, OneUnit, Opcode, Pair, PairNamed, Single, ThreeUnits,
    Triple, TwoUnits,
};
pub use laws::{
    division_agrees, floor_agrees, insn_agrees, insn_faults, opcode_table, wrap_agrees,
};
