//! Profiles, partitions and certificates.

use crate::lists::{MethodIx, MethodList, Numbers};
use cc_list::List;

/// What an instruction costs on the device and on the clone, and what a migration and a byte that it sends cost, all in one unit of cost.
#[derive(Clone, Copy)]
pub struct Weights {
    pub device: u32,
    pub clone: u32,
    pub fixed: u32,
    pub byte: u32,
}

/// An invocation: its method, the place of the one that it was called by, its cost on the device and on the clone with all invocations below it,
/// and the bytes of the states that a migration at its entry and at its end would send.
#[derive(Clone, Copy)]
pub struct Node {
    pub method: MethodIx,
    pub parent: u32,
    pub device: u64,
    pub clone: u64,
    pub entry_bytes: u32,
    pub exit_bytes: u32,
}

/// Invocations, in the order of their entries, each at its place counted from 0.
pub type Nodes = List<Node>;

/// A profiled run: its invocations, and what a migration and a byte of it cost.
#[derive(Drop)]
pub struct Execution {
    pub fixed: u32,
    pub byte: u32,
    pub nodes: Nodes,
}

/// Profiled runs.
pub type Executions = List<Execution>;

/// The runs by which partitions are judged.
#[derive(Drop)]
pub struct Profiles {
    pub executions: Executions,
}

/// The methods at whose entry the thread moves to the clone, in rising order.
#[derive(Drop)]
pub struct Partition {
    pub moved: MethodList,
}

/// What a search has chosen for a method: that it isn't moved, that it is, or nothing yet.
#[derive(Clone, Copy)]
pub enum Choice {
    Stay,
    Move,
    Undecided,
}

/// A choice for each method that may be moved, in rising order of these methods.
pub type Choices = List<Choice>;

/// A partition of which a part is chosen.
#[derive(Drop)]
pub struct Partial {
    pub choices: Choices,
}

/// A cost, and the tree of a search that shows that none is lower, in preorder: a number from 0 on splits the candidate of that place, first staying and then
/// moved; -1 is a leaf where a rule is broken, and -2 one whose bound is no lower than the cost.
#[derive(Drop)]
pub struct Certificate {
    pub cost: u64,
    pub tree: Numbers,
}
