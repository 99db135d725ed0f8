//! The strongly connected components of a graph, each after those that its edges lead to, by Tarjan's algorithm. Nothing is promised of the answer but that
//! it comes: `descends` judges it.

ghost use Rattle.std.specs.Prelude.{◌≡◌, ◌<◌, ◌^◌, ◌↔◌, length, slice_index, IsTrue};
ghost use Rattle.cc_hierarchy.specs.Graphs.{IsMarked, EdgeDescends, Descends};

use crate::search::no_marks;
use cc_list::List;
use cc_meaning::lists::Rows;
use std::alloc::{AllocError, Global};

/// A number for each node, which falls from component to component, and a mark at each node that may be on a cycle.
#[derive(Drop)]
pub(crate) struct Components {
    pub(crate) levels: Rows,
    pub(crate) suspects: List<bool>,
}

/// A node on the way from a root, and how many of its edges were followed.
#[derive(Clone, Copy)]
struct Visit {
    node: u32,
    followed: usize,
}

/// A walk of a graph in depth. Nodes are entered in the order of `entries`, which count from 1. A node's `low` is the least entry that is known to be
/// reached from it among the nodes of no component yet, which are `open`.
#[derive(Drop)]
struct Walk {
    entries: Rows,
    lows: Rows,
    found: Components,
    path: List<Visit>,
    open: Rows,
    entered: u32,
    closed: u32,
}

/// The number of a node, 0 where it has none.
pub(crate) fn number_of(numbers: &[u32], node: u32) -> u32
    ensures { result ≡ slice_index numbers.now node }
{
    numbers.get(node as usize).copied().unwrap_or(0)
}

fn put_number(numbers: &mut Rows, node: u32, number: u32) {
    if (node as usize) < numbers.len() {
        numbers.set(node as usize, number);
    }
}

/// Whether a node is marked.
pub(crate) fn is_marked(marks: &[bool], node: u32) -> bool
    ensures { IsTrue result ↔ IsMarked marks.now node }
{
    match marks.get(node as usize) {
        Some(marked) => *marked,
        None => false,
    }
}

fn put_mark(marks: &mut List<bool>, node: u32) {
    if (node as usize) < marks.len() {
        marks.set(node as usize, true);
    }
}

impl Walk {
    /// Goes on to a node that wasn't entered.
    fn enter(&mut self, node: u32) -> Result<(), AllocError> {
        self.entered = self.entered.saturating_add(1);
        put_number(&mut self.entries, node, self.entered);
        put_number(&mut self.lows, node, self.entered);
        self.open.push(node)?;
        self.path.push(Visit { node, followed: 0 })
    }

    /// Notes that a node reaches what was entered as the `entry`-th.
    fn lower(&mut self, node: u32, entry: u32) {
        if entry < number_of(self.lows.as_slice(), node) {
            put_number(&mut self.lows, node, entry);
        }
    }

    /// Follows an edge.
    fn follow(&mut self, from: u32, to: u32) -> Result<(), AllocError> {
        if from == to {
            put_mark(&mut self.found.suspects, from);
        }
        let entry = number_of(self.entries.as_slice(), to);
        if entry == 0 {
            return self.enter(to);
        }
        if number_of(self.found.levels.as_slice(), to) == 0 {
            self.lower(from, entry);
        }
        Ok(())
    }

    /// Makes the open nodes from this one on a component.
    fn close(&mut self, node: u32) {
        self.closed = self.closed.saturating_add(1);
        while let Some(member) = self.open.pop() {
            put_number(&mut self.found.levels, member, self.closed);
            if member == node {
                break;
            }
            put_mark(&mut self.found.suspects, member);
            put_mark(&mut self.found.suspects, node);
        }
    }

    /// Leaves a node whose edges were followed.
    fn leave(&mut self, node: u32) {
        let low = number_of(self.lows.as_slice(), node);
        if low == number_of(self.entries.as_slice(), node) {
            self.close(node);
        }
        let before = self.path.as_slice().last().copied();
        if let Some(visit) = before {
            self.lower(visit.node, low);
        }
    }

    /// Goes one edge further, or leaves a node. `false` where none is left.
    fn step(&mut self, graph: &[Rows]) -> Result<bool, AllocError> {
        let Some(visit) = self.path.pop() else {
            return Ok(false);
        };
        let target = match graph.get(visit.node as usize) {
            Some(targets) => targets.get(visit.followed).copied(),
            None => None,
        };
        match target {
            Some(to) => {
                self.path.push(Visit {
                    node: visit.node,
                    followed: visit.followed.saturating_add(1),
                })?;
                self.follow(visit.node, to)?;
            }
            None => self.leave(visit.node),
        }
        Ok(true)
    }

    /// Enters all that is reached from a root.
    fn visit(&mut self, graph: &[Rows], root: u32) -> Result<(), AllocError> {
        if number_of(self.entries.as_slice(), root) != 0 {
            return Ok(());
        }
        self.enter(root)?;
        for _ in 0..u64::MAX {
            if !self.step(graph)? {
                break;
            }
        }
        Ok(())
    }
}

/// A number for each of so many nodes, all 0.
fn no_numbers(alloc: Global, count: usize) -> Result<Rows, AllocError> {
    Ok(List::from_vec(vec![in alloc; 0u32; count]?))
}

/// The components of a graph.
pub(crate) fn find_components(alloc: Global, graph: &[Rows]) -> Result<Components, AllocError>
    requires { length graph.now < 2 ^ 32 }
{
    let mut walk = Walk {
        entries: no_numbers(alloc, graph.len())?,
        lows: no_numbers(alloc, graph.len())?,
        found: Components {
            levels: no_numbers(alloc, graph.len())?,
            suspects: no_marks(alloc, graph.len())?,
        },
        path: List::new(alloc),
        open: List::new(alloc),
        entered: 0,
        closed: 0,
    };
    for root in 0..graph.len() {
        walk.visit(graph, root as u32)?;
    }
    Ok(walk.found)
}
