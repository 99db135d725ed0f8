//! The first node of a graph that is on a cycle.

ghost use Rattle.std.specs.Prelude.{◌≡◌, ◌<◌, ◌^◌, ◌↔◌, ℕ, length, Contains, IsTrue, IfOk, MatchOption};
ghost use Rattle.cc_hierarchy.specs.Graphs.{IsMarked, IsWhole, Reaches, EdgeDescends, Descends, IsFirstOnCycle};

use crate::components::{find_components, is_marked, number_of};
use crate::search::reaches_itself;
use cc_meaning::lists::Rows;
use std::alloc::{AllocError, Global};

/// Whether along an edge levels fall, or they stay and the edge is of a suspect.
fn edge_descends(levels: &[u32], suspects: &[bool], from: u32, to: u32) -> bool
    ensures { IsTrue result ↔ EdgeDescends levels.now suspects.now from to }
{
    let low = number_of(levels, to);
    let high = number_of(levels, from);
    low < high || (low == high && is_marked(suspects, from))
}

/// The same of a node's edges.
fn edges_descend(levels: &[u32], suspects: &[bool], from: u32, targets: &[u32]) -> bool
    ensures { IsTrue result → (to : ℕ) → Contains targets.now to → EdgeDescends levels.now suspects.now from to }
{
    for to in targets {
        if !edge_descends(levels, suspects, from, *to) {
            return false;
        }
    }
    true
}

/// The same of all edges.
fn descends(graph: &[Rows], levels: &[u32], suspects: &[bool]) -> bool
    requires { length graph.now < 2 ^ 32 }
    ensures { IsTrue result → Descends graph.now levels.now suspects.now }
{
    for (from, targets) in graph.iter().enumerate() {
        if !edges_descend(levels, suspects, from as u32, targets.as_slice()) {
            return false;
        }
    }
    true
}

/// Whether a node is on a cycle. Where levels certify that suspects alone can be on one, no search begins at another node.
fn is_on_cycle(
    alloc: Global,
    graph: &[Rows],
    suspects: &[bool],
    certified: bool,
    node: usize,
) -> Result<bool, AllocError>
    requires whole { IsWhole graph.now }
    requires node { node < length graph.now }
    requires certified { IsTrue certified → (other : ℕ) → ¬ IsMarked suspects.now other → ¬ Reaches graph.now other other }
    requires few { length graph.now < 2 ^ 32 }
    ensures { IfOk result (λ reaches. IsTrue reaches ↔ Reaches graph.now node node) }
{
    if certified && !is_marked(suspects, node as u32) {
        return Ok(false);
    }
    reaches_itself(alloc, graph, node)
}

/// The first node of a graph that is on a cycle.
pub(crate) fn first_on_cycle(alloc: Global, graph: &[Rows]) -> Result<Option<u32>, AllocError>
    requires whole { IsWhole graph.now }
    requires few { length graph.now < 2 ^ 32 }
    ensures { IfOk result (λ found. MatchOption found ((node : ℕ) → ¬ Reaches graph.now node node) (IsFirstOnCycle graph.now)) }
{
    let found = find_components(alloc, graph)?;
    let suspects = found.suspects.as_slice();
    let certified = descends(graph, found.levels.as_slice(), suspects);
    for node in 0..graph.len() {
        if is_on_cycle(alloc, graph, suspects, certified, node)? {
            return Ok(Some(node as u32));
        }
    }
    Ok(None)
}
