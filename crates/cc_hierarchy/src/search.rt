//! What a node of a graph reaches.

ghost use Rattle.std.specs.Prelude.{◌≡◌, ◌⊎◌, ◌+◌, ◌<◌, ◌↔◌, ℕ, length, not, count_by, Contains, IsTrue, IfOk, OnOk};
ghost use Rattle.std.specs.List.{All};
ghost use Rattle.cc_hierarchy.specs.Graphs.{IsMarked, IsWhole, Reaches};

use cc_list::List;
use cc_meaning::lists::Rows;
use std::alloc::{AllocError, Global};

/// A mark for each of so many nodes, none of them set.
pub(crate) fn no_marks(alloc: Global, count: usize) -> Result<List<bool>, AllocError>
    ensures length { IfOk result (λ marks. length marks ≡ count) }
    ensures none { IfOk result (λ marks. (node : ℕ) → ¬ IsMarked marks node) }
{
    Ok(List::from_vec(vec![in alloc; false; count]?))
}

/// Marks a node. One that wasn't marked goes to the end of the nodes that are awaited.
fn mark(node: u32, marks: &mut List<bool>, awaited: &mut Rows) -> Result<(), AllocError>
    requires { node < length marks.old }
    ensures length { length marks.new ≡ length marks.old }
    ensures marked { OnOk result ((other : ℕ) → IsMarked marks.new other ↔ (IsMarked marks.old other ⊎ (other ≡ node))) }
    ensures awaited { OnOk result ((other : ℕ) → IsMarked marks.new other → IsMarked marks.old other ⊎ Contains awaited.new other) }
    ensures kept { OnOk result ((other : ℕ) → Contains awaited.old other → Contains awaited.new other) }
    ensures all { OnOk result ((other : ℕ) → Contains awaited.new other → Contains awaited.old other ⊎ (other ≡ node)) }
    ensures spent { OnOk result (count_by not marks.new + length awaited.new ≡ count_by not marks.old + length awaited.old) }
{
    if !*marks.at(node as usize) {
        marks.set(node as usize, true);
        awaited.push(node)?;
    }
    Ok(())
}

/// Marks these nodes. Those that weren't marked go to the end of the nodes that are awaited.
fn mark_all(nodes: &[u32], marks: &mut List<bool>, awaited: &mut Rows) -> Result<(), AllocError>
    requires { (node : ℕ) → Contains nodes.now node → node < length marks.old }
    ensures length { length marks.new ≡ length marks.old }
    ensures marked { OnOk result ((other : ℕ) → IsMarked marks.new other ↔ (IsMarked marks.old other ⊎ Contains nodes.now other)) }
    ensures awaited { OnOk result ((other : ℕ) → IsMarked marks.new other → IsMarked marks.old other ⊎ Contains awaited.new other) }
    ensures kept { OnOk result ((other : ℕ) → Contains awaited.old other → Contains awaited.new other) }
    ensures all { OnOk result ((other : ℕ) → Contains awaited.new other → Contains awaited.old other ⊎ Contains nodes.now other) }
    ensures spent { OnOk result (count_by not marks.new + length awaited.new ≡ count_by not marks.old + length awaited.old) }
{
    for node in nodes {
        mark(*node, marks, awaited)?;
    }
    Ok(())
}

/// Whether a way of one edge or more leads from a node back to it.
pub(crate) fn reaches_itself(
    alloc: Global,
    graph: &[Rows],
    start: usize,
) -> Result<bool, AllocError>
    requires whole { IsWhole graph.now }
    requires start { start < length graph.now }
    ensures { IfOk result (λ reaches. IsTrue reaches ↔ Reaches graph.now start start) }
{
    let mut marks = no_marks(alloc, graph.len())?;
    let mut awaited = Rows::new(alloc);
    mark_all(graph[start].as_slice(), &mut marks, &mut awaited)?;
    while let Some(node) = awaited.pop() {
        mark_all(graph[node as usize].as_slice(), &mut marks, &mut awaited)?;
    }
    Ok(*marks.at(start))
}
