//! Classes from the topmost down.

ghost use Rattle.std.specs.Prelude.{◌≡◌, ◌⊎◌, ◌↔◌, ◌+◌, ◌<◌, ◌^◌, ℕ, length, not, count_by, IfOk};
ghost use Rattle.std.specs.Bool.{OnTrue, OnFalse};
ghost use Rattle.cc_hierarchy.specs.Graphs.{IsMarked};
ghost use Rattle.cc_hierarchy.specs.FromTheTop.{AllLead, AreFromTheTop, ClassesLead, IsClimb};

use cc_list::List;
use cc_meaning::fault::Memory;
use cc_meaning::lists::{ClassIx, ClassList};
use cc_meaning_program::{Outline, Outlines};
use std::alloc::{AllocError, Global};

/// Where each class has an ancestry, going up from any class comes to an end.
pub fn classes_lead()
    ensures { ClassesLead }
{}

/// A mark for each of so many classes, none of them set.
fn no_marks(alloc: Global, count: usize) -> Result<List<bool>, AllocError>
    ensures length { IfOk result (λ marks. length marks ≡ count) }
    ensures none { IfOk result (λ marks. (class : ℕ) → ¬ IsMarked marks class) }
{
    Ok(List::from_vec(vec![in alloc; false; count]?))
}

/// Marks a class. Whether it wasn't marked.
fn enter(class: ClassIx, marks: &mut List<bool>) -> bool
    requires { class < length marks.old }
    ensures length { length marks.new ≡ length marks.old }
    ensures marked { (other : ℕ) → IsMarked marks.new other ↔ (IsMarked marks.old other ⊎ (other ≡ class)) }
    ensures fresh { OnTrue result (¬ IsMarked marks.old class) }
    ensures known { OnFalse result (IsMarked marks.old class) }
    ensures spent { OnTrue result (count_by not marks.new + 1 ≡ count_by not marks.old) }
{
    if *marks.at(class as usize) {
        return false;
    }
    marks.set(class as usize, true);
    true
}

/// Goes up from a class to one that is marked, or to the top, and marks the classes on the way.
fn climb(
    alloc: Global,
    outlines: &[Outline],
    from: ClassIx,
    marks: &mut List<bool>,
) -> Result<ClassList, AllocError>
    requires ends { AllLead outlines.now }
    requires wide { length marks.old ≡ length outlines.now }
    requires from { from < length outlines.now }
    ensures wide { length marks.new ≡ length outlines.now }
    ensures climbed { IfOk result (IsClimb outlines.now marks.old marks.new from) }
{
    let mut passed = List::new(alloc);
    let mut next = Some(from);
    while let Some(class) = next {
        if !enter(class, marks) {
            return Ok(passed);
        }
        passed.push(class)?;
        next = outlines[class as usize].superclass;
    }
    Ok(passed)
}

/// All class numbers, each once, and each behind that of its superclass.
///
/// # Errors
///
/// `Memory`: there is no memory.
pub fn from_the_top(alloc: Global, outlines: &Outlines) -> Result<ClassList, Memory>
    requires few { length outlines.now < 2 ^ 32 }
    requires ends { AllLead outlines.now }
    ensures { IfOk result (AreFromTheTop outlines.now) }
{
    let mut marks = no_marks(alloc, outlines.len())?;
    let mut order = List::new(alloc);
    for number in 0..outlines.len() as u32 {
        let mut passed = climb(alloc, outlines.as_slice(), number, &mut marks)?.into_vec();
        passed.reverse();
        order.append(List::from_vec(passed))?;
    }
    Ok(order)
}
