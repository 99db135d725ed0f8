//! The fields of an instance of each class.

ghost use Rattle.std.specs.Prelude.{◌≡◌, [], ◌<◌, ◌^◌, ◌↔◌, ℕ, Some, None, IsTrue, replicate, length, slice_get, IfOk, OnOk};
ghost use Rattle.cc_program.specs.Layouts.{superclass_at, HasHeights, Stands, AreRight, IsLayout, LeadsUp, BeginsWith};

use cc_list::List;
use cc_meaning::lists::{ClassIx, ClassList, FieldList};
use cc_meaning_program::Outline;
use std::alloc::{AllocError, Global};

/// The superclass of a class.
#[tactic(auto, unfolding(crate::specs::Layouts::superclass_at, crate::specs::Layouts::superclass_in))]
fn superclass(outlines: &[Outline], class: ClassIx) -> Option<ClassIx>
    ensures { result ≡ superclass_at outlines.now class }
{
    match outlines.get(class as usize) {
        Some(outline) => outline.superclass,
        None => None,
    }
}

/// Whether the layout of a class stands.
fn stands(layouts: &[Option<FieldList>], class: ClassIx) -> bool
    ensures yes { IsTrue result ↔ Stands layouts.now class }
{
    match layouts.get(class as usize) {
        Some(Some(_)) => true,
        Some(None) | None => false,
    }
}

/// The classes from one upward, up to one whose layout stands or to the topmost.
fn unsettled(
    alloc: Global,
    outlines: &[Outline],
    layouts: &[Option<FieldList>],
    class: ClassIx,
) -> Result<ClassList, AllocError>
    requires there { class < length outlines.now }
    requires heights { HasHeights outlines.now }
    ensures leads { IfOk result (LeadsUp outlines.now layouts.now) }
    ensures begins { IfOk result (λ path. BeginsWith layouts.now path class) }
{
    let mut path = ClassList::new(alloc);
    let mut next = Some(class);
    while let Some(above) = next {
        if stands(layouts, above) {
            break;
        }
        path.push(above)?;
        next = superclass(outlines, above);
    }
    Ok(path)
}

/// The fields that a class has from its superclass, where that one's layout stands.
fn inherited(
    alloc: Global,
    outlines: &[Outline],
    layouts: &[Option<FieldList>],
    class: ClassIx,
) -> Result<FieldList, AllocError>
    requires { (above : ℕ) → superclass_at outlines.now class ≡ Some above → Stands layouts.now above }
    ensures top { IfOk result (λ fields. superclass_at outlines.now class ≡ None → fields ≡ []) }
    ensures below { IfOk result (λ fields. (above : ℕ) → superclass_at outlines.now class ≡ Some above → slice_get layouts.now above ≡ Some (Some fields)) }
{
    let Some(above) = superclass(outlines, class) else {
        return Ok(FieldList::new(alloc));
    };
    match layouts.get(above as usize) {
        Some(Some(fields)) => fields.copy(),
        Some(None) | None => unreachable!(),
    }
}

/// The layout of a class whose superclass's stands, or that has none.
fn layout(
    alloc: Global,
    outlines: &[Outline],
    own: &[FieldList],
    layouts: &[Option<FieldList>],
    class: ClassIx,
) -> Result<FieldList, AllocError>
    requires own { length own.now ≡ length outlines.now }
    requires there { class < length outlines.now }
    requires right { AreRight outlines.now own.now layouts.now }
    requires above { (above : ℕ) → superclass_at outlines.now class ≡ Some above → Stands layouts.now above }
    ensures { IfOk result (IsLayout outlines.now own.now class) }
{
    let mut fields = inherited(alloc, outlines, layouts, class)?;
    fields.extend_from_slice(own[class as usize].as_slice())?;
    Ok(fields)
}

/// Makes the layout of a class stand, and those of the classes above it.
fn settle(
    alloc: Global,
    outlines: &[Outline],
    own: &[FieldList],
    layouts: &mut List<Option<FieldList>>,
    class: ClassIx,
) -> Result<(), AllocError>
    requires own { length own.now ≡ length outlines.now }
    requires there { class < length outlines.now }
    requires heights { HasHeights outlines.now }
    requires right { AreRight outlines.now own.now layouts.old }
    ensures right { OnOk result (AreRight outlines.now own.now layouts.new) }
    ensures stands { OnOk result (Stands layouts.new class) }
    ensures kept { OnOk result ((other : ℕ) → Stands layouts.old other → Stands layouts.new other) }
{
    let mut path = unsettled(alloc, outlines, layouts.as_slice(), class)?;
    while let Some(next) = path.pop() {
        let fields = layout(alloc, outlines, own, layouts.as_slice(), next)?;
        layouts.set(next as usize, Some(fields));
    }
    Ok(())
}

/// So many places for layouts, none of which stands.
fn no_layouts(alloc: Global, count: usize) -> Result<List<Option<FieldList>>, AllocError>
    ensures { IfOk result (λ layouts. layouts ≡ replicate count None) }
{
    let mut layouts = List::new(alloc);
    for _ in 0..count {
        layouts.push(None)?;
    }
    Ok(layouts)
}

/// The layouts of all classes, each of which stands.
pub(crate) fn layouts(
    alloc: Global,
    outlines: &[Outline],
    own: &[FieldList],
) -> Result<List<Option<FieldList>>, AllocError>
    requires few { length outlines.now < 2 ^ 32 }
    requires own { length own.now ≡ length outlines.now }
    requires heights { HasHeights outlines.now }
    ensures right { IfOk result (AreRight outlines.now own.now) }
    ensures stand { IfOk result (λ layouts. (class : ℕ) → class < length outlines.now → Stands layouts class) }
{
    let mut layouts = no_layouts(alloc, outlines.len())?;
    for class in 0..outlines.len() {
        settle(alloc, outlines, own, &mut layouts, class as u32)?;
    }
    Ok(layouts)
}
