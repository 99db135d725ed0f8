//! The types that descriptors spell.

ghost use Rattle.std.specs.Prelude.{◌≡◌, ◌^◌, ◌<◌, None, length, slice_get, unwrap_or, IfOk, MatchOption};
ghost use Rattle.cc_meaning.specs.declared.program.Base.{Base};
ghost use Rattle.cc_meaning.specs.Order.{IsRising};
ghost use Rattle.cc_meaning_program.specs.Named.{text_of, type_name};
ghost use Rattle.cc_meaning_program.specs.TypeNames.{base_spelled, IsBase, IsTypeOf};
ghost use Rattle.cc_names.specs.Types.{AreTypesOf};

use crate::place::find;
use crate::rows::{base_name, dims_of, names_class};
use cc_list::List;
use cc_meaning::fault::Memory;
use cc_meaning::file::Ids;
use cc_meaning::lists::Texts;
use cc_meaning::program::{Base, DexType};
use cc_meaning_program::spells_by_parts;
use std::alloc::{AllocError, Global};

/// The base that a name spells, where there is one: a letter, or a class that is among the names.
#[tactic(auto, using(crate::proofs::Typing::class_found, crate::proofs::Typing::class_not_found), unfolding(cc_meaning_program::specs::TypeNames::base_spelled))]
fn base_of(names: &Texts, name: &[u16]) -> Option<Base>
    requires few { length names.now < 2 ^ 32 }
    requires rise { IsRising names.now }
    ensures { MatchOption result
        ((base : Base) → IsBase names.now base → base_spelled names.now base ≡ name.now → ⊥)
        (λ base. IsBase names.now base × (base_spelled names.now base ≡ name.now)) }
{
    if names_class(name) {
        return match find(names, name) {
            Some(class) => Some(Base::Class(class)),
            None => None,
        };
    }
    match name {
        [90] => Some(Base::Boolean),
        [66] => Some(Base::Byte),
        [83] => Some(Base::Short),
        [67] => Some(Base::Char),
        [73] => Some(Base::Int),
        [74] => Some(Base::Long),
        _ => None,
    }
}

/// The type that spells a descriptor, or `None` where none does: at V and at types of floating point, at a class that isn't among the names, and at more
/// than 255 dimensions.
/// Source: Dalvik Executable format, section TypeDescriptor Semantics.
pub fn type_of(names: &Texts, descriptor: &[u16]) -> Option<DexType>
    requires few { length names.now < 2 ^ 32 }
    requires rise { IsRising names.now }
    ensures { IsTypeOf names.now descriptor.now result }
{
    spells_by_parts();
    let dims = u8::try_from(dims_of(descriptor)).ok()?;
    let base = base_of(names, base_name(descriptor))?;
    Some(DexType { dims, base })
}

/// For each row of texts the type that its text spells.
fn types_of_texts(
    alloc: Global,
    ids: &Ids,
    names: &Texts,
) -> Result<List<Option<DexType>>, AllocError>
    requires few { length names.now < 2 ^ 32 }
    requires rise { IsRising names.now }
    ensures { IfOk result (AreTypesOf names.now (length ids.now.texts) (text_of ids.now)) }
{
    let mut types = List::new(alloc);
    for text in ids.texts.as_slice() {
        types.push(type_of(names, text.as_slice()))?;
    }
    Ok(types)
}

/// What was found for a row of texts, and `None` where there is no such row.
fn type_at(by_text: &[Option<DexType>], text: u32) -> Option<DexType>
    ensures { result ≡ unwrap_or (slice_get by_text.now text) None }
{
    match by_text.get(text as usize) {
        Some(found) => *found,
        None => None,
    }
}

/// For each row of a file's types the type that spells its descriptor, or `None` where none does. A text that several rows share is looked up once.
///
/// # Errors
///
/// `Memory`: there is no memory.
///
/// Source: Dalvik Executable format, section type_id_item.
pub fn types_of_rows(
    alloc: Global,
    ids: &Ids,
    names: &Texts,
) -> Result<List<Option<DexType>>, Memory>
    requires few { length names.now < 2 ^ 32 }
    requires rise { IsRising names.now }
    ensures { IfOk result (AreTypesOf names.now (length ids.now.types) (type_name ids.now)) }
{
    spells_by_parts();
    let by_text = types_of_texts(alloc, ids, names)?;
    let mut types = List::new(alloc);
    for text in ids.types.as_slice() {
        types.push(type_at(by_text.as_slice(), *text))?;
    }
    Ok(types)
}
