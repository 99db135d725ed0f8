//! Methods and fields in the order of their whole names.

ghost use Rattle.std.specs.Prelude.{◌≡◌, ◌^◌, ◌<◌, slice_get, IfOk, OnSome};
ghost use Rattle.std.specs.Option.{option_copied};
ghost use Rattle.std.specs.Cmp.Lexicographic.{slice_cmp};
ghost use Rattle.std.specs.Ordering.{nat_cmp};
ghost use Rattle.cc_meaning_program.specs.Named.{method_text, field_text};
ghost use Rattle.cc_names.specs.InOrder.{AreInOrder};
ghost use Rattle.cc_names.specs.Pieces.{prototype_pieces, method_pieces, field_pieces};

use crate::order::{Naming, in_order};
use crate::pieces::{Pieces, compare};
use crate::rows::{text, type_name};
use cc_meaning::fault::Memory;
use cc_meaning::file::Ids;
use cc_meaning::lists::Rows;
use std::alloc::Global;
use std::cmp::Ordering;

/// `->`, between the name of a class and that of its member.
const ARROW: [u16; 2] = [45, 62];

/// `:`, between a field's name and its type.
const COLON: [u16; 1] = [58];

/// `(` and `)`, around the parameters of a method.
const OPEN: [u16; 1] = [40];

const CLOSE: [u16; 1] = [41];

/// A piece of the parameters and the result of a row of prototypes, by its number.
#[tactic(auto, using(crate::proofs::MemberPieces::at_param, crate::proofs::MemberPieces::at_close, crate::proofs::MemberPieces::at_result, crate::proofs::MemberPieces::at_none), unfolding(crate::specs::Pieces::prototype_pieces))]
pub fn prototype_piece(ids: &Ids, row: u32, at: usize) -> Option<&[u16]>
    ensures value { option_copied result ≡ slice_get (prototype_pieces ids.now (slice_get ids.now.protos row)) at }
    ensures few { OnSome result (at < 2 ^ 62) }
{
    let prototype = ids.protos.get(row as usize)?;
    if at == 0 {
        return Some(&OPEN);
    }
    let params = prototype.params.as_slice();
    let place = at - 1;
    if place < params.len() {
        return Some(type_name(ids, params[place]));
    }
    if place == params.len() {
        return Some(&CLOSE);
    }
    if place - 1 == params.len() {
        return Some(type_name(ids, prototype.result));
    }
    None
}

/// Rows of methods, which have their whole names.
#[derive(Clone, Copy)]
struct MethodNames<'a> {
    ids: &'a Ids,
}

impl Pieces for MethodNames<'_> {
    ghost pieces = { λ names row. method_pieces names.ids.now (slice_get names.ids.now.methods row) };

    #[tactic(auto, unfolding(crate::specs::Pieces::method_pieces))]
    fn piece(&self, row: u32, at: usize) -> Option<&[u16]> {
        match (self.ids.methods.get(row as usize), at) {
            (None, 0) => Some(&ARROW),
            (None, _) => None,
            (Some(method), 0) => Some(type_name(self.ids, method.class)),
            (Some(_), 1) => Some(&ARROW),
            (Some(method), 2) => Some(text(self.ids, method.name)),
            (Some(method), _) => prototype_piece(self.ids, method.proto, at - 3),
        }
    }

    #[tactic(auto, using(crate::proofs::MemberPieces::same_class, crate::proofs::MemberPieces::same_name, crate::proofs::MemberPieces::same_all))]
    fn same_front(&self, one: u32, other: u32) -> usize {
        let Some(here) = self.ids.methods.get(one as usize) else {
            return 0;
        };
        let Some(there) = self.ids.methods.get(other as usize) else {
            return 0;
        };
        if here.class != there.class {
            return 0;
        }
        if here.name != there.name {
            return 2;
        }
        if here.proto != there.proto {
            return 3;
        }
        usize::MAX
    }
}

impl Naming for MethodNames<'_> {
    type Item = u32;

    ghost name = { λ names row. method_text names.ids.now row };

    fn compare(&self, one: u32, other: u32) -> Ordering {
        compare_methods(self.ids, one, other)
    }
}

/// Compares the whole names of two rows of methods, as `Lc;->add(II)I`, by their units.
///
/// Source: Dalvik Executable format, section method_id_item.
pub fn compare_methods(ids: &Ids, one: u32, other: u32) -> Ordering
    ensures { result ≡ slice_cmp nat_cmp (method_text ids.now one) (method_text ids.now other) }
{
    compare(&MethodNames { ids }, one, other)
}

/// Rows of methods in rising order of their whole names by units, one row for each name.
///
/// # Errors
///
/// `Memory`: there is no memory.
pub fn sorted_methods(alloc: Global, ids: &Ids, rows: Rows) -> Result<Rows, Memory>
    ensures { IfOk result (AreInOrder (method_text ids.now) rows) }
{
    let sorted = in_order(alloc, &MethodNames { ids }, rows)?;
    Ok(sorted)
}

/// Rows of fields, which have their whole names.
#[derive(Clone, Copy)]
struct FieldNames<'a> {
    ids: &'a Ids,
}

impl Pieces for FieldNames<'_> {
    ghost pieces = { λ names row. field_pieces names.ids.now (slice_get names.ids.now.fields row) };

    #[tactic(auto, unfolding(crate::specs::Pieces::field_pieces))]
    fn piece(&self, row: u32, at: usize) -> Option<&[u16]> {
        match (self.ids.fields.get(row as usize), at) {
            (None, 0) => Some(&ARROW),
            (None, _) => None,
            (Some(field), 0) => Some(type_name(self.ids, field.class)),
            (Some(_), 1) => Some(&ARROW),
            (Some(field), 2) => Some(text(self.ids, field.name)),
            (Some(_), 3) => Some(&COLON),
            (Some(field), 4) => Some(type_name(self.ids, field.kind)),
            (Some(_), _) => None,
        }
    }

    #[tactic(auto, using(crate::proofs::MemberPieces::same_class_of_field, crate::proofs::MemberPieces::same_field_name))]
    fn same_front(&self, one: u32, other: u32) -> usize {
        let Some(here) = self.ids.fields.get(one as usize) else {
            return 0;
        };
        let Some(there) = self.ids.fields.get(other as usize) else {
            return 0;
        };
        if here.class != there.class {
            return 0;
        }
        if here.name != there.name {
            return 2;
        }
        4
    }
}

impl Naming for FieldNames<'_> {
    type Item = u32;

    ghost name = { λ names row. field_text names.ids.now row };

    fn compare(&self, one: u32, other: u32) -> Ordering {
        compare_fields(self.ids, one, other)
    }
}

/// Compares the whole names of two rows of fields, as `Lc;->size:I`, by their units.
///
/// Source: Dalvik Executable format, section field_id_item.
pub fn compare_fields(ids: &Ids, one: u32, other: u32) -> Ordering
    ensures { result ≡ slice_cmp nat_cmp (field_text ids.now one) (field_text ids.now other) }
{
    compare(&FieldNames { ids }, one, other)
}

/// Rows of fields in rising order of their whole names by units, one row for each name.
///
/// # Errors
///
/// `Memory`: there is no memory.
pub fn sorted_fields(alloc: Global, ids: &Ids, rows: Rows) -> Result<Rows, Memory>
    ensures { IfOk result (AreInOrder (field_text ids.now) rows) }
{
    let sorted = in_order(alloc, &FieldNames { ids }, rows)?;
    Ok(sorted)
}
