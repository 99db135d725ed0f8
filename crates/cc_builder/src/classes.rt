//! The classes of a file.

ghost use Rattle.std.specs.Prelude.{◌≡◌, map, length, IfOk};
ghost use Rattle.cc_meaning_dex.specs.Classes.{EachPair};
ghost use Rattle.cc_meaning_builder.specs.Members.{AreOuts, AreRawClasses, HasOuts};
ghost use Rattle.cc_meaning_builder.specs.Named.{all_names, listed_names};
ghost use Rattle.cc_meaning_builder.specs.Tables.{AreOrdered};
ghost use Rattle.cc_meaning_builder.specs.WellNamed.{WellNamed};
ghost use Rattle.cc_tables.specs.Rows.{FewRows};
ghost use Rattle.cc_builder.specs.Known.{AreKnown, HasRows};

use crate::fields::{raw_fields, sorted_fields};
use crate::methods::{outs, raw_methods, sorted_methods};
use crate::values::static_values;
use cc_list::List;
use cc_meaning::fault::Memory;
use cc_meaning::file::{Ids, RawClass, RawClasses};
use cc_meaning::lists::Units;
use cc_meaning_builder::content::{Content, ListedClass, Outs};
use std::alloc::Global;

/// A class in a file's form, and what the code of its methods passes.
fn raw_class(alloc: Global, ids: &Ids, class: &ListedClass) -> Result<(RawClass, Units), Memory>
    requires few { FewRows ids.now }
    requires ordered { AreOrdered ids.now }
    ensures members { IfOk result (λ made. AreKnown ids.now (listed_names class.now) → HasOuts ids.now class.now made.0 made.1) }
    ensures outs_count { IfOk result (λ made. length made.1 ≡ length made.0.methods) }
{
    let name = class.name.as_slice();
    let fields = sorted_fields(alloc, ids, name, class.fields.as_slice())?;
    let methods = sorted_methods(alloc, ids, name, class.methods.as_slice())?;
    let outs = outs(alloc, methods.as_slice())?;
    let raw = RawClass {
        fields: raw_fields(alloc, fields.as_slice())?,
        methods: raw_methods(alloc, methods)?,
        values: static_values(alloc, fields.as_slice())?,
    };
    Ok((raw, outs))
}

/// The classes of the file that is built, in the order in which they were added: members by rows in the file's order, rows put at marks, handlers, values;
/// and beside them how many registers the invokes of each method's code pass, for each method of each class in the order of the answer (0 without code).
/// Source: Dalvik Executable format, sections class_data_item, code_item and encoded_array_item.
///
/// # Errors
///
/// There is no memory, or a mark of one unit names the row 65,536 or one behind it.
pub fn raw_classes(
    alloc: Global,
    content: &Content,
    ids: &Ids,
) -> Result<(RawClasses, Outs), Memory>
    requires few { FewRows ids.now }
    requires ordered { AreOrdered ids.now }
    ensures members { IfOk result (λ made. WellNamed content.now → HasRows content.now ids.now → AreRawClasses content.now ids.now made.0) }
    ensures outs { IfOk result (λ made. WellNamed content.now → HasRows content.now ids.now → AreOuts ids.now content.now made.0 made.1) }
    ensures count { IfOk result (λ made. length made.0 ≡ length content.now) }
    ensures outs_count { IfOk result (λ made. EachPair (λ class outs. length outs ≡ length class.methods) made.0 made.1) }
{
    let mut classes = List::new(alloc);
    let mut all_outs = List::new(alloc);
    for class in content.as_slice() {
        let (raw, outs) = raw_class(alloc, ids, class)?;
        classes.push(raw)?;
        all_outs.push(outs)?;
    }
    Ok((classes, all_outs))
}
