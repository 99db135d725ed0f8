//! The whole file.

ghost use Rattle.std.specs.Prelude.{◌^◌, ◌<◌, length, IfOk};
ghost use Rattle.cc_meaning_builder.specs.Tables.{AreOrdered};
ghost use Rattle.cc_meaning_dex.specs.Classes.{EachPair};
ghost use Rattle.cc_dex_writer.specs.Items.{IsShortOf};
ghost use Rattle.cc_dex_writer.specs.Section.{Adds};
ghost use Rattle.cc_dex_writer.specs.Writing.{AreItems, IsFileOf};

use crate::classes::add_classes;
use crate::section::Section;
use crate::tables::{add_interfaces, add_params, add_texts, short_rows, with_classes};
use crate::{Offsets, fitting_rows_are_small, whole_file};
use cc_meaning::fault::Memory;
use cc_meaning::file::{Ids, RawClasses};
use cc_meaning::lists::Bytes;
use cc_meaning_builder::content::Outs;
use std::alloc::Global;

/// Adds the items of tables, and answers where they stand.
fn add_items(alloc: Global, section: &mut Section, ids: &Ids) -> Result<Offsets, Memory>
    requires few { length ids.now.texts < 2 ^ 32 }
    requires ordered { AreOrdered ids.now }
    ensures stand { IfOk result (λ offsets. Adds section.old section.new (λ file. AreItems file ids.now offsets)) }
    ensures shorts { IfOk result (λ offsets. EachPair (IsShortOf ids.now) offsets.shorts ids.now.protos) }
{
    let texts = add_texts(alloc, section, ids.texts.as_slice())?;
    let shorts = short_rows(alloc, ids, ids.protos.as_slice())?;
    let params = add_params(alloc, section, ids.protos.as_slice())?;
    let interfaces = add_interfaces(alloc, section, ids.classes.as_slice())?;
    Ok(Offsets {
        texts,
        shorts,
        params,
        interfaces,
    })
}

/// The file of these tables and classes: its header, its tables, and behind them the items of texts, lists of types, code, class data and values.
/// `outs` has the most arguments that the code of each method of each class passes.
/// Source: Dalvik Executable format, section File layout.
///
/// # Errors
///
/// `Memory`: there is no memory, or an offset takes more than 32 bits.
pub fn write_file(
    alloc: Global,
    ids: &Ids,
    classes: &RawClasses,
    outs: &Outs,
) -> Result<Bytes, Memory>
    requires few { length ids.now.texts < 2 ^ 32 }
    requires ordered { AreOrdered ids.now }
    ensures { IfOk result (IsFileOf ids.now classes.now outs.now) }
{
    fitting_rows_are_small();
    let mut section = Section::new(alloc, ids);
    let offsets = add_items(alloc, &mut section, ids)?;
    let definitions = ids.classes.as_slice();
    let rows = add_classes(alloc, &mut section, ids, definitions, classes, outs)?;
    let written = with_classes(alloc, ids, rows)?;
    let file = whole_file(alloc, &written, &offsets, section.bytes.as_slice())?;
    Ok(file)
}
