//! The row that a name means, in its own table.

ghost use Rattle.cc_meaning_program.specs.Rows.{FitTables};
ghost use Rattle.cc_meaning_builder.specs.Tables.{AreOrdered};
ghost use Rattle.cc_tables.specs.Rows.{IsRowOf, FewRows};

use crate::members::{field_row, method_row};
use crate::text_rows::{text_row, type_row};
use cc_meaning::file::Ids;
use cc_meaning::listing::RowName;

/// The number of the row that a name means, in its own table, or `None` where no row is it.
pub fn row_of(ids: &Ids, name: &RowName) -> Option<u32>
    requires few { FewRows ids.now }
    requires ordered { AreOrdered ids.now }
    ensures { FitTables ids.now → IsRowOf ids.now name.now result }
{
    match name {
        RowName::Text(units) => text_row(ids, units.as_slice()),
        RowName::Class(name) => type_row(ids, name.as_slice()),
        RowName::Field { class, name, kind } => {
            field_row(ids, class.as_slice(), name.as_slice(), kind.as_slice())
        }
        RowName::Method { class, name, proto } => {
            method_row(ids, class.as_slice(), name.as_slice(), proto.as_slice())
        }
    }
}
