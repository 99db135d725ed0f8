//! The rows that names mean. Where a name means none, the answer is 0.

ghost use Rattle.std.specs.Prelude.{[], ◌∷◌};
ghost use Rattle.cc_meaning.specs.declared.listing.RowName.TheVariants as row_names;
ghost use Rattle.cc_meaning_builder.specs.Named.{Means};
ghost use Rattle.cc_meaning_builder.specs.Tables.{AreOrdered};
ghost use Rattle.cc_tables.specs.Rows.{FewRows};
ghost use Rattle.cc_builder.specs.Known.{AreKnown};

use cc_meaning::file::Ids;
use cc_meaning::listing::RowName;

/// The row that a name means.
pub fn named_row(ids: &Ids, name: &RowName) -> u32
    requires few { FewRows ids.now }
    requires ordered { AreOrdered ids.now }
    ensures { AreKnown ids.now (name.now ∷ []) → Means ids.now name.now result }
{
    cc_tables::row_of(ids, name).unwrap_or(0)
}

/// The row of a text.
pub fn text_row(ids: &Ids, units: &[u16]) -> u32
    requires few { FewRows ids.now }
    requires ordered { AreOrdered ids.now }
    ensures { AreKnown ids.now ((row_names.Text units.now) ∷ []) → Means ids.now (row_names.Text units.now) result }
{
    cc_tables::text_row(ids, units).unwrap_or(0)
}

/// The row of a type.
pub fn class_row(ids: &Ids, name: &[u16]) -> u32
    requires few { FewRows ids.now }
    requires ordered { AreOrdered ids.now }
    ensures { AreKnown ids.now ((row_names.Class name.now) ∷ []) → Means ids.now (row_names.Class name.now) result }
{
    cc_tables::type_row(ids, name).unwrap_or(0)
}

/// The row of a field of a class.
pub fn field_row(ids: &Ids, class: &[u16], name: &[u16], kind: &[u16]) -> u32
    requires few { FewRows ids.now }
    requires ordered { AreOrdered ids.now }
    ensures { AreKnown ids.now ((row_names.Field class.now name.now kind.now) ∷ []) → Means ids.now (row_names.Field class.now name.now kind.now) result }
{
    cc_tables::field_row(ids, class, name, kind).unwrap_or(0)
}

/// The row of a method of a class.
pub fn method_row(ids: &Ids, class: &[u16], name: &[u16], proto: &[u16]) -> u32
    requires few { FewRows ids.now }
    requires ordered { AreOrdered ids.now }
    ensures { AreKnown ids.now ((row_names.Method class.now name.now proto.now) ∷ []) → Means ids.now (row_names.Method class.now name.now proto.now) result }
{
    cc_tables::method_row(ids, class, name, proto).unwrap_or(0)
}
