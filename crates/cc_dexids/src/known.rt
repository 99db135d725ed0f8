//! What was read so far, by which later rows are judged.

ghost use Rattle.std.specs.Prelude.{◌≡◌, ◌<◌, ◌≤◌, MatchOption, nat_lt, ◌&&◌};
ghost use Rattle.std.specs.List.{list_all};
ghost use Rattle.cc_meaning_dex.specs.declared.table.Table.TheVariants.{Types, Prototypes};
ghost use Rattle.cc_meaning_dex.specs.Tables.{row_count};
ghost use Rattle.cc_meaning_dex.specs.Descriptors.{names_class, names_reference, names_value};
ghost use Rattle.cc_meaning_dex.specs.Faults.{text_units, type_text, is_type, is_name, may_extend};
ghost use Rattle.cc_dexids.specs.Known.{IsKnown};

use crate::descriptors::{is_paired, names_class, names_reference, names_value};
use crate::tables::row_count;
use cc_meaning::file::{FieldRow, MethodRow};
use cc_meaning::lists::{Rows, Texts};
use cc_meaning_dex::Table;

/// The number that stands for no row.
pub const NO_ROW: u32 = 0xffff_ffff;

/// A file, with the texts and the types that were read of it.
#[derive(Clone, Copy)]
pub struct Known<'a> {
    pub file: &'a [u8],
    pub texts: &'a Texts,
    pub types: &'a Rows,
}

impl Known<'_> {
    /// The descriptor of a row of types, where there is such a row.
    fn descriptor(&self, row: u32) -> Option<&[u16]>
        requires { IsKnown self.now.file.now self.now.texts.now self.now.types.now }
        ensures { MatchOption result
            (row_count self.now.file.now Types ≤ row)
            (λ units. (row < row_count self.now.file.now Types) × (units.now ≡ text_units self.now.file.now (type_text self.now.file.now row))) }
    {
        let text = *self.types.get(row as usize)?;
        Some(self.texts.at(text as usize).as_slice())
    }

    /// Whether there is such a row of types.
    fn has_type(&self, row: u32) -> bool
        requires { IsKnown self.now.file.now self.now.texts.now self.now.types.now }
        ensures { result ≡ nat_lt row (row_count self.now.file.now Types) }
    {
        (row as usize) < self.types.len()
    }

    /// Whether a row of types is a class.
    fn is_class(&self, row: u32) -> bool
        requires { IsKnown self.now.file.now self.now.texts.now self.now.types.now }
        ensures { result ≡ is_type names_class self.now.file.now row }
    {
        match self.descriptor(row) {
            Some(units) => names_class(units),
            None => false,
        }
    }

    /// Whether a row of types is a class or an array.
    fn is_reference(&self, row: u32) -> bool
        requires { IsKnown self.now.file.now self.now.texts.now self.now.types.now }
        ensures { result ≡ is_type names_reference self.now.file.now row }
    {
        match self.descriptor(row) {
            Some(units) => names_reference(units),
            None => false,
        }
    }

    /// Whether a row of types is one other than V.
    fn is_value(&self, row: u32) -> bool
        requires { IsKnown self.now.file.now self.now.texts.now self.now.types.now }
        ensures { result ≡ is_type names_value self.now.file.now row }
    {
        match self.descriptor(row) {
            Some(units) => names_value(units),
            None => false,
        }
    }

    /// Whether each of these rows is a type other than V.
    fn are_values(&self, rows: &[u32]) -> bool
        requires { IsKnown self.now.file.now self.now.texts.now self.now.types.now }
        ensures { result ≡ list_all (is_type names_value self.now.file.now) rows.now }
    {
        rows.iter().all(|row| self.is_value(*row))
    }

    /// Whether each of these rows is a class or an array.
    fn are_references(&self, rows: &[u32]) -> bool
        requires { IsKnown self.now.file.now self.now.texts.now self.now.types.now }
        ensures { result ≡ list_all (is_type names_reference self.now.file.now) rows.now }
    {
        rows.iter().all(|row| self.is_reference(*row))
    }

    /// Whether a stated superclass is none, or a class or an array.
    fn may_extend(&self, superclass: u32) -> bool
        requires { IsKnown self.now.file.now self.now.texts.now self.now.types.now }
        ensures { result ≡ may_extend self.now.file.now superclass }
    {
        superclass == NO_ROW || self.is_reference(superclass)
    }

    /// Whether a row of texts may be a member's name: there is one, and it has no half of a pair alone.
    fn is_name(&self, row: u32) -> bool
        requires { IsKnown self.now.file.now self.now.texts.now self.now.types.now }
        ensures { result ≡ is_name self.now.file.now row }
    {
        match self.texts.get(row as usize) {
            Some(units) => is_paired(units.as_slice()),
            None => false,
        }
    }

    /// Whether a prototype's result is a type, and each parameter one other than V.
    pub fn fits_prototype(&self, gives: u32, params: &[u32]) -> bool
        requires { IsKnown self.now.file.now self.now.texts.now self.now.types.now }
        ensures { let file = self.now.file.now in
            result ≡ (nat_lt gives (row_count file Types) && list_all (is_type names_value file) params.now) }
    {
        self.has_type(gives) && self.are_values(params)
    }

    /// Whether a field is of a class or an array, its type isn't V, and its name may be one.
    pub fn fits_field(&self, field: FieldRow) -> bool
        requires { IsKnown self.now.file.now self.now.texts.now self.now.types.now }
        ensures { let file = self.now.file.now in
            result ≡ (is_type names_reference file field.class && is_type names_value file field.kind && is_name file field.name) }
    {
        self.is_reference(field.class) && self.is_value(field.kind) && self.is_name(field.name)
    }

    /// Whether a method is of a class or an array, its prototype is there, and its name may be one.
    pub fn fits_method(&self, method: MethodRow) -> bool
        requires { IsKnown self.now.file.now self.now.texts.now self.now.types.now }
        ensures { let file = self.now.file.now in
            result ≡ (is_type names_reference file method.class && nat_lt method.proto (row_count file Prototypes) && is_name file method.name) }
    {
        let has_proto = method.proto < row_count(self.file, Table::Prototypes);
        self.is_reference(method.class) && has_proto && self.is_name(method.name)
    }

    /// Whether a class is one, and its superclass and interfaces may be that.
    pub fn fits_class(&self, class: u32, superclass: u32, interfaces: &[u32]) -> bool
        requires { IsKnown self.now.file.now self.now.texts.now self.now.types.now }
        ensures { let file = self.now.file.now in
            result ≡ (is_type names_class file class && may_extend file superclass && list_all (is_type names_reference file) interfaces.now) }
    {
        self.is_class(class) && self.may_extend(superclass) && self.are_references(interfaces)
    }
}
