//! The rows of each table.

ghost use Rattle.std.specs.Prelude.{◌≡◌, ℕ};
ghost use Rattle.cc_meaning_dex.specs.declared.table.Table.TheVariants as tables;
ghost use Rattle.cc_meaning_dex.specs.Tables.{table_number, row_count, IsRow, IsLaidOut};
ghost use Rattle.cc_meaning_dex.specs.Faults.{Reads, is_described, row_fault};
ghost use Rattle.cc_meaning_dex.specs.Ids.{EachSpelled, RowStated, PrototypeSpelled, FieldSpelled, MethodSpelled, ClassSpelled};
ghost use Rattle.cc_dexids.specs.Known.{TextRead, TypeRead, IsKnown};

use crate::descriptors::is_descriptor;
use crate::known::{Known, NO_ROW};
use crate::listed::read_types;
use crate::tables::{row_at, table_number};
use crate::walk::RowReader;
use cc_meaning::fault::{DexFault, TextFault};
use cc_meaning::file::{ClassRow, FieldRow, MethodRow, ProtoRow};
use cc_meaning::lists::{Texts, Units};
use cc_meaning_dex::{Table, types_listed};
use cc_text::{text, u16_at, u32_at};
use std::alloc::Global;

/// The fault of a row that names what isn't there or is of another sort.
fn misfit(table: Table, row: u32) -> DexFault
    ensures { result ≡ DexFault.BadIndex (table_number table) row }
{
    DexFault::BadIndex {
        table: table_number(table),
        row,
    }
}

/// The row that a number stands for, where it stands for one.
fn stated_row(stated: u32) -> Option<u32>
    ensures { RowStated result stated }
{
    if stated == NO_ROW { None } else { Some(stated) }
}

/// The rows of texts.
#[derive(Clone, Copy)]
pub struct TextReader<'a> {
    pub file: &'a [u8],
}

impl RowReader for TextReader<'_> {
    type Row = Units;

    ghost readable = { λ reader row. IsLaidOut reader.file.now × IsRow reader.file.now tables.Texts row };

    ghost fault = { λ reader row. row_fault reader.file.now tables.Texts row };

    ghost spelled = { λ reader row units. TextRead reader.file.now row units };

    #[tactic(auto, unfolding(cc_meaning_dex::specs::Faults::row_fault))]
    fn read_row(&self, alloc: Global, row: u32) -> Result<Units, DexFault> {
        let at = u32_at(self.file, row_at(self.file, Table::Texts, row));
        match text(alloc, self.file, at as usize) {
            Ok(units) => Ok(Units::from_vec(units)),
            Err(TextFault::CutOff) => Err(DexFault::OutOfFile { at }),
            Err(TextFault::Memory) => Err(DexFault::Memory),
            Err(TextFault::BadForm { .. } | TextFault::BadCount) => {
                Err(DexFault::BadText { string: row })
            }
        }
    }
}

/// The rows of types.
#[derive(Clone, Copy)]
pub struct TypeReader<'a> {
    pub file: &'a [u8],
    pub texts: &'a Texts,
}

impl RowReader for TypeReader<'_> {
    type Row = u32;

    ghost readable = { λ reader row. IsLaidOut reader.file.now × IsRow reader.file.now tables.Types row
        × EachSpelled reader.texts.now (row_count reader.file.now tables.Texts) (TextRead reader.file.now) };

    ghost fault = { λ reader row. row_fault reader.file.now tables.Types row };

    ghost spelled = { λ reader row text. TypeRead reader.file.now row text };

    #[tactic(auto, unfolding(cc_meaning_dex::specs::Faults::row_fault))]
    fn read_row(&self, _alloc: Global, row: u32) -> Result<u32, DexFault> {
        let text = u32_at(self.file, row_at(self.file, Table::Types, row));
        if self.is_descriptor(text) {
            Ok(text)
        } else {
            Err(misfit(Table::Types, row))
        }
    }
}

impl TypeReader<'_> {
    /// Whether there is such a row of texts, and it is a descriptor.
    fn is_descriptor(&self, text: u32) -> bool
        requires { EachSpelled self.now.texts.now (row_count self.now.file.now tables.Texts) (TextRead self.now.file.now) }
        ensures { result ≡ is_described self.now.file.now text }
    {
        match self.texts.get(text as usize) {
            Some(units) => is_descriptor(units.as_slice()),
            None => false,
        }
    }
}

/// The rows of prototypes.
#[derive(Clone, Copy)]
pub struct PrototypeReader<'a> {
    pub known: Known<'a>,
}

impl RowReader for PrototypeReader<'_> {
    type Row = ProtoRow;

    ghost readable = { λ reader row. IsKnown reader.known.file.now reader.known.texts.now reader.known.types.now
        × IsRow reader.known.file.now tables.Prototypes row };

    ghost fault = { λ reader row. row_fault reader.known.file.now tables.Prototypes row };

    ghost spelled = { λ reader row prototype. PrototypeSpelled reader.known.file.now row prototype };

    #[tactic(auto, unfolding(cc_meaning_dex::specs::Faults::row_fault))]
    fn read_row(&self, alloc: Global, row: u32) -> Result<ProtoRow, DexFault> {
        types_listed();
        let file = self.known.file;
        let at = row_at(file, Table::Prototypes, row);
        let result = u32_at(file, at + 4);
        let params = read_types(alloc, file, u32_at(file, at + 8))?;
        if self.known.fits_prototype(result, params.as_slice()) {
            Ok(ProtoRow { result, params })
        } else {
            Err(misfit(Table::Prototypes, row))
        }
    }
}

/// The rows of fields.
#[derive(Clone, Copy)]
pub struct FieldReader<'a> {
    pub known: Known<'a>,
}

impl RowReader for FieldReader<'_> {
    type Row = FieldRow;

    ghost readable = { λ reader row. IsKnown reader.known.file.now reader.known.texts.now reader.known.types.now
        × IsRow reader.known.file.now tables.Fields row };

    ghost fault = { λ reader row. row_fault reader.known.file.now tables.Fields row };

    ghost spelled = { λ reader row field. FieldSpelled reader.known.file.now row field };

    #[tactic(auto, unfolding(cc_meaning_dex::specs::Faults::row_fault))]
    fn read_row(&self, _alloc: Global, row: u32) -> Result<FieldRow, DexFault> {
        let file = self.known.file;
        let at = row_at(file, Table::Fields, row);
        let field = FieldRow {
            class: u32::from(u16_at(file, at)),
            kind: u32::from(u16_at(file, at + 2)),
            name: u32_at(file, at + 4),
        };
        if self.known.fits_field(field) {
            Ok(field)
        } else {
            Err(misfit(Table::Fields, row))
        }
    }
}

/// The rows of methods.
#[derive(Clone, Copy)]
pub struct MethodReader<'a> {
    pub known: Known<'a>,
}

impl RowReader for MethodReader<'_> {
    type Row = MethodRow;

    ghost readable = { λ reader row. IsKnown reader.known.file.now reader.known.texts.now reader.known.types.now
        × IsRow reader.known.file.now tables.Methods row };

    ghost fault = { λ reader row. row_fault reader.known.file.now tables.Methods row };

    ghost spelled = { λ reader row method. MethodSpelled reader.known.file.now row method };

    #[tactic(auto, unfolding(cc_meaning_dex::specs::Faults::row_fault))]
    fn read_row(&self, _alloc: Global, row: u32) -> Result<MethodRow, DexFault> {
        let file = self.known.file;
        let at = row_at(file, Table::Methods, row);
        let method = MethodRow {
            class: u32::from(u16_at(file, at)),
            proto: u32::from(u16_at(file, at + 2)),
            name: u32_at(file, at + 4),
        };
        if self.known.fits_method(method) {
            Ok(method)
        } else {
            Err(misfit(Table::Methods, row))
        }
    }
}

/// The rows of classes.
#[derive(Clone, Copy)]
pub struct ClassReader<'a> {
    pub known: Known<'a>,
}

impl RowReader for ClassReader<'_> {
    type Row = ClassRow;

    ghost readable = { λ reader row. IsKnown reader.known.file.now reader.known.texts.now reader.known.types.now
        × IsRow reader.known.file.now tables.Classes row };

    ghost fault = { λ reader row. row_fault reader.known.file.now tables.Classes row };

    ghost spelled = { λ reader row class. ClassSpelled reader.known.file.now row class };

    #[tactic(auto, unfolding(cc_meaning_dex::specs::Faults::row_fault))]
    fn read_row(&self, alloc: Global, row: u32) -> Result<ClassRow, DexFault> {
        types_listed();
        let file = self.known.file;
        let at = row_at(file, Table::Classes, row);
        let class = u32_at(file, at);
        let superclass = u32_at(file, at + 8);
        let interfaces = read_types(alloc, file, u32_at(file, at + 12))?;
        if !self
            .known
            .fits_class(class, superclass, interfaces.as_slice())
        {
            return Err(misfit(Table::Classes, row));
        }
        Ok(ClassRow {
            class,
            flags: u32_at(file, at + 4),
            superclass: stated_row(superclass),
            interfaces,
            members_at: u32_at(file, at + 24),
            values_at: u32_at(file, at + 28),
        })
    }
}
