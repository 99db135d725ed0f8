//! The data section of a file in the making.

ghost use Rattle.std.specs.Prelude.{◌≡◌, ◌+◌, ◌%◌, ◌^◌, ◌<◌, [], Some, IfOk, OnOk};
ghost use Rattle.cc_meaning_dex.specs.Texts.{SpellsText};
ghost use Rattle.cc_meaning_builder.specs.Written.{CodePasses, CodeWritten};
ghost use Rattle.cc_dex_writer.specs.Layout.{data_start_of};
ghost use Rattle.cc_dex_writer.specs.Items.{MembersStand, TypesStand, ValuesStand};
ghost use Rattle.cc_dex_writer.specs.Section.{Adds, Grows, PutStands, end_of};

use crate::data_start;
use crate::widths::small_units;
use cc_builder_laws::{stands_apart, written_text, written_types, written_u16};
use cc_items::{put_code, put_members, put_text, put_types, put_values};
use cc_list::List;
use cc_meaning::fault::Memory;
use cc_meaning::file::{Ids, RawCode, RawFields};
use cc_meaning::lists::Bytes;
use cc_meaning::program::StaticValues;
use cc_meaning_dex::StatedMethod;
use std::alloc::Global;

/// What is put between items so that the next one stands at a multiple of 4.
const PADDING: [u8; 3] = [0; 3];

/// Bytes that will stand in the file from the offset `base` on. Offsets count from the beginning of the file.
#[derive(Drop)]
pub struct Section {
    pub base: usize,
    pub bytes: Bytes,
}

/// Whether the 32 bits that the format has for a count hold this one.
fn check_count(count: usize) -> Result<(), Memory>
    ensures { OnOk result (count < 2 ^ 32) }
{
    if count > u32::MAX as usize {
        return Err(Memory);
    }
    Ok(())
}

/// What is put behind a section stands at its end.
fn put_stands()
    ensures { PutStands }
{
    stands_apart();
}

impl Section {
    /// The section behind the tables, with nothing in it.
    pub fn new(alloc: Global, ids: &Ids) -> Section
        ensures empty { result.bytes ≡ [] }
        ensures base { data_start_of ids.now < 2 ^ 64 → result.base ≡ data_start_of ids.now }
    {
        Section {
            base: data_start(ids),
            bytes: List::new(alloc),
        }
    }

    /// The offset at which the next item will stand.
    ///
    /// # Errors
    ///
    /// `Memory`: the offset takes more than 32 bits.
    fn end(&self) -> Result<u32, Memory>
        ensures { IfOk result (λ at. at ≡ end_of self.now) }
    {
        let at = self.base.checked_add(self.bytes.len()).ok_or(Memory)?;
        u32::try_from(at).map_err(|_| Memory)
    }

    /// Puts zero bytes behind the section, so that the next item stands at a multiple of 4.
    fn align(&mut self) -> Result<(), Memory>
        ensures grows { OnOk result (Grows self.old self.new) }
        ensures aligned { OnOk result (end_of self.new % 4 ≡ 0) }
    {
        put_stands();
        let over = (self.base % 4 + self.bytes.len() % 4) % 4;
        self.bytes.extend_from_slice(&PADDING[..(4 - over) % 4])?;
        Ok(())
    }

    /// Adds the item of a text.
    pub fn add_text(&mut self, units: &[u16]) -> Result<u32, Memory>
        ensures { IfOk result (λ at. Adds self.old self.new (λ file. SpellsText file at units.now)) }
    {
        put_stands();
        written_text();
        small_units(units);
        check_count(units.len())?;
        let at = self.end()?;
        put_text(&mut self.bytes, units)?;
        Ok(at)
    }

    /// Adds a list of rows of types, at a multiple of 4, and answers 0 where there are none.
    pub fn add_types(&mut self, rows: &[u32]) -> Result<u32, Memory>
        ensures stands { IfOk result (λ at. Adds self.old self.new (λ file. TypesStand file at rows.now)) }
        ensures aligned { IfOk result (λ at. at % 4 ≡ 0) }
    {
        put_stands();
        written_types();
        if rows.is_empty() {
            return Ok(0);
        }
        check_count(rows.len())?;
        self.align()?;
        let at = self.end()?;
        put_types(&mut self.bytes, rows)?;
        Ok(at)
    }

    /// Adds a code item, at a multiple of 4. `outs` is the most arguments that the code passes.
    pub fn add_code(&mut self, outs: u16, code: &RawCode) -> Result<u32, Memory>
        ensures stands { IfOk result (λ at. Adds self.old self.new (λ file. CodeWritten file at (Some code.now))) }
        ensures passed { IfOk result (λ at. Adds self.old self.new (λ file. CodePasses file at outs)) }
        ensures aligned { IfOk result (λ at. at % 4 ≡ 0) }
    {
        put_stands();
        stands_apart();
        written_u16();
        self.align()?;
        let at = self.end()?;
        put_code(&mut self.bytes, outs, code)?;
        Ok(at)
    }

    /// Adds the class data of members, and answers 0 where there are none.
    pub fn add_members(
        &mut self,
        fields: &RawFields,
        methods: &[StatedMethod],
    ) -> Result<u32, Memory>
        ensures { IfOk result (λ at. Adds self.old self.new (λ file. MembersStand file at fields.now methods.now)) }
    {
        put_stands();
        if fields.is_empty() && methods.is_empty() {
            return Ok(0);
        }
        let at = self.end()?;
        put_members(&mut self.bytes, fields, methods)?;
        Ok(at)
    }

    /// Adds the values of these fields, and answers 0 where there are none.
    pub fn add_values(
        &mut self,
        ids: &Ids,
        fields: &RawFields,
        values: &StaticValues,
    ) -> Result<u32, Memory>
        ensures { IfOk result (λ at. Adds self.old self.new (λ file. ValuesStand file ids.now at fields.now values.now)) }
    {
        put_stands();
        if values.is_empty() {
            return Ok(0);
        }
        let at = self.end()?;
        put_values(&mut self.bytes, ids, fields, values)?;
        Ok(at)
    }
}
