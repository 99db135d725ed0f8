//! A built file in which something is changed.

use crate::classes_sample::{A, C, sample};
use cc_items::{put_code, put_members};
use cc_list::List;
use cc_meaning::fault::Memory;
use cc_meaning::file::{RawCode, RawField};
use cc_meaning::lists::Bytes;
use cc_meaning_dex::StatedMethod;
use cc_text::adler32;
use sha1::Sha1;
use std::alloc::Global;

/// Places of the header (Dalvik Executable format, section header_item): the sum, the signature, the size of the file, the offsets of the tables of types
/// and of class definitions, and the size and the offset of the data.
const SUM: usize = 8;

const SIGNATURE: usize = 12;

const FILE_SIZE: usize = 32;

const TYPES_AT: usize = 68;

const CLASSES_AT: usize = 100;

const DATA_SIZE: usize = 104;

const DATA_AT: usize = 108;

/// Places of a class definition of 32 bytes (section class_def_item): the offsets of its class data and of its static values.
const MEMBERS_AT: usize = 24;

const VALUES_AT: usize = 28;

/// A file in which something is changed: items are put behind those that it has, and offsets are set to these.
#[derive(Drop)]
pub struct Draft {
    alloc: Global,
    bytes: Bytes,
}

impl Draft {
    /// The file of these tests.
    pub fn new(alloc: Global) -> Result<Draft, Memory> {
        Ok(Draft::of(alloc, sample(alloc)?))
    }

    /// A file of this content.
    pub fn of(alloc: Global, bytes: Bytes) -> Draft {
        Draft { alloc, bytes }
    }

    /// Where memory comes from.
    pub fn alloc(&self) -> Global {
        self.alloc
    }

    /// Where the next item will stand.
    pub fn end(&self) -> u32 {
        u32::try_from(self.bytes.len()).unwrap_or(u32::MAX)
    }

    /// Puts bytes behind all that is there, and answers where they stand.
    pub fn put(&mut self, bytes: &[u8]) -> Result<u32, Memory> {
        let at = self.end();
        self.bytes.extend_from_slice(bytes)?;
        Ok(at)
    }

    /// Puts a code item behind all that is there, and answers where it stands.
    pub fn put_code(&mut self, code: &RawCode) -> Result<u32, Memory> {
        let at = self.end();
        put_code(&mut self.bytes, 0, code)?;
        Ok(at)
    }

    /// Puts class data behind all that is there, and has a class's definition name it, and no static values.
    pub fn put_members(
        &mut self,
        class: usize,
        fields: &[RawField],
        methods: &[StatedMethod],
    ) -> Result<(), Memory> {
        let at = self.end();
        let fields = List::from_slice(self.alloc, fields)?;
        put_members(&mut self.bytes, &fields, methods)?;
        self.set_members(class, at);
        Ok(())
    }

    /// Takes off all that stands from an offset on.
    pub fn cut(&mut self, at: usize) {
        self.bytes.truncate(at);
    }

    /// Writes bytes over those from an offset on.
    pub fn set(&mut self, at: usize, bytes: &[u8]) {
        for (place, byte) in bytes.iter().enumerate() {
            if let Some(old) = self.bytes.get_mut(at.saturating_add(place)) {
                *old = *byte;
            }
        }
    }

    /// Writes a number over that at an offset.
    pub fn set_number(&mut self, at: usize, number: u32) {
        self.set(at, &number.to_le_bytes());
    }

    /// The number at an offset.
    fn number(&self, at: usize) -> u32 {
        match self.bytes.as_slice().get(at..) {
            Some([a, b, c, d, ..]) => u32::from_le_bytes([*a, *b, *c, *d]),
            _ => 0,
        }
    }

    /// A place in the definition of a class.
    fn class_place(&self, class: usize, place: usize) -> usize {
        let rows = self.number(CLASSES_AT) as usize;
        rows.saturating_add(class.saturating_mul(32))
            .saturating_add(place)
    }

    /// Has a class's definition name class data at this offset, and no static values.
    pub fn set_members(&mut self, class: usize, at: u32) {
        let place = self.class_place(class, MEMBERS_AT);
        self.set_number(place, at);
        self.set_values(class, 0);
    }

    /// Has a class's definition name static values at this offset.
    pub fn set_values(&mut self, class: usize, at: u32) {
        let place = self.class_place(class, VALUES_AT);
        self.set_number(place, at);
    }

    /// Has the row of the type C name the text of the type A, so that both rows are of one type.
    pub fn unite_types(&mut self) {
        let rows = self.number(TYPES_AT) as usize;
        let text = self.number(rows.saturating_add(A as usize * 4));
        self.set_number(rows.saturating_add(C as usize * 4), text);
    }

    /// The whole file, with the sizes, the signature and the sum that are due.
    pub fn sealed(self) -> Bytes {
        let mut draft = self;
        let size = draft.end();
        let before = draft.number(DATA_AT);
        draft.set_number(FILE_SIZE, size);
        draft.set_number(DATA_SIZE, size.saturating_sub(before));
        let signature = Sha1::digest(draft.behind(FILE_SIZE));
        draft.set(SIGNATURE, &signature);
        let sum = adler32(draft.behind(SIGNATURE));
        draft.set_number(SUM, sum);
        draft.bytes
    }

    /// What stands from an offset on.
    fn behind(&self, at: usize) -> &[u8] {
        self.bytes.as_slice().get(at..).unwrap_or(&[])
    }
}
