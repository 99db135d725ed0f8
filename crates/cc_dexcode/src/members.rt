//! Class data: the fields and methods of a class.

ghost use Rattle.cc_meaning_dex.specs.Sequences.{list_at};
ghost use Rattle.cc_meaning_dex.specs.Members.{field_at, method_at, fields_at, methods_at, class_data_at, members_of};
ghost use Rattle.cc_dexcode.specs.Finding.{Finds};

use crate::flaw::Flaw;
use crate::numbers::number;
use crate::rows::{is_field_of, is_method_of, row_behind};
use crate::walk::{ItemReader, read_list};
use cc_list::List;
use cc_meaning::file::{ClassRow, Ids, RawField, RawFields};
use cc_meaning_dex::{Cursor, Members, StatedMethod};
use std::alloc::Global;

/// Reads fields of the class of a row of types.
#[derive(Clone, Copy)]
struct FieldReader<'a> {
    file: &'a [u8],
    ids: &'a Ids,
    class: u32,
    is_static: bool,
}

impl ItemReader for FieldReader<'_> {
    type Item = RawField;

    ghost item_at = { λ reader from. field_at reader.file.now reader.ids.now reader.class reader.is_static from };

    #[tactic(auto, unfolding(cc_meaning_dex::specs::Members::field_at))]
    fn read_item(&self, _alloc: Global, from: Cursor) -> Result<(RawField, Cursor), Flaw> {
        let (difference, flags_at) = number(self.file, from.at)?;
        let (flags, next) = number(self.file, flags_at)?;
        let row = row_behind(difference, from.row)?;
        if !is_field_of(self.ids, self.class, row) {
            return Err(Flaw::Malformed);
        }
        let field = RawField {
            row,
            flags,
            is_static: self.is_static,
        };
        Ok((field, Cursor { at: next, row }))
    }
}

/// Reads methods of the class of a row of types.
#[derive(Clone, Copy)]
struct MethodReader<'a> {
    file: &'a [u8],
    ids: &'a Ids,
    class: u32,
    is_direct: bool,
}

impl ItemReader for MethodReader<'_> {
    type Item = StatedMethod;

    ghost item_at = { λ reader from. method_at reader.file.now reader.ids.now reader.class reader.is_direct from };

    #[tactic(auto, unfolding(cc_meaning_dex::specs::Members::method_at))]
    fn read_item(&self, _alloc: Global, from: Cursor) -> Result<(StatedMethod, Cursor), Flaw> {
        let (difference, flags_at) = number(self.file, from.at)?;
        let (flags, code_place) = number(self.file, flags_at)?;
        let (code_at, next) = number(self.file, code_place)?;
        let row = row_behind(difference, from.row)?;
        if !is_method_of(self.ids, self.class, row) {
            return Err(Flaw::Malformed);
        }
        let method = StatedMethod {
            row,
            flags,
            is_direct: self.is_direct,
            code_at,
        };
        Ok((method, Cursor { at: next, row }))
    }
}

/// The class whose members are read, and where.
#[derive(Clone, Copy)]
struct ClassReader<'a> {
    file: &'a [u8],
    ids: &'a Ids,
    class: u32,
}

impl ClassReader<'_> {
    /// So many fields of one list from `at` on, and the place after them.
    fn fields_of(
        &self,
        alloc: Global,
        is_static: bool,
        count: u32,
        at: usize,
    ) -> Result<(RawFields, usize), Flaw>
        ensures { Finds (list_at (field_at self.now.file.now self.now.ids.now self.now.class is_static) count at) result }
    {
        let reader = FieldReader {
            file: self.file,
            ids: self.ids,
            class: self.class,
            is_static,
        };
        read_list(alloc, &reader, count, at)
    }

    /// So many methods of one list from `at` on, and the place after them.
    fn methods_of(
        &self,
        alloc: Global,
        is_direct: bool,
        count: u32,
        at: usize,
    ) -> Result<(List<StatedMethod>, usize), Flaw>
        ensures { Finds (list_at (method_at self.now.file.now self.now.ids.now self.now.class is_direct) count at) result }
    {
        let reader = MethodReader {
            file: self.file,
            ids: self.ids,
            class: self.class,
            is_direct,
        };
        read_list(alloc, &reader, count, at)
    }

    /// So many static fields from `at` on, then so many instance fields; and the place after them.
    #[tactic(auto, unfolding(cc_meaning_dex::specs::Members::fields_at))]
    fn fields(
        &self,
        alloc: Global,
        statics: u32,
        instances: u32,
        at: usize,
    ) -> Result<(RawFields, usize), Flaw>
        ensures { Finds (fields_at self.now.file.now self.now.ids.now self.now.class statics instances at) result }
    {
        let (mut fields, instances_at) = self.fields_of(alloc, true, statics, at)?;
        let (more, next) = self.fields_of(alloc, false, instances, instances_at)?;
        fields.append(more)?;
        Ok((fields, next))
    }

    /// So many direct methods from `at` on, then so many virtual methods; and the place after them.
    #[tactic(auto, unfolding(cc_meaning_dex::specs::Members::methods_at))]
    fn methods(
        &self,
        alloc: Global,
        directs: u32,
        virtuals: u32,
        at: usize,
    ) -> Result<(List<StatedMethod>, usize), Flaw>
        ensures { Finds (methods_at self.now.file.now self.now.ids.now self.now.class directs virtuals at) result }
    {
        let (mut methods, virtuals_at) = self.methods_of(alloc, true, directs, at)?;
        let (more, next) = self.methods_of(alloc, false, virtuals, virtuals_at)?;
        methods.append(more)?;
        Ok((methods, next))
    }

    /// The members that stand at `at`.
    #[tactic(auto, unfolding(cc_meaning_dex::specs::Members::class_data_at))]
    fn class_data(&self, alloc: Global, at: usize) -> Result<Members, Flaw>
        ensures { Finds (class_data_at self.now.file.now self.now.ids.now self.now.class at) result }
    {
        let (statics, instances_at) = number(self.file, at)?;
        let (instances, directs_at) = number(self.file, instances_at)?;
        let (directs, virtuals_at) = number(self.file, directs_at)?;
        let (virtuals, statics_at) = number(self.file, virtuals_at)?;
        let (fields, methods_at) = self.fields(alloc, statics, instances, statics_at)?;
        let (methods, _) = self.methods(alloc, directs, virtuals, methods_at)?;
        Ok(Members { fields, methods })
    }
}

/// The members of a class, none where its class data stands at offset 0.
#[tactic(auto, unfolding(cc_meaning_dex::specs::Members::members_of))]
pub fn read_members(
    alloc: Global,
    file: &[u8],
    ids: &Ids,
    class: &ClassRow,
) -> Result<Members, Flaw>
    ensures { Finds (members_of file.now ids.now class.now) result }
{
    if class.members_at == 0 {
        return Ok(Members {
            fields: RawFields::new(alloc),
            methods: List::new(alloc),
        });
    }
    let reader = ClassReader {
        file,
        ids,
        class: class.class,
    };
    reader.class_data(alloc, class.members_at as usize)
}
