//! The fields of a program.

ghost use Rattle.std.specs.Prelude.{◌≡◌, ◌^◌, ◌<◌, ℕ, length, slice_get, IfOk};
ghost use Rattle.cc_meaning.specs.declared.program.DexType.{DexType};
ghost use Rattle.cc_meaning.specs.Order.{IsRising};
ghost use Rattle.cc_meaning.specs.BuiltIn.{print_stream_name};
ghost use Rattle.cc_meaning_program.specs.BodyFaults.{HaveSoundBodies};
ghost use Rattle.cc_meaning_program.specs.ClassNames.{AreClassNames};
ghost use Rattle.cc_meaning_program.specs.Named.{type_name};
ghost use Rattle.cc_meaning_program.specs.TypeNames.{Spells};
ghost use Rattle.cc_meaning_program.specs.Outlines.{AreOutlines};
ghost use Rattle.cc_meaning_program.specs.OwnerNumbers.{field_in};
ghost use Rattle.cc_meaning_program.specs.Rows.{FitTables, FitClasses};
ghost use Rattle.cc_names.specs.Types.{AreTypesOf};
ghost use Rattle.cc_members.specs.FieldPremises.{PlanFields, HaveFieldNames, ArePlannedFields};
ghost use Rattle.cc_members.specs.MadeFields.{FieldCanBeMade, FieldOfRow, FieldMade, OutOf};
ghost use Rattle.cc_members.specs.Stated.{FieldRowStands, members_at};

use crate::sources::{Sources, linked_type};
use cc_built_in::units_of;
use cc_list::List;
use cc_meaning::fault::Memory;
use cc_meaning::file::{Ids, RawClasses, RawField};
use cc_meaning::lists::{ClassIx, Texts};
use cc_meaning::program::{Field, Fields};
use cc_meaning_program::{
    FieldPlan, FieldPlans, FieldSource, Links, Outlines, listed_types_spelled, stand_to_end,
};
use std::alloc::{AllocError, Global};

/// The bare name of `System.out`.
const OUT: &[u8] = b"out";

/// The type of `System.out`.
const PRINT_STREAM: &[u8] = b"Ljava/io/PrintStream;";

impl Sources<'_> {
    /// The field at a place among those that the file defines in a class.
    #[tactic(auto, unfolding(cc_meaning_program::specs::OwnerNumbers::field_in))]
    fn raw_field(&self, owner: ClassIx, place: u32) -> Option<RawField>
        ensures { result ≡ field_in place (members_at self.now.classes.now self.now.outlines.now owner) }
    {
        let class = self.members(owner)?;
        let field = class.fields.get(place as usize)?;
        Some(*field)
    }

    /// A field of a class with the name and the type of a row.
    #[tactic(auto, unfolding(cc_meaning_program::specs::Named::text_of))]
    fn field_of_row(
        &self,
        alloc: Global,
        owner: ClassIx,
        row: u32,
        is_static: bool,
    ) -> Result<Field, AllocError>
        requires { FieldRowStands self.now.ids.now self.now.links.now.types row }
        ensures { IfOk result (FieldOfRow self.now.ids.now self.now.links.now.types owner row is_static) }
    {
        let stated = self.ids.fields.at(row as usize);
        let name = self.ids.texts.at(stated.name as usize).copy()?;
        let ty = linked_type(&self.links.types, stated.kind);
        Ok(Field {
            class: owner,
            name,
            ty,
            is_static,
        })
    }

    /// `System.out`.
    fn out_field(&self, alloc: Global, owner: ClassIx) -> Result<Field, AllocError>
        requires few { length self.now.names.now < 2 ^ 32 }
        requires rise { IsRising self.now.names.now }
        requires typed { (ty : DexType) × Spells self.now.names.now ty print_stream_name }
        ensures { IfOk result (OutOf self.now.names.now owner) }
    {
        let name = units_of(alloc, OUT)?;
        let Some(ty) = self.spelled(alloc, PRINT_STREAM)? else {
            unreachable!();
        };
        Ok(Field {
            class: owner,
            name,
            ty,
            is_static: true,
        })
    }

    /// The field of a plan.
    fn field(&self, alloc: Global, plan: FieldPlan) -> Result<Field, AllocError>
        requires few { length self.now.names.now < 2 ^ 32 }
        requires rise { IsRising self.now.names.now }
        requires can { FieldCanBeMade self.now.ids.now self.now.classes.now self.now.names.now self.now.outlines.now self.now.links.now.types plan.owner plan.source }
        ensures { IfOk result (FieldMade self.now.ids.now self.now.classes.now self.now.names.now self.now.outlines.now self.now.links.now.types plan.owner plan.source) }
    {
        match plan.source {
            FieldSource::File { place } => match self.raw_field(plan.owner, place) {
                Some(raw) => self.field_of_row(alloc, plan.owner, raw.row, raw.is_static),
                None => unreachable!(),
            },
            FieldSource::Out => self.out_field(alloc, plan.owner),
            FieldSource::Outside { row } => self.field_of_row(alloc, plan.owner, row, true),
        }
    }
}

/// The fields of a program, one for each plan, in their order. One that no class of the file has is static, as `System.out` is.
///
/// # Errors
///
/// `Memory`: there is no memory.
///
/// Source: Dalvik Executable format, sections field_id_item and encoded_field format.
pub fn fields(
    alloc: Global,
    ids: &Ids,
    classes: &RawClasses,
    names: &Texts,
    outlines: &Outlines,
    links: &Links,
    plans: &FieldPlans,
) -> Result<Fields, Memory>
    requires tables { FitTables ids.now }
    requires members { FitClasses ids.now classes.now }
    requires sound { HaveSoundBodies ids.now classes.now }
    requires names { AreClassNames ids.now names.now }
    requires few { length names.now < 2 ^ 32 }
    requires outlines { AreOutlines ids.now names.now outlines.now }
    requires types { AreTypesOf names.now (length ids.now.types) (type_name ids.now) links.now.types }
    requires plans { PlanFields ids.now classes.now names.now plans.now }
    ensures all { IfOk result (λ fields. length fields ≡ length plans.now) }
    ensures named { IfOk result (HaveFieldNames ids.now classes.now names.now plans.now) }
    ensures each { IfOk result (ArePlannedFields ids.now classes.now names.now plans.now) }
{
    listed_types_spelled();
    stand_to_end();
    let sources = Sources {
        ids,
        classes,
        names,
        outlines,
        links,
    };
    let mut fields = List::new(alloc);
    for plan in plans.as_slice() {
        fields.push(sources.field(alloc, *plan)?)?;
    }
    Ok(fields)
}
