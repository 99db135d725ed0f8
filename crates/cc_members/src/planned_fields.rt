//! All fields of a program.

ghost use Rattle.std.specs.Prelude.{◌≡◌, ◌⊎◌, ◌↔◌, ◌++◌, ◌∷◌, [], ◌<◌, ◌^◌, ℕ, List, length, slice_get, Contains, IfOk, OnOk, option_map};
ghost use Rattle.cc_meaning.specs.declared.file.RawField.{RawField};
ghost use Rattle.cc_meaning_program.specs.ClassFaults.{AreSound};
ghost use Rattle.cc_meaning_program.specs.ClassNames.{AreClassNames};
ghost use Rattle.cc_meaning_program.specs.OwnMembers.{members_of};
ghost use Rattle.cc_meaning_program.specs.declared.plan.FieldPlan.{FieldPlan};
ghost use Rattle.cc_meaning_program.specs.declared.uses.MethodUse.{MethodUse};
ghost use Rattle.cc_meaning_program.specs.Outlines.{AreOutlines};
ghost use Rattle.cc_meaning_program.specs.OwnerNumbers.{AreFieldOwners, field_placed};
ghost use Rattle.cc_meaning_program.specs.Plans.{AreFieldPlans, name_at, field_plan_name, field_source_member};
ghost use Rattle.cc_meaning_program.specs.Rows.{FitTables};
ghost use Rattle.cc_meaning_program.specs.Uses.{AreUses};
ghost use Rattle.cc_names.specs.InOrder.{AreInOrder};
ghost use Rattle.cc_members.specs.Candidates.{AreFieldCandidates, AreTables, IsBelow, IsOwnField, IsOwnFieldBelow, IsOut, file_field, field_count, beyond_field, beyond_fields};
ghost use Rattle.cc_members.specs.FirstInOrder.{AreFirst};
ghost use Rattle.cc_members.specs.Named.{member_text, named_text};

use crate::named::{Member, Named, Names, compare_named};
use crate::order::first_in_order;
use crate::planned_built_in::known_listings;
use crate::tables::{Tables, count_of};
use cc_list::List;
use cc_meaning::fault::Memory;
use cc_meaning::file::{Ids, RawClasses};
use cc_meaning::lists::{ClassIx, Rows, Texts};
use cc_meaning_program::{
    FieldOwner, FieldOwners, FieldPlan, FieldPlans, FieldSource, Outlines, one_field_owner,
    one_reading,
};
use cc_names::{Naming, find};
use std::alloc::{AllocError, Global};
use std::cmp::Ordering;

/// A field, and what names it.
#[derive(Clone, Copy)]
pub struct FieldCandidate {
    pub plan: FieldPlan,
    pub named: Named,
}

/// Where fields have their names.
#[derive(Clone, Copy)]
struct FieldNames<'a> {
    names: &'a Names<'a>,
}

impl Naming for FieldNames<'_> {
    type Item = FieldCandidate;

    ghost name = { λ fields candidate. named_text fields.names.now.ids.now fields.names.now.classes.now fields.names.now.listings.now.members candidate.named };

    fn compare(&self, one: FieldCandidate, other: FieldCandidate) -> Ordering {
        compare_named(self.names, one.named, other.named)
    }
}

impl Tables<'_> {
    /// The row of the field at a place among those that the file defines in a class.
    #[tactic(auto, unfolding(cc_meaning_program::specs::OwnerNumbers::field_placed, cc_meaning_program::specs::OwnerNumbers::field_in))]
    fn field_row(&self, class: ClassIx, place: u32) -> Option<u32>
        requires tables { AreTables self.now }
        requires there { class < length self.now.names.classes.now }
        ensures { result ≡ option_map (λ (raw : RawField). raw.row) (field_placed self.now.names.ids.now self.now.classes.now (name_at self.now.names.classes.now class) place) }
    {
        let raw = self.members(class)?.fields.get(place as usize)?;
        Some(raw.row)
    }

    /// What names a field within its class.
    fn field_member(&self, plan: FieldPlan) -> Member
        requires tables { AreTables self.now }
        requires there { plan.owner < length self.now.names.classes.now }
        ensures { member_text self.now.names.ids.now self.now.names.listings.now.members result
            ≡ field_source_member self.now.names.ids.now self.now.classes.now (name_at self.now.names.classes.now plan.owner) plan.source }
    {
        match plan.source {
            FieldSource::File { place } => match self.field_row(plan.owner, place) {
                Some(row) => Member::Field(row),
                None => Member::Missing,
            },
            FieldSource::Out => Member::Listed {
                table: self.names.listings.out_table(),
                place: 0,
            },
            FieldSource::Outside { row } => Member::Field(row),
        }
    }

    /// What names a field.
    #[tactic(auto, unfolding(crate::specs::Named::named_text, cc_meaning_program::specs::Plans::field_plan_name))]
    pub fn named_field(&self, plan: FieldPlan) -> Named
        requires tables { AreTables self.now }
        requires there { plan.owner < length self.now.names.classes.now }
        ensures { named_text self.now.names.ids.now self.now.names.classes.now self.now.names.listings.now.members result
            ≡ field_plan_name self.now.names.ids.now self.now.classes.now self.now.names.classes.now plan }
    {
        Named {
            owner: plan.owner,
            member: self.field_member(plan),
        }
    }

    /// How many fields the file defines in a class.
    #[tactic(auto, unfolding(crate::specs::Candidates::field_count))]
    fn field_count(&self, class: ClassIx) -> usize
        requires tables { AreTables self.now }
        requires there { class < length self.now.names.classes.now }
        ensures { result ≡ field_count (members_of self.now.names.ids.now self.now.classes.now (name_at self.now.names.classes.now class)) }
    {
        match self.members(class) {
            Some(class) => class.fields.len(),
            None => 0,
        }
    }

    /// Adds the fields that the file defines in a class.
    fn add_fields(&self, all: &mut FieldPlans, owner: ClassIx) -> Result<(), AllocError>
        requires tables { AreTables self.now }
        requires there { owner < length self.now.names.classes.now }
        ensures { OnOk result ((plan : FieldPlan) → Contains all.new plan ↔ (Contains all.old plan
            ⊎ IsOwnField self.now.names.ids.now self.now.classes.now self.now.names.classes.now owner plan)) }
    {
        for place in 0..count_of(self.field_count(owner))? {
            let source = FieldSource::File { place };
            all.push(FieldPlan { owner, source })?;
        }
        Ok(())
    }

    /// The fields that the file defines.
    fn own_fields(&self, alloc: Global) -> Result<FieldPlans, AllocError>
        requires tables { AreTables self.now }
        requires few { length self.now.names.classes.now < 2 ^ 32 }
        ensures { IfOk result (λ all. (plan : FieldPlan) → Contains all plan
            ↔ IsOwnFieldBelow self.now.names.ids.now self.now.classes.now self.now.names.classes.now (length self.now.names.classes.now) plan) }
    {
        let mut all = List::new(alloc);
        for owner in 0..self.names.classes.len() as u32 {
            self.add_fields(&mut all, owner)?;
        }
        Ok(all)
    }

    /// `System.out`.
    fn out_field(&self) -> FieldPlan
        requires tables { AreTables self.now }
        requires names { AreClassNames self.now.names.ids.now self.now.names.classes.now }
        requires few { length self.now.names.classes.now < 2 ^ 32 }
        ensures { IsOut self.now.names.classes.now result }
    {
        match find(self.names.classes, self.names.listings.system()) {
            Some(owner) => FieldPlan {
                owner,
                source: FieldSource::Out,
            },
            None => unreachable!(),
        }
    }

    /// Fields, each with what names it.
    fn field_candidates(
        &self,
        alloc: Global,
        plans: &[FieldPlan],
    ) -> Result<List<FieldCandidate>, AllocError>
        requires tables { AreTables self.now }
        requires there { (plan : FieldPlan) → Contains plans.now plan → plan.owner < length self.now.names.classes.now }
        ensures { IfOk result (AreFieldCandidates self.now plans.now) }
    {
        let mut candidates = List::new(alloc);
        for plan in plans {
            let named = self.named_field(*plan);
            candidates.push(FieldCandidate { plan: *plan, named })?;
        }
        Ok(candidates)
    }

    /// Fields in the order of their names, of each name the first.
    fn sorted_fields(&self, alloc: Global, plans: &[FieldPlan]) -> Result<FieldPlans, AllocError>
        requires tables { AreTables self.now }
        requires there { (plan : FieldPlan) → Contains plans.now plan → plan.owner < length self.now.names.classes.now }
        ensures order { IfOk result (AreInOrder (field_plan_name self.now.names.ids.now self.now.classes.now self.now.names.classes.now) plans.now) }
        ensures first { IfOk result (AreFirst (field_plan_name self.now.names.ids.now self.now.classes.now self.now.names.classes.now) plans.now) }
    {
        let candidates = self.field_candidates(alloc, plans)?;
        let sorted = first_in_order(alloc, &FieldNames { names: &self.names }, candidates)?;
        let mut plans = List::new(alloc);
        for candidate in sorted.as_slice() {
            plans.push(candidate.plan)?;
        }
        Ok(plans)
    }
}

/// The field that a row names, where no class of the file has it.
#[tactic(auto, unfolding(crate::specs::Candidates::beyond_field))]
fn beyond_field(owners: &FieldOwners, row: u32) -> Option<FieldPlan>
    ensures { result ≡ beyond_field (slice_get owners.now row) row }
{
    match owners.get(row as usize) {
        Some(FieldOwner::Beyond { class }) => Some(FieldPlan {
            owner: *class,
            source: FieldSource::Outside { row },
        }),
        _ => None,
    }
}

/// Adds the fields that rows name which no class of the file has.
fn add_beyond(all: &mut FieldPlans, owners: &FieldOwners, rows: &[u32]) -> Result<(), AllocError>
    ensures { OnOk result (all.new ≡ all.old ++ beyond_fields owners.now rows.now) }
{
    for row in rows {
        if let Some(plan) = beyond_field(owners, *row) {
            all.push(plan)?;
        }
    }
    Ok(())
}

/// All fields of a program, in rising order of their whole names: those that the file defines, `System.out`, and of those that only instructions name, the
/// first row of each.
///
/// # Errors
///
/// `Memory`: there is no memory.
///
/// Source: Dalvik Executable format, sections field_id_item and class_data_item.
pub fn field_plans<'a>(
    alloc: Global,
    ids: &'a Ids,
    classes: &'a RawClasses,
    names: &'a Texts,
    outlines: &'a Outlines,
    owners: &FieldOwners,
    uses: &Rows,
) -> Result<FieldPlans, Memory>
    requires tables { FitTables ids.now }
    requires sound { AreSound ids.now classes.now }
    requires names { AreClassNames ids.now names.now }
    requires few { length names.now < 2 ^ 32 }
    requires outlines { AreOutlines ids.now names.now outlines.now }
    requires owners { AreFieldOwners ids.now classes.now names.now owners.now }
    requires uses { (methods : List MethodUse) × AreUses classes.now methods uses.now }
    ensures { IfOk result (AreFieldPlans ids.now classes.now names.now uses.now) }
{
    one_field_owner();
    one_reading();
    let listings = known_listings(alloc)?;
    let names = Names {
        ids,
        classes: names,
        listings: &listings,
    };
    let tables = Tables {
        names,
        classes,
        outlines,
    };
    let mut all = tables.own_fields(alloc)?;
    all.push(tables.out_field())?;
    add_beyond(&mut all, owners, uses.as_slice())?;
    Ok(tables.sorted_fields(alloc, all.as_slice())?)
}
