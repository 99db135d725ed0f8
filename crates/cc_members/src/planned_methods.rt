//! All methods of a program.

ghost use Rattle.std.specs.Prelude.{◌≡◌, ◌⊎◌, ◌↔◌, ◌++◌, ◌<◌, ◌^◌, ℕ, List, length, map, slice_get, Contains, IfOk, OnOk, option_map};
ghost use Rattle.std.specs.Option.{option_copied};
ghost use Rattle.cc_meaning.specs.declared.file.RawMethod.{RawMethod};
ghost use Rattle.cc_meaning_program.specs.ClassFaults.{AreSound};
ghost use Rattle.cc_meaning_program.specs.ClassNames.{AreClassNames};
ghost use Rattle.cc_meaning_program.specs.OwnMembers.{members_of, built_in_methods_of};
ghost use Rattle.cc_meaning_program.specs.declared.plan.MethodPlan.{MethodPlan};
ghost use Rattle.cc_meaning_program.specs.Outlines.{AreOutlines};
ghost use Rattle.cc_meaning_program.specs.OwnerNumbers.{AreMethodOwners, method_placed};
ghost use Rattle.cc_meaning_program.specs.Plans.{AreMethodPlans, name_at, method_plan_name, source_member};
ghost use Rattle.cc_meaning_program.specs.Rows.{FitTables};
ghost use Rattle.cc_meaning_program.specs.Uses.{AreUses};
ghost use Rattle.cc_names.specs.InOrder.{AreInOrder};
ghost use Rattle.cc_members.specs.Candidates.{AreCandidates, AreTables, IsBelow, IsOwnPlan, IsOwnBelow, file_plan, built_in_plan, method_count, outside_plan, outside_plans};
ghost use Rattle.cc_members.specs.FirstInOrder.{AreFirst};
ghost use Rattle.cc_members.specs.Named.{member_text, named_text};

use crate::named::{Member, Named, Names, compare_named};
use crate::order::first_in_order;
use crate::planned_built_in::known_listings;
use crate::tables::{Tables, count_of};
use cc_list::List;
use cc_meaning::fault::Memory;
use cc_meaning::file::{Ids, RawClasses};
use cc_meaning::lists::{ClassIx, Texts};
use cc_meaning_program::{
    MethodOwner, MethodOwners, MethodPlan, MethodPlans, MethodSource, MethodUse, MethodUses,
    Outlines, one_method_owner, one_reading,
};
use cc_names::Naming;
use std::alloc::{AllocError, Global};
use std::cmp::Ordering;

/// A method, and what names it.
#[derive(Clone, Copy)]
pub struct Candidate {
    pub plan: MethodPlan,
    pub named: Named,
}

impl Naming for Names<'_> {
    type Item = Candidate;

    ghost name = { λ names candidate. named_text names.ids.now names.classes.now names.listings.now.members candidate.named };

    fn compare(&self, one: Candidate, other: Candidate) -> Ordering {
        compare_named(self, one.named, other.named)
    }
}

impl Tables<'_> {
    /// The row of the method at a place among those that the file defines in a class.
    #[tactic(auto, unfolding(cc_meaning_program::specs::OwnerNumbers::method_placed, cc_meaning_program::specs::OwnerNumbers::method_in))]
    fn row_of(&self, class: ClassIx, place: u32) -> Option<u32>
        requires tables { AreTables self.now }
        requires there { class < length self.now.names.classes.now }
        ensures { result ≡ option_map (λ (raw : RawMethod). raw.row) (method_placed self.now.names.ids.now self.now.classes.now (name_at self.now.names.classes.now class) place) }
    {
        let raw = self.members(class)?.methods.get(place as usize)?;
        Some(raw.row)
    }

    /// What names a method within its class.
    fn member_of(&self, plan: MethodPlan) -> Member
        requires tables { AreTables self.now }
        requires there { plan.owner < length self.now.names.classes.now }
        ensures { member_text self.now.names.ids.now self.now.names.listings.now.members result
            ≡ source_member self.now.names.ids.now self.now.classes.now (name_at self.now.names.classes.now plan.owner) plan.source }
    {
        match plan.source {
            MethodSource::File { place } => match self.row_of(plan.owner, place) {
                Some(row) => Member::Method(row),
                None => Member::Missing,
            },
            MethodSource::BuiltIn { place } => match self.table(plan.owner) {
                Some(table) => Member::Listed { table, place },
                None => Member::Missing,
            },
            MethodSource::Outside { used } => Member::Method(used.row),
        }
    }

    /// What names a method.
    #[tactic(auto, unfolding(crate::specs::Named::named_text, cc_meaning_program::specs::Plans::method_plan_name))]
    pub fn named_method(&self, plan: MethodPlan) -> Named
        requires tables { AreTables self.now }
        requires there { plan.owner < length self.now.names.classes.now }
        ensures { named_text self.now.names.ids.now self.now.names.classes.now self.now.names.listings.now.members result
            ≡ method_plan_name self.now.names.ids.now self.now.classes.now self.now.names.classes.now plan }
    {
        Named {
            owner: plan.owner,
            member: self.member_of(plan),
        }
    }

    /// How many methods the file defines in a class.
    #[tactic(auto, unfolding(crate::specs::Candidates::method_count))]
    fn method_count(&self, class: ClassIx) -> usize
        requires tables { AreTables self.now }
        requires there { class < length self.now.names.classes.now }
        ensures { result ≡ method_count (members_of self.now.names.ids.now self.now.classes.now (name_at self.now.names.classes.now class)) }
    {
        match self.members(class) {
            Some(class) => class.methods.len(),
            None => 0,
        }
    }

    /// Adds the methods that the file defines in a class.
    fn add_defined(&self, all: &mut MethodPlans, owner: ClassIx) -> Result<(), AllocError>
        requires tables { AreTables self.now }
        requires there { owner < length self.now.names.classes.now }
        ensures { OnOk result ((plan : MethodPlan) → Contains all.new plan ↔ (Contains all.old plan
            ⊎ IsBelow (file_plan owner) (method_count (members_of self.now.names.ids.now self.now.classes.now (name_at self.now.names.classes.now owner))) plan)) }
    {
        for place in 0..count_of(self.method_count(owner))? {
            let source = MethodSource::File { place };
            all.push(MethodPlan { owner, source })?;
        }
        Ok(())
    }

    /// Adds the built-in methods that a class lists.
    fn add_listed(&self, all: &mut MethodPlans, owner: ClassIx) -> Result<(), AllocError>
        requires tables { AreTables self.now }
        requires there { owner < length self.now.names.classes.now }
        ensures { OnOk result ((plan : MethodPlan) → Contains all.new plan ↔ (Contains all.old plan
            ⊎ IsBelow (built_in_plan owner) (length (built_in_methods_of self.now.names.ids.now (name_at self.now.names.classes.now owner))) plan)) }
    {
        let table = self.table(owner);
        for place in 0..count_of(self.names.listings.count(table))? {
            let source = MethodSource::BuiltIn { place };
            all.push(MethodPlan { owner, source })?;
        }
        Ok(())
    }

    /// Adds the methods that a class has itself.
    fn add_own(&self, all: &mut MethodPlans, owner: ClassIx) -> Result<(), AllocError>
        requires tables { AreTables self.now }
        requires there { owner < length self.now.names.classes.now }
        ensures { OnOk result ((plan : MethodPlan) → Contains all.new plan ↔ (Contains all.old plan
            ⊎ IsOwnPlan self.now.names.ids.now self.now.classes.now self.now.names.classes.now owner plan)) }
    {
        self.add_defined(all, owner)?;
        self.add_listed(all, owner)?;
        Ok(())
    }

    /// The methods that classes have themselves.
    fn own_methods(&self, alloc: Global) -> Result<MethodPlans, AllocError>
        requires tables { AreTables self.now }
        requires few { length self.now.names.classes.now < 2 ^ 32 }
        ensures { IfOk result (λ all. (plan : MethodPlan) → Contains all plan
            ↔ IsOwnBelow self.now.names.ids.now self.now.classes.now self.now.names.classes.now (length self.now.names.classes.now) plan) }
    {
        let mut all = List::new(alloc);
        for owner in 0..self.names.classes.len() as u32 {
            self.add_own(&mut all, owner)?;
        }
        Ok(all)
    }

    /// Methods, each with what names it.
    fn candidates(&self, alloc: Global, plans: &[MethodPlan]) -> Result<List<Candidate>, AllocError>
        requires tables { AreTables self.now }
        requires there { (plan : MethodPlan) → Contains plans.now plan → plan.owner < length self.now.names.classes.now }
        ensures { IfOk result (AreCandidates self.now plans.now) }
    {
        let mut candidates = List::new(alloc);
        for plan in plans {
            let named = self.named_method(*plan);
            candidates.push(Candidate { plan: *plan, named })?;
        }
        Ok(candidates)
    }

    /// Methods in the order of their names, of each name the first.
    fn sorted_methods(&self, alloc: Global, plans: &[MethodPlan]) -> Result<MethodPlans, AllocError>
        requires tables { AreTables self.now }
        requires there { (plan : MethodPlan) → Contains plans.now plan → plan.owner < length self.now.names.classes.now }
        ensures order { IfOk result (AreInOrder (method_plan_name self.now.names.ids.now self.now.classes.now self.now.names.classes.now) plans.now) }
        ensures first { IfOk result (AreFirst (method_plan_name self.now.names.ids.now self.now.classes.now self.now.names.classes.now) plans.now) }
    {
        let candidates = self.candidates(alloc, plans)?;
        let sorted = first_in_order(alloc, &self.names, candidates)?;
        let mut plans = List::new(alloc);
        for candidate in sorted.as_slice() {
            plans.push(candidate.plan)?;
        }
        Ok(plans)
    }
}

/// The method that a use names, where no class has it itself.
#[tactic(auto, unfolding(crate::specs::Candidates::outside_plan))]
fn outside_method(owners: &MethodOwners, used: MethodUse) -> Option<MethodPlan>
    ensures { result ≡ outside_plan (slice_get owners.now used.row) used }
{
    match owners.get(used.row as usize) {
        Some(MethodOwner::Outside { class }) => Some(MethodPlan {
            owner: *class,
            source: MethodSource::Outside { used },
        }),
        _ => None,
    }
}

/// Adds the methods that uses name which no class has itself.
fn add_outside(
    all: &mut MethodPlans,
    owners: &MethodOwners,
    uses: &[MethodUse],
) -> Result<(), AllocError>
    ensures { OnOk result (all.new ≡ all.old ++ outside_plans owners.now uses.now) }
{
    for used in uses {
        if let Some(plan) = outside_method(owners, *used) {
            all.push(plan)?;
        }
    }
    Ok(())
}

/// All methods of a program, in rising order of their whole names: those that the file defines, the built-in ones of its classes, and of those that only
/// instructions name, the first call of each.
///
/// # Errors
///
/// `Memory`: there is no memory.
///
/// Source: Dalvik Executable format, sections method_id_item and class_data_item.
pub fn method_plans<'a>(
    alloc: Global,
    ids: &'a Ids,
    classes: &'a RawClasses,
    names: &'a Texts,
    outlines: &'a Outlines,
    owners: &MethodOwners,
    uses: &MethodUses,
) -> Result<MethodPlans, Memory>
    requires tables { FitTables ids.now }
    requires sound { AreSound ids.now classes.now }
    requires names { AreClassNames ids.now names.now }
    requires few { length names.now < 2 ^ 32 }
    requires outlines { AreOutlines ids.now names.now outlines.now }
    requires owners { AreMethodOwners ids.now classes.now names.now owners.now }
    requires uses { (fields : List ℕ) × AreUses classes.now uses.now fields }
    ensures { IfOk result (AreMethodPlans ids.now classes.now names.now uses.now) }
{
    one_method_owner();
    one_reading();
    let listings = known_listings(alloc)?;
    let names = Names {
        ids,
        classes: names,
        listings: &listings,
    };
    let tables = Tables {
        names,
        classes,
        outlines,
    };
    let mut all = tables.own_methods(alloc)?;
    add_outside(&mut all, owners, uses.as_slice())?;
    Ok(tables.sorted_methods(alloc, all.as_slice())?)
}
