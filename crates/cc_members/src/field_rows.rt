//! What rows of fields are among the fields of a program.

ghost use Rattle.std.specs.Prelude.{◌≡◌, ◌<◌, ◌^◌, ℕ, List, length, map, Contains, IfOk};
ghost use Rattle.cc_meaning.specs.Order.{IsRising};
ghost use Rattle.cc_meaning_program.specs.declared.plan.FieldPlan.{FieldPlan};
ghost use Rattle.cc_meaning_program.specs.declared.uses.MethodUse.{MethodUse};
ghost use Rattle.cc_meaning_program.specs.Outlines.{AreOutlines};
ghost use Rattle.cc_meaning_program.specs.OwnerNumbers.{AreFieldOwners};
ghost use Rattle.cc_meaning_program.specs.Plans.{AreFieldPlans, field_plan_name};
ghost use Rattle.cc_meaning_program.specs.Uses.{AreUses};
ghost use Rattle.cc_members.specs.Candidates.{AreTables, field_owner_class};
ghost use Rattle.cc_members.specs.Linked.{IsFieldLinked, AreFieldLinks, LinkFields};
ghost use Rattle.cc_members.specs.Named.{named_text};

use crate::named::{Member, Named, Names, find_named};
use crate::planned_built_in::known_listings;
use crate::tables::{Tables, count_of};
use cc_list::List;
use cc_meaning::fault::Memory;
use cc_meaning::file::{Ids, RawClasses};
use cc_meaning::lists::{ClassIx, FieldIx, Rows, Texts};
use cc_meaning_program::{
    FieldOwner, FieldOwners, FieldPlan, FieldPlans, Outlines, one_field_owner,
};
use std::alloc::{AllocError, Global};

impl Tables<'_> {
    /// What names fields.
    fn named_fields(&self, alloc: Global, plans: &[FieldPlan]) -> Result<List<Named>, AllocError>
        requires tables { AreTables self.now }
        requires there { (plan : FieldPlan) → Contains plans.now plan → plan.owner < length self.now.names.classes.now }
        ensures { IfOk result (λ named. map (named_text self.now.names.ids.now self.now.names.classes.now self.now.names.listings.now.members) named
            ≡ map (field_plan_name self.now.names.ids.now self.now.classes.now self.now.names.classes.now) plans.now) }
    {
        let mut named = List::new(alloc);
        for plan in plans {
            named.push(self.named_field(*plan))?;
        }
        Ok(named)
    }
}

/// The class of an owner.
#[tactic(auto, unfolding(crate::specs::Candidates::field_owner_class))]
fn owner_class(owner: FieldOwner) -> ClassIx
    ensures { result ≡ field_owner_class owner }
{
    match owner {
        FieldOwner::File { class, .. } => class,
        FieldOwner::Beyond { class } => class,
    }
}

impl Tables<'_> {
    /// What a row of fields is among fields that rise by their names.
    fn field_link(&self, named: &List<Named>, owners: &FieldOwners, row: u32) -> Option<FieldIx>
        requires owners { AreFieldOwners self.now.names.ids.now self.now.classes.now self.now.names.classes.now owners.now }
        requires rise { IsRising (map (named_text self.now.names.ids.now self.now.names.classes.now self.now.names.listings.now.members) named.now) }
        requires few_fields { length named.now < 2 ^ 32 }
        ensures { IsFieldLinked self.now.names.ids.now self.now.classes.now (map (named_text self.now.names.ids.now self.now.names.classes.now self.now.names.listings.now.members) named.now) row result }
    {
        one_field_owner();
        let owner = owners.get(row as usize)?;
        let wanted = Named {
            owner: owner_class(*owner),
            member: Member::Field(row),
        };
        let number = find_named(&self.names, named, wanted)?;
        Some(number)
    }

    /// What each row of fields is among fields that rise by their names.
    fn linked_fields(
        &self,
        alloc: Global,
        named: &List<Named>,
        owners: &FieldOwners,
    ) -> Result<List<Option<FieldIx>>, AllocError>
        requires owners { AreFieldOwners self.now.names.ids.now self.now.classes.now self.now.names.classes.now owners.now }
        requires rise { IsRising (map (named_text self.now.names.ids.now self.now.names.classes.now self.now.names.listings.now.members) named.now) }
        ensures { IfOk result (LinkFields self.now.names.ids.now self.now.classes.now
            (map (named_text self.now.names.ids.now self.now.names.classes.now self.now.names.listings.now.members) named.now) (length self.now.names.ids.now.fields)) }
    {
        count_of(named.len())?;
        let mut links = List::new(alloc);
        for row in 0..count_of(self.names.ids.fields.len())? {
            links.push(self.field_link(named, owners, row))?;
        }
        Ok(links)
    }
}

/// For each row of fields the field of the program that it names after resolution, where the program has that field. All that instructions use are so.
///
/// # Errors
///
/// `Memory`: there is no memory.
///
/// Source: Dalvik Executable format, section field_id_item.
pub fn field_links<'a>(
    alloc: Global,
    ids: &'a Ids,
    classes: &'a RawClasses,
    names: &'a Texts,
    outlines: &'a Outlines,
    owners: &FieldOwners,
    plans: &FieldPlans,
    uses: &Rows,
) -> Result<List<Option<FieldIx>>, Memory>
    requires outlines { AreOutlines ids.now names.now outlines.now }
    requires owners { AreFieldOwners ids.now classes.now names.now owners.now }
    requires plans { AreFieldPlans ids.now classes.now names.now uses.now plans.now }
    requires uses { (methods : List MethodUse) × AreUses classes.now methods uses.now }
    requires rows { (row : ℕ) → Contains uses.now row → row < length ids.now.fields }
    ensures { IfOk result (AreFieldLinks ids.now classes.now (map (field_plan_name ids.now classes.now names.now) plans.now) uses.now) }
{
    let listings = known_listings(alloc)?;
    let names = Names {
        ids,
        classes: names,
        listings: &listings,
    };
    let tables = Tables {
        names,
        classes,
        outlines,
    };
    let named = tables.named_fields(alloc, plans.as_slice())?;
    Ok(tables.linked_fields(alloc, &named, owners)?)
}
