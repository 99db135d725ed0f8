//! What rows of methods are among the methods of a program.

ghost use Rattle.std.specs.Prelude.{◌≡◌, ◌<◌, ◌^◌, ℕ, List, length, map, slice_get, Some, Contains, IfOk};
ghost use Rattle.cc_meaning.specs.Order.{IsRising};
ghost use Rattle.cc_meaning_program.specs.ClassNames.{AreClassNames};
ghost use Rattle.cc_meaning_program.specs.declared.plan.MethodPlan.{MethodPlan};
ghost use Rattle.cc_meaning_program.specs.declared.uses.MethodUse.{MethodUse};
ghost use Rattle.cc_meaning_program.specs.Outlines.{AreOutlines};
ghost use Rattle.cc_meaning_program.specs.OwnerNumbers.{AreMethodOwners};
ghost use Rattle.cc_meaning_program.specs.Plans.{AreMethodPlans, method_plan_name};
ghost use Rattle.cc_meaning_program.specs.Rows.{FitTables};
ghost use Rattle.cc_meaning_program.specs.Uses.{AreUses};
ghost use Rattle.cc_members.specs.Candidates.{AreTables, owner_class};
ghost use Rattle.cc_members.specs.Linked.{IsMethodLinked, AreMethodLinks, LinkMethods};
ghost use Rattle.cc_members.specs.Named.{named_text};

use crate::named::{Member, Named, Names, find_named};
use crate::planned_built_in::known_listings;
use crate::tables::{Tables, count_of};
use cc_list::List;
use cc_meaning::fault::Memory;
use cc_meaning::file::{Ids, RawClasses};
use cc_meaning::lists::{ClassIx, Texts};
use cc_meaning_program::{
    MethodLink, MethodOwner, MethodOwners, MethodPlan, MethodPlans, MethodUses, Outlines,
    one_method_owner, one_reading,
};
use cc_names::{find, type_name};
use std::alloc::{AllocError, Global};

impl Tables<'_> {
    /// What names methods.
    fn named_methods(&self, alloc: Global, plans: &[MethodPlan]) -> Result<List<Named>, AllocError>
        requires tables { AreTables self.now }
        requires there { (plan : MethodPlan) → Contains plans.now plan → plan.owner < length self.now.names.classes.now }
        ensures { IfOk result (λ named. map (named_text self.now.names.ids.now self.now.names.classes.now self.now.names.listings.now.members) named
            ≡ map (method_plan_name self.now.names.ids.now self.now.classes.now self.now.names.classes.now) plans.now) }
    {
        let mut named = List::new(alloc);
        for plan in plans {
            named.push(self.named_method(*plan))?;
        }
        Ok(named)
    }
}

/// The class of an owner.
#[tactic(auto, unfolding(crate::specs::Candidates::owner_class))]
fn owner_class(owner: MethodOwner) -> ClassIx
    ensures { result ≡ owner_class owner }
{
    match owner {
        MethodOwner::File { class, .. } => class,
        MethodOwner::BuiltIn { class, .. } => class,
        MethodOwner::Outside { class } => class,
    }
}

impl Tables<'_> {
    /// What a row of methods is among methods that rise by their names.
    fn method_link(
        &self,
        named: &List<Named>,
        owners: &MethodOwners,
        row: u32,
    ) -> Option<MethodLink>
        requires tables { FitTables self.now.names.ids.now }
        requires names { AreClassNames self.now.names.ids.now self.now.names.classes.now }
        requires few { length self.now.names.classes.now < 2 ^ 32 }
        requires owners { AreMethodOwners self.now.names.ids.now self.now.classes.now self.now.names.classes.now owners.now }
        requires rise { IsRising (map (named_text self.now.names.ids.now self.now.names.classes.now self.now.names.listings.now.members) named.now) }
        requires few_methods { length named.now < 2 ^ 32 }
        ensures { IsMethodLinked self.now.names.ids.now self.now.classes.now self.now.names.classes.now (map (named_text self.now.names.ids.now self.now.names.classes.now self.now.names.listings.now.members) named.now) row result }
    {
        one_method_owner();
        let stated = self.names.ids.methods.get(row as usize)?;
        let owner = owners.get(row as usize)?;
        let class = find(self.names.classes, type_name(self.names.ids, stated.class))?;
        let wanted = Named {
            owner: owner_class(*owner),
            member: Member::Method(row),
        };
        let number = find_named(&self.names, named, wanted)?;
        Some(MethodLink { class, number })
    }

    /// What each row of methods is among methods that rise by their names.
    fn linked_methods(
        &self,
        alloc: Global,
        named: &List<Named>,
        owners: &MethodOwners,
    ) -> Result<List<Option<MethodLink>>, AllocError>
        requires tables { FitTables self.now.names.ids.now }
        requires names { AreClassNames self.now.names.ids.now self.now.names.classes.now }
        requires few { length self.now.names.classes.now < 2 ^ 32 }
        requires owners { AreMethodOwners self.now.names.ids.now self.now.classes.now self.now.names.classes.now owners.now }
        requires rise { IsRising (map (named_text self.now.names.ids.now self.now.names.classes.now self.now.names.listings.now.members) named.now) }
        ensures { IfOk result (LinkMethods self.now.names.ids.now self.now.classes.now self.now.names.classes.now
            (map (named_text self.now.names.ids.now self.now.names.classes.now self.now.names.listings.now.members) named.now) (length self.now.names.ids.now.methods)) }
    {
        count_of(named.len())?;
        let mut links = List::new(alloc);
        for row in 0..count_of(self.names.ids.methods.len())? {
            links.push(self.method_link(named, owners, row))?;
        }
        Ok(links)
    }
}

/// For each row of methods the method of the program that it names after resolution, and the class that it states, where the program has that method. All
/// that instructions use are so.
///
/// # Errors
///
/// `Memory`: there is no memory.
///
/// Source: Dalvik Executable format, section method_id_item.
pub fn method_links<'a>(
    alloc: Global,
    ids: &'a Ids,
    classes: &'a RawClasses,
    names: &'a Texts,
    outlines: &'a Outlines,
    owners: &MethodOwners,
    plans: &MethodPlans,
    uses: &MethodUses,
) -> Result<List<Option<MethodLink>>, Memory>
    requires tables { FitTables ids.now }
    requires names { AreClassNames ids.now names.now }
    requires few { length names.now < 2 ^ 32 }
    requires outlines { AreOutlines ids.now names.now outlines.now }
    requires owners { AreMethodOwners ids.now classes.now names.now owners.now }
    requires plans { AreMethodPlans ids.now classes.now names.now uses.now plans.now }
    requires uses { (fields : List ℕ) × AreUses classes.now uses.now fields }
    requires rows { (used : MethodUse) → Contains uses.now used → used.row < length ids.now.methods }
    ensures { IfOk result (AreMethodLinks ids.now classes.now names.now (map (method_plan_name ids.now classes.now names.now) plans.now) uses.now) }
{
    let listings = known_listings(alloc)?;
    let names = Names {
        ids,
        classes: names,
        listings: &listings,
    };
    let tables = Tables {
        names,
        classes,
        outlines,
    };
    let named = tables.named_methods(alloc, plans.as_slice())?;
    Ok(tables.linked_methods(alloc, &named, owners)?)
}
