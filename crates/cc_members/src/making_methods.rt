//! The methods of a program.

ghost use Rattle.cc_meaning_dex.specs.CodeItems.{has_flag};
ghost use Rattle.cc_built_in.specs.BuiltInMethods.{BuiltInMethod};
ghost use Rattle.std.specs.Prelude.{◌≡◌, ◌^◌, ◌<◌, ℕ, List, Contains, length, map, slice_get, IfOk, OnOk};
ghost use Rattle.cc_meaning.specs.Order.{IsRising};
ghost use Rattle.cc_meaning.specs.declared.program.DexType.{DexType};
ghost use Rattle.cc_bodies.specs.Bodies.{AreBodies};
ghost use Rattle.cc_meaning_program.specs.Outlines.{AreOutlines};
ghost use Rattle.cc_meaning_program.specs.OwnerNumbers.{method_in};
ghost use Rattle.cc_meaning_program.specs.Rows.{FitTables, FitClasses};
ghost use Rattle.cc_meaning_program.specs.BodyFaults.{HaveSoundBodies};
ghost use Rattle.cc_meaning_program.specs.ClassNames.{AreClassNames};
ghost use Rattle.cc_members.specs.MethodPremises.{ArePlannedMethods, HaveMethodNames, LinkFile, PlanMethods};
ghost use Rattle.cc_meaning_program.specs.TypeNames.{Spells};
ghost use Rattle.cc_meaning_program.specs.Members.{Pairs, is_static_call, is_virtual_call};
ghost use Rattle.cc_built_in.specs.Listed.{method_of};
ghost use Rattle.cc_members.specs.MadeMethods.{IsSpelled, KindCanBeMade, KindMade, ListedStands, MethodCanBeMade, MethodIs, MethodMade, MethodOfListed, MethodOfRow, MethodRowStands, SourceTakes, listed_at};
ghost use Rattle.cc_members.specs.Stated.{members_at};
ghost use Rattle.std.specs.Option.{option_copied};

use crate::made_built_in::method_listed;
use crate::sources::{Sources, linked_type};
use crate::taking::take_body;
use cc_bodies::{Bodies, link_code, sound_code_is_linkable};
use cc_built_in::table::ListedMethod;
use cc_built_in::units_of;
use cc_list::List;
use cc_meaning::fault::Memory;
use cc_meaning::file::{Ids, RawClasses, RawMethod};
use cc_meaning::instruction::How;
use cc_meaning::lists::{ClassIx, Texts};
use cc_meaning::program::{DexType, Insns, Method, MethodKind, Methods, Types};
use cc_meaning_program::{
    Links, MethodPlan, MethodPlans, MethodSource, MethodUse, Outlines, listed_types_spelled,
    stand_to_end,
};
use std::alloc::{AllocError, Global};

/// The access flag of a static method.
const STATIC: u32 = 0x8;

/// That of a native method.
const NATIVE: u32 = 0x100;

/// That of an abstract method.
const ABSTRACT: u32 = 0x400;

/// The name of constructors.
const CONSTRUCTOR: &[u8] = b"<init>";

/// Whether access flags have a flag.
fn has_flag(flags: u32, flag: u32) -> bool
    ensures { result ≡ has_flag flags flag }
{
    flags & flag != 0
}

/// Whether what is called so is static.
#[tactic(auto, unfolding(cc_meaning_program::specs::Members::is_static_call))]
fn is_static_call(how: How) -> bool
    ensures { result ≡ is_static_call (Some how) }
{
    matches!(how, How::Static)
}

/// Whether a call of it is dispatched.
#[tactic(auto, unfolding(cc_meaning_program::specs::Members::is_virtual_call))]
fn is_virtual_call(how: How) -> bool
    ensures { result ≡ is_virtual_call (Some how) }
{
    !matches!(how, How::Static | How::Direct)
}

/// The types that rows link to.
fn linked_types(
    alloc: Global,
    types: &List<Option<DexType>>,
    rows: &[u32],
) -> Result<Types, AllocError>
    requires { (row : ℕ) → Contains rows.now row → (ty : DexType) × (slice_get types.now row ≡ Some (Some ty)) }
    ensures { IfOk result (λ linked. map (λ (ty : DexType). Some (Some ty)) linked ≡ map (slice_get types.now) rows.now) }
{
    let mut linked = List::new(alloc);
    for row in rows {
        linked.push(linked_type(types, *row))?;
    }
    Ok(linked)
}

impl<'a> Sources<'a> {
    /// The method at a place among those that the file defines in a class.
    #[tactic(auto, unfolding(cc_meaning_program::specs::OwnerNumbers::method_in))]
    fn raw_method(&self, owner: ClassIx, place: u32) -> Option<&'a RawMethod>
        ensures { option_copied result ≡ method_in place (members_at self.now.classes.now self.now.outlines.now owner) }
    {
        let class = self.members(owner)?;
        class.methods.get(place as usize)
    }

    /// A method of a class with the name and the types of a row.
    #[tactic(auto, unfolding(cc_meaning_program::specs::Named::text_of))]
    fn method_of_row(
        &self,
        alloc: Global,
        owner: ClassIx,
        row: u32,
        is_static: bool,
        is_virtual: bool,
        kind: MethodKind,
    ) -> Result<Method, AllocError>
        requires { MethodRowStands self.now.ids.now self.now.links.now.types row }
        ensures row { IfOk result (MethodOfRow self.now.ids.now self.now.links.now.types owner row) }
        ensures is { IfOk result (MethodIs is_static is_virtual (λ made. made ≡ kind)) }
    {
        let stated = self.ids.methods.at(row as usize);
        let prototype = self.ids.protos.at(stated.proto as usize);
        let name = self.ids.texts.at(stated.name as usize).copy()?;
        let params = linked_types(alloc, &self.links.types, prototype.params.as_slice())?;
        Ok(Method {
            class: owner,
            name,
            params,
            result: *self.links.types.at(prototype.result as usize),
            is_static,
            is_virtual,
            kind,
        })
    }

    /// What a method of the file does, by its body.
    fn kind(
        &self,
        alloc: Global,
        raw: &RawMethod,
        body: Option<Insns>,
    ) -> Result<MethodKind, Memory>
        requires { KindCanBeMade self.now.links.now raw.now body }
        ensures { IfOk result (KindMade self.now.ids.now self.now.classes.now self.now.links.now raw.now) }
    {
        if has_flag(raw.flags, NATIVE) {
            return Ok(MethodKind::Native);
        }
        if has_flag(raw.flags, ABSTRACT) {
            return Ok(MethodKind::Abstract);
        }
        match (&raw.code, body) {
            (Some(code), Some(insns)) => {
                let linked = link_code(alloc, self.links, code, insns)?;
                Ok(MethodKind::Code(linked))
            }
            _ => unreachable!(),
        }
    }

    /// A method that the file defines, whose body is taken.
    fn defined_method(
        &self,
        alloc: Global,
        bodies: &mut Bodies,
        owner: ClassIx,
        place: u32,
    ) -> Result<Method, Memory>
        requires can { MethodCanBeMade self.now.ids.now self.now.classes.now self.now.names.now self.now.outlines.now self.now.links.now bodies.old owner (MethodSource.File place) }
        ensures made { IfOk result (MethodMade self.now.ids.now self.now.classes.now self.now.names.now self.now.outlines.now self.now.links.now owner (MethodSource.File place)) }
        ensures left { OnOk result (SourceTakes self.now.outlines.now owner (MethodSource.File place) bodies.old bodies.new) }
    {
        let Some(definition) = self.definition(owner) else {
            unreachable!();
        };
        let Some(raw) = self.raw_method(owner, place) else {
            unreachable!();
        };
        let body = take_body(bodies, definition, place);
        let kind = self.kind(alloc, raw, body)?;
        let is_static = has_flag(raw.flags, STATIC);
        let method = self.method_of_row(alloc, owner, raw.row, is_static, !raw.is_direct, kind)?;
        Ok(method)
    }

    /// The types that spell texts.
    fn spelled_types(&self, alloc: Global, texts: &[&[u8]]) -> Result<Types, AllocError>
        requires few { length self.now.names.now < 2 ^ 32 }
        requires rise { IsRising self.now.names.now }
        requires spelled { (text : List ℕ) → Contains (map (λ text. text.now) texts.now) text → IsSpelled self.now.names.now text }
        ensures { IfOk result (λ types. Pairs (Spells self.now.names.now) types (map (λ text. text.now) texts.now)) }
    {
        let mut types = List::new(alloc);
        for text in texts {
            match self.spelled(alloc, text)? {
                Some(ty) => types.push(ty)?,
                None => unreachable!(),
            }
        }
        Ok(types)
    }

    /// A built-in method.
    fn method_of_listed(
        &self,
        alloc: Global,
        owner: ClassIx,
        listed: &ListedMethod,
    ) -> Result<Method, AllocError>
        requires few { length self.now.names.now < 2 ^ 32 }
        requires rise { IsRising self.now.names.now }
        requires stands { (class : List ℕ) × ListedStands self.now.names.now (method_of class listed.now) }
        ensures { IfOk result (λ method. (class : List ℕ) → MethodOfListed self.now.names.now owner (method_of class listed.now) method) }
    {
        let name = units_of(alloc, listed.name)?;
        let params = self.spelled_types(alloc, listed.params)?;
        let result = self.spelled(alloc, listed.result)?;
        Ok(Method {
            class: owner,
            name,
            params,
            result,
            is_static: false,
            is_virtual: listed.name != CONSTRUCTOR,
            kind: MethodKind::BuiltIn,
        })
    }

    /// The built-in method at a place among those that a class lists.
    #[tactic(auto, unfolding(cc_meaning_program::specs::Plans::name_at))]
    fn built_in_method(
        &self,
        alloc: Global,
        owner: ClassIx,
        place: u32,
    ) -> Result<Method, AllocError>
        requires few { length self.now.names.now < 2 ^ 32 }
        requires rise { IsRising self.now.names.now }
        requires known { owner < length self.now.names.now }
        requires can { (listed : BuiltInMethod) × (listed_at self.now.names.now self.now.outlines.now owner place ≡ Some listed) × ListedStands self.now.names.now listed }
        ensures { IfOk result (MethodMade self.now.ids.now self.now.classes.now self.now.names.now self.now.outlines.now self.now.links.now owner (MethodSource.BuiltIn place)) }
    {
        let Some(outline) = self.outlines.get(owner as usize) else {
            unreachable!();
        };
        let class = self.names.at(owner as usize).as_slice();
        match method_listed(outline.kind, class, place) {
            Some(listed) => self.method_of_listed(alloc, owner, listed),
            None => unreachable!(),
        }
    }

    /// A method that instructions alone name, by the first call of it.
    fn outside_method(
        &self,
        alloc: Global,
        owner: ClassIx,
        used: MethodUse,
    ) -> Result<Method, AllocError>
        requires { MethodRowStands self.now.ids.now self.now.links.now.types used.row }
        ensures { IfOk result (MethodMade self.now.ids.now self.now.classes.now self.now.names.now self.now.outlines.now self.now.links.now owner (MethodSource.Outside used)) }
    {
        let is_static = is_static_call(used.how);
        let is_virtual = is_virtual_call(used.how);
        let kind = MethodKind::Outside;
        let method = self.method_of_row(alloc, owner, used.row, is_static, is_virtual, kind)?;
        Ok(method)
    }

    /// The method of a plan. Where the file defines it, its body is taken.
    fn method(&self, alloc: Global, bodies: &mut Bodies, plan: MethodPlan) -> Result<Method, Memory>
        requires few { length self.now.names.now < 2 ^ 32 }
        requires rise { IsRising self.now.names.now }
        requires known { plan.owner < length self.now.names.now }
        requires can { MethodCanBeMade self.now.ids.now self.now.classes.now self.now.names.now self.now.outlines.now self.now.links.now bodies.old plan.owner plan.source }
        ensures made { IfOk result (MethodMade self.now.ids.now self.now.classes.now self.now.names.now self.now.outlines.now self.now.links.now plan.owner plan.source) }
        ensures left { OnOk result (SourceTakes self.now.outlines.now plan.owner plan.source bodies.old bodies.new) }
    {
        match plan.source {
            MethodSource::File { place } => self.defined_method(alloc, bodies, plan.owner, place),
            MethodSource::BuiltIn { place } => {
                let method = self.built_in_method(alloc, plan.owner, place)?;
                Ok(method)
            }
            MethodSource::Outside { used } => {
                let method = self.outside_method(alloc, plan.owner, used)?;
                Ok(method)
            }
        }
    }
}

/// The methods of a program, one for each plan, in their order. The bodies of those that the file defines are taken, and their code is linked.
///
/// # Errors
///
/// `Memory`: there is no memory.
///
/// Source: Dalvik Executable format, sections method_id_item, proto_id_item and encoded_method format.
pub fn methods(
    alloc: Global,
    ids: &Ids,
    classes: &RawClasses,
    names: &Texts,
    outlines: &Outlines,
    links: &Links,
    plans: &MethodPlans,
    mut bodies: Bodies,
) -> Result<Methods, Memory>
    requires tables { FitTables ids.now }
    requires members { FitClasses ids.now classes.now }
    requires sound { HaveSoundBodies ids.now classes.now }
    requires names { AreClassNames ids.now names.now }
    requires few { length names.now < 2 ^ 32 }
    requires outlines { AreOutlines ids.now names.now outlines.now }
    requires links { LinkFile ids.now classes.now names.now links.now }
    requires plans { PlanMethods ids.now classes.now names.now plans.now }
    requires bodies { AreBodies classes.now bodies }
    ensures all { IfOk result (λ methods. length methods ≡ length plans.now) }
    ensures named { IfOk result (HaveMethodNames ids.now classes.now names.now plans.now) }
    ensures each { IfOk result (ArePlannedMethods ids.now classes.now names.now links.now plans.now) }
{
    listed_types_spelled();
    stand_to_end();
    sound_code_is_linkable();
    let sources = Sources {
        ids,
        classes,
        names,
        outlines,
        links,
    };
    let mut methods = List::new(alloc);
    for plan in plans.as_slice() {
        methods.push(sources.method(alloc, &mut bodies, *plan)?)?;
    }
    Ok(methods)
}
