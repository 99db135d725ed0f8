//! The members that built-in classes and arrays list, and `System.out`.

ghost use Rattle.std.specs.Prelude.{◌≡◌, ◌∷◌, [], ◌<◌, ◌+◌, ◌^◌, ℕ, List, map, length, position, IfOk};
ghost use Rattle.std.specs.Str.{bytes_eq};
ghost use Rattle.cc_meaning.specs.BuiltIn.{system_name};
ghost use Rattle.cc_built_in.specs.BuiltInMethods.{built_in_member};
ghost use Rattle.cc_built_in.specs.Listed.{members_listed};
ghost use Rattle.cc_built_in.specs.declared.table.ListedClass.{ListedClass};
ghost use Rattle.cc_meaning_program.specs.Members.{out_member};
ghost use Rattle.cc_meaning_program.specs.OwnMembers.{built_in_by_kind};
ghost use Rattle.cc_members.specs.ListedNames.{AreListings, listed_at, listed_text};

use cc_built_in::table::{ListedClass, ListedMethod};
use cc_built_in::{array_methods, built_in_classes, built_in_names, units_of};
use cc_list::List;
use cc_meaning::lists::{Texts, Units};
use cc_meaning::program::ClassKind;
use std::alloc::{AllocError, Global};

const SYSTEM: &[u8] = b"Ljava/lang/System;";

/// `System.out`, as printed within its class.
const OUT: &[u8] = b"out:Ljava/io/PrintStream;";

/// The names of the built-in classes in their order, the names of members within them, and that of `System`. Members stand class by class in that order,
/// then those of arrays, then `System.out`.
#[derive(Drop)]
pub struct Listings {
    pub(crate) classes: Texts,
    pub(crate) members: List<Texts>,
    pub(crate) system: Units,
}

/// The names of methods within their class.
fn names_of(alloc: Global, methods: &[ListedMethod]) -> Result<Texts, AllocError>
    ensures { IfOk result (λ names. names ≡ members_listed methods.now) }
{
    let mut names = List::new(alloc);
    for method in methods {
        names.push(units_of(alloc, method.member)?)?;
    }
    Ok(names)
}

/// The names of the methods of classes, class by class.
fn names_of_each(alloc: Global, classes: &[ListedClass]) -> Result<List<Texts>, AllocError>
    ensures { IfOk result (λ names. names ≡ map (λ (class : ListedClass). members_listed class.methods.now) classes.now) }
{
    let mut names = List::new(alloc);
    for class in classes {
        names.push(names_of(alloc, class.methods)?)?;
    }
    Ok(names)
}

/// The name of `System.out` within its class, alone.
fn name_of_out(alloc: Global) -> Result<Texts, AllocError>
    ensures { IfOk result (λ names. names ≡ out_member ∷ []) }
{
    let mut names = List::new(alloc);
    let out = units_of(alloc, OUT)?;
    names.push(out)?;
    Ok(names)
}

/// The classes and their members.
pub fn known_listings(alloc: Global) -> Result<Listings, AllocError>
    ensures { IfOk result AreListings }
{
    let classes = built_in_names(alloc)?;
    let mut members = names_of_each(alloc, built_in_classes())?;
    let arrays = names_of(alloc, array_methods())?;
    members.push(arrays)?;
    let out = name_of_out(alloc)?;
    members.push(out)?;
    let system = units_of(alloc, SYSTEM)?;
    Ok(Listings {
        classes,
        members,
        system,
    })
}

/// The place of a name among names, where it stands there.
fn place_among(names: &[Units], name: &[u16]) -> Option<u32>
    requires { length names.now < 2 ^ 32 }
    ensures { result ≡ position (λ (other : List ℕ). bytes_eq other name.now) names.now }
{
    let mut place = 0;
    for other in names {
        if other.as_slice() == name {
            return Some(place);
        }
        place += 1;
    }
    None
}

impl Listings {
    /// The place of the members of arrays, which is behind those of all classes.
    fn array_table(&self) -> u32
        requires { AreListings self.now }
        ensures is { result ≡ length self.now.classes }
        ensures few { result + 1 < 2 ^ 32 }
    {
        self.classes.len() as u32
    }

    /// The place of `System.out`, which is behind arrays.
    pub fn out_table(&self) -> u32
        requires { AreListings self.now }
        ensures { listed_text self.now.members result 0 ≡ out_member }
    {
        self.array_table() + 1
    }

    /// Where the members stand that the class of a name lists itself, by what it is.
    pub fn table_of(&self, kind: ClassKind, class: &[u16]) -> Option<u32>
        requires { AreListings self.now }
        ensures { listed_at self.now.members result ≡ map built_in_member (built_in_by_kind kind class.now) }
    {
        match kind {
            ClassKind::BuiltIn => place_among(self.classes.as_slice(), class),
            ClassKind::Array => Some(self.array_table()),
            _ => None,
        }
    }

    /// How many members stand at a place.
    #[tactic(auto, unfolding(crate::specs::ListedNames::listed_at))]
    pub fn count(&self, table: Option<u32>) -> usize
        ensures { result ≡ length (listed_at self.now.members table) }
    {
        match table {
            Some(table) => match self.members.get(table as usize) {
                Some(members) => members.len(),
                None => 0,
            },
            None => 0,
        }
    }

    /// A member's name within its class, by the places of its table and within it.
    #[tactic(auto, unfolding(crate::specs::ListedNames::listed_at, crate::specs::ListedNames::listed_text))]
    pub fn text(&self, table: u32, place: u32) -> &[u16]
        ensures { result.now ≡ listed_text self.now.members table place }
    {
        match self.members.get(table as usize) {
            Some(members) => match members.get(place as usize) {
                Some(member) => member.as_slice(),
                None => &[],
            },
            None => &[],
        }
    }

    /// The name of `System`.
    pub fn system(&self) -> &[u16]
        requires { AreListings self.now }
        ensures { result.now ≡ system_name }
    {
        self.system.as_slice()
    }
}
