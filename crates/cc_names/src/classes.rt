//! The names of a program's classes.

ghost use Rattle.std.specs.Prelude.{◌≡◌, ◌∷◌, [], ◌↔◌, ◌++◌, ℕ, List, Contains, map, length, ◌+◌, ◌*◌, ◌≤◌, IfOk, OnOk};
ghost use Rattle.std.specs.List.{flat_map};
ghost use Rattle.cc_meaning_program.specs.ClassNames.{AreClassNames};
ghost use Rattle.cc_names.specs.Candidates.{AreKnown, candidate_name, whole_of, base_of, candidates_of};

use crate::order::{Naming, in_order};
use crate::rows::{base_name, names_class, names_reference, text};
use cc_built_in::{built_in_names, units_of};
use cc_list::List;
use cc_meaning::fault::Memory;
use cc_meaning::file::Ids;
use cc_meaning::lists::{Rows, Texts, Units};
use std::alloc::{AllocError, Global};
use std::cmp::Ordering;

/// What may have the name of a class: a row of texts, what stands behind the `[` of one, or one of the names that every program has, by its number.
#[derive(Clone, Copy)]
pub enum Candidate {
    Whole(u32),
    Base(u32),
    Known(u32),
}

/// Where candidates have their names.
#[derive(Clone, Copy)]
struct Candidates<'a> {
    ids: &'a Ids,
    known: &'a Texts,
}

impl Candidates<'_> {
    /// The name of a candidate.
    #[tactic(auto, unfolding(crate::specs::Candidates::candidate_name))]
    fn name(&self, candidate: Candidate) -> &[u16]
        ensures { result.now ≡ candidate_name self.now.ids.now self.now.known.now candidate }
    {
        match candidate {
            Candidate::Whole(row) => text(self.ids, row),
            Candidate::Base(row) => base_name(text(self.ids, row)),
            Candidate::Known(number) => match self.known.get(number as usize) {
                Some(name) => name.as_slice(),
                None => &[],
            },
        }
    }
}

impl Naming for Candidates<'_> {
    type Item = Candidate;

    ghost name = { λ names candidate. candidate_name names.ids.now names.known.now candidate };

    fn compare(&self, one: Candidate, other: Candidate) -> Ordering {
        self.name(one).cmp(&self.name(other))
    }
}

/// Rows that have their own numbers as names.
#[derive(Clone, Copy)]
struct ByNumber;

impl Naming for ByNumber {
    type Item = u32;

    ghost name = { λ _ row. row ∷ [] };

    fn compare(&self, one: u32, other: u32) -> Ordering {
        one.cmp(&other)
    }
}

/// The names of the classes that every program has: the built-in classes, and the array of texts, of which the arguments of `main` are one.
fn known_names(alloc: Global) -> Result<Texts, AllocError>
    ensures { IfOk result AreKnown }
{
    let mut names = built_in_names(alloc)?;
    names.push(units_of(alloc, b"[Ljava/lang/String;")?)?;
    Ok(names)
}

/// The rows of texts that types have, each once.
fn described(alloc: Global, ids: &Ids) -> Result<Rows, AllocError>
    ensures are { IfOk result (λ rows. (row : ℕ) → Contains rows row ↔ Contains ids.now.types row) }
    ensures few { IfOk result (λ rows. length rows ≤ length ids.now.types) }
{
    let rows = in_order(alloc, &ByNumber, ids.types.copy()?)?;
    Ok(rows)
}

/// Adds the candidates that a row of texts makes: its text where that is a class or an array, and what stands behind its `[` where that is a class.
#[tactic(auto, unfolding(crate::specs::Candidates::whole_of, crate::specs::Candidates::base_of, crate::specs::Candidates::candidates_of))]
fn add_listed(all: &mut List<Candidate>, ids: &Ids, row: u32) -> Result<(), AllocError>
    ensures { OnOk result (all.new ≡ all.old ++ candidates_of ids.now row) }
{
    add_whole(all, ids, row)?;
    add_base(all, ids, row)
}

#[tactic(auto, unfolding(crate::specs::Candidates::whole_of))]
fn add_whole(all: &mut List<Candidate>, ids: &Ids, row: u32) -> Result<(), AllocError>
    ensures { OnOk result (all.new ≡ all.old ++ whole_of ids.now row) }
{
    if names_reference(text(ids, row)) {
        all.push(Candidate::Whole(row))?;
    }
    Ok(())
}

#[tactic(auto, unfolding(crate::specs::Candidates::base_of))]
fn add_base(all: &mut List<Candidate>, ids: &Ids, row: u32) -> Result<(), AllocError>
    ensures { OnOk result (all.new ≡ all.old ++ base_of ids.now row) }
{
    if names_class(base_name(text(ids, row))) {
        all.push(Candidate::Base(row))?;
    }
    Ok(())
}

/// The candidates that these rows of texts make.
fn listed_candidates(alloc: Global, ids: &Ids, rows: &[u32]) -> Result<List<Candidate>, AllocError>
    ensures { IfOk result (λ all. all ≡ flat_map (candidates_of ids.now) rows.now) }
{
    let mut all = List::new(alloc);
    for row in rows {
        add_listed(&mut all, ids, *row)?;
    }
    Ok(all)
}

/// Adds a candidate for each of the first names that every program has.
#[tactic(auto, unfolding(crate::specs::Candidates::candidate_name))]
fn add_known(all: &mut List<Candidate>, count: u32) -> Result<(), AllocError>
    ensures { OnOk result ((ids : Ids) (known : List (List ℕ)) → count ≡ length known →
        map (candidate_name ids known) all.new ≡ map (candidate_name ids known) all.old ++ known) }
{
    for number in 0..count {
        all.push(Candidate::Known(number))?;
    }
    Ok(())
}

/// The names of a file's classes, each once, in rising order by units: the classes and arrays that its types list, the classes of which these arrays are
/// made, the built-in classes, and the array of texts. So there are at most two for each type, and 27.
///
/// # Errors
///
/// `Memory`: there is no memory.
///
/// Source: Dalvik Executable format, section type_id_item.
pub fn class_names(alloc: Global, ids: &Ids) -> Result<Texts, Memory>
    ensures names { IfOk result (AreClassNames ids.now) }
    ensures few { IfOk result (λ names. length names ≤ 2 * length ids.now.types + 27) }
{
    let known = known_names(alloc)?;
    let rows = described(alloc, ids)?;
    let mut all = listed_candidates(alloc, ids, rows.as_slice())?;
    add_known(&mut all, known.len() as u32)?;
    let naming = Candidates { ids, known: &known };
    let sorted = in_order(alloc, &naming, all)?;
    let mut names = List::new(alloc);
    for candidate in sorted.as_slice() {
        names.push(List::from_slice(alloc, naming.name(*candidate))?)?;
    }
    Ok(names)
}
