//! Members and names that stand twice.

ghost use Rattle.std.specs.Prelude.{◌≡◌, ℕ, List, true, false, not, if◌then◌else◌, IfOk, OnOk, MatchOption};
ghost use Rattle.std.specs.List.{list_any};
ghost use Rattle.std.specs.Str.{bytes_eq};
ghost use Rattle.std.specs.HashSet.{contains_text};
ghost use Rattle.cc_meaning_script.specs.declared.listed.ListedAnswer.{ListedAnswer};
ghost use Rattle.cc_meaning_script.specs.Listed.{repeats, contradicts};
ghost use Rattle.cc_script.specs.Seen.{HoldsMembers};

use cc_meaning::text::Text;
use cc_meaning_script::listed::{ListedAnswer, ListedClass};
use std::alloc::{AllocError, Global};
use std::collections::HashSet;

/// Adds a text to those that were seen, and says whether it is new.

pub(crate) fn add(
    alloc: Global,
    seen: &mut HashSet<String>,
    text: &Text,
) -> Result<bool, AllocError>
    ensures fresh { IfOk result (λ fresh. fresh ≡ not (contains_text seen.old text.now)) }
    ensures grown { OnOk result ((other : List ℕ) → contains_text seen.new other ≡ (if bytes_eq text.now other then true else contains_text seen.old other)) }
{
    let key = text.as_str().to_string(alloc)?;
    Ok(seen.insert(key)?)
}

/// The members of pairs, where none stands twice.
#[tactic(auto, using(crate::proofs::SeenLemmas::seen_none, crate::proofs::SeenLemmas::seen_more, crate::proofs::SeenLemmas::seen_twice, crate::proofs::SeenLemmas::seen_all))]
fn free_members(
    alloc: Global,
    pairs: &[ListedAnswer],
) -> Result<Option<HashSet<String>>, AllocError>
    ensures { IfOk result (λ found. MatchOption found (repeats pairs.now ≡ true) (HoldsMembers pairs.now)) }
{
    let mut seen = HashSet::new(alloc);
    for pair in pairs {
        if !add(alloc, &mut seen, &pair.member)? {
            return Ok(None);
        }
    }
    Ok(Some(seen))
}

fn holds_text(seen: &HashSet<String>, texts: &[Text]) -> bool
    ensures { result ≡ list_any (contains_text seen.now) texts.now }
{
    texts.iter().any(|text| seen.contains(text.as_str()))
}

fn holds_member(seen: &HashSet<String>, pairs: &[ListedAnswer]) -> bool
    ensures { result ≡ list_any (λ (pair : ListedAnswer). contains_text seen.now pair.member) pairs.now }
{
    pairs.iter().any(|pair| seen.contains(pair.member.as_str()))
}

/// Whether a free member stands twice, or is also unpinned or answered.
#[tactic(auto, using(crate::proofs::SeenLemmas::contradiction, crate::proofs::SeenLemmas::contradicted))]
pub(crate) fn contradicts(alloc: Global, class: &ListedClass) -> Result<bool, AllocError>
    ensures { IfOk result (λ holds. holds ≡ contradicts class.now) }
{
    match free_members(alloc, class.free.as_slice())? {
        Some(free) => Ok(
            holds_text(&free, class.unpinned.as_slice())
                || holds_member(&free, class.answers.as_slice()),
        ),
        None => Ok(true),
    }
}
