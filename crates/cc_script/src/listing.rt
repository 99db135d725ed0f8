//! What the value of a script's text lists, class by class.

ghost use Rattle.std.specs.Prelude.{◌≡◌, ◌+◌, ◌<◌, ◌≤◌, ◌^◌, IfOk, option_and_then};
ghost use Rattle.serde_json.specs.Find.{get, as_str};
ghost use Rattle.serde_json.specs.View.{view, items_view};
ghost use Rattle.cc_meaning_script.specs.Listed.{size_of, count_of, marked, listed_of, texts_of, pair_of, pairs_of, listed_texts, listed_pairs, has_only_known, class_parts, class_of};

use cc_list::List;
use cc_meaning::text::Text;
use cc_meaning_script::listed::{Listed, ListedAnswer, ListedAnswers, ListedClass, ListedMembers};
use serde_json::Value;
use std::alloc::{AllocError, Global};

/// How many members an object has; another value has none.
#[tactic(auto, using(crate::proofs::Values::object_size, crate::proofs::Values::no_object_size))]
pub(crate) fn size(value: &Value) -> usize
    ensures value { result ≡ size_of (view value.now) }
    ensures small { result < 2 ^ 63 }
{
    match value.as_object() {
        Some(members) => members.len(),
        None => 0,
    }
}

fn text(alloc: Global, value: &Value) -> Result<Option<Text>, AllocError>
    ensures { IfOk result (λ text. text ≡ as_str (view value.now)) }
{
    match value.as_str() {
        Some(text) => Ok(Some(Text::from_str(alloc, text)?)),
        None => Ok(None),
    }
}

/// The text of a key.
fn text_at(alloc: Global, value: &Value, key: &str) -> Result<Option<Text>, AllocError>
    ensures { IfOk result (λ text. text ≡ option_and_then as_str (get key.now (view value.now))) }
{
    match value.get(key) {
        Some(found) => text(alloc, found),
        None => Ok(None),
    }
}

/// What the one member of an object says.
fn marked(alloc: Global, value: &Value) -> Result<Listed, AllocError>
    ensures { IfOk result (λ said. said ≡ marked (view value.now)) }
{
    if size(value) != 1 {
        return Ok(Listed::Other);
    }
    if let Some(name) = text_at(alloc, value, "object")? {
        return Ok(Listed::Object(name));
    }
    if let Some(name) = text_at(alloc, value, "throw")? {
        return Ok(Listed::Throw(name));
    }
    Ok(Listed::Other)
}

/// An answer as it is listed.
#[tactic(auto, using(crate::proofs::Values::truth_listed, crate::proofs::Values::text_listed, crate::proofs::Values::null_listed, crate::proofs::Values::number_listed, crate::proofs::Values::other_listed))]
fn listed(alloc: Global, value: &Value) -> Result<Listed, AllocError>
    ensures { IfOk result (λ said. said ≡ listed_of (view value.now)) }
{
    if let Some(truth) = value.as_bool() {
        return Ok(Listed::Truth(truth));
    }
    if let Some(text) = value.as_str() {
        return Ok(Listed::Text(Text::from_str(alloc, text)?));
    }
    if value.is_number() {
        return Ok(match value.as_i64() {
            Some(number) => Listed::Whole(number),
            None => Listed::Other,
        });
    }
    if value.is_null() {
        return Ok(Listed::Null);
    }
    marked(alloc, value)
}

#[tactic(auto, using(crate::proofs::Values::none_collected, crate::proofs::Values::one_collected, crate::proofs::Values::all_collected, crate::proofs::Values::not_collected))]
fn texts(alloc: Global, items: &[Value]) -> Result<Option<ListedMembers>, AllocError>
    ensures { IfOk result (λ texts. texts ≡ texts_of (items_view items.now)) }
{
    let mut texts = List::new(alloc);
    for item in items {
        match text(alloc, item)? {
            Some(text) => texts.push(text)?,
            None => return Ok(None),
        }
    }
    Ok(Some(texts))
}

/// A member and its answer.
#[tactic(auto, using(crate::proofs::Values::pair_is, crate::proofs::Values::pair_of_no_text, crate::proofs::Values::no_pair, crate::proofs::Values::no_array_pair))]
fn pair(alloc: Global, value: &Value) -> Result<Option<ListedAnswer>, AllocError>
    ensures { IfOk result (λ pair. pair ≡ pair_of (view value.now)) }
{
    let Some(items) = value.as_array() else {
        return Ok(None);
    };
    if items.len() != 2 {
        return Ok(None);
    }
    let Some(member) = text(alloc, &items[0])? else {
        return Ok(None);
    };
    let answer = listed(alloc, &items[1])?;
    Ok(Some(ListedAnswer { member, answer }))
}

#[tactic(auto, using(crate::proofs::Values::none_collected, crate::proofs::Values::one_collected, crate::proofs::Values::all_collected, crate::proofs::Values::not_collected))]
fn pairs(alloc: Global, items: &[Value]) -> Result<Option<ListedAnswers>, AllocError>
    ensures { IfOk result (λ pairs. pairs ≡ pairs_of (items_view items.now)) }
{
    let mut pairs = List::new(alloc);
    for item in items {
        match pair(alloc, item)? {
            Some(pair) => pairs.push(pair)?,
            None => return Ok(None),
        }
    }
    Ok(Some(pairs))
}

/// The members of a key that may be left out.
fn texts_at(alloc: Global, value: &Value, key: &str) -> Result<Option<ListedMembers>, AllocError>
    ensures { IfOk result (λ texts. texts ≡ listed_texts (get key.now (view value.now))) }
{
    let Some(found) = value.get(key) else {
        return Ok(Some(List::new(alloc)));
    };
    match found.as_array() {
        Some(items) => texts(alloc, items.as_slice()),
        None => Ok(None),
    }
}

/// The pairs of a key that may be left out.
fn pairs_at(alloc: Global, value: &Value, key: &str) -> Result<Option<ListedAnswers>, AllocError>
    ensures { IfOk result (λ pairs. pairs ≡ listed_pairs (get key.now (view value.now))) }
{
    let Some(found) = value.get(key) else {
        return Ok(Some(List::new(alloc)));
    };
    match found.as_array() {
        Some(items) => pairs(alloc, items.as_slice()),
        None => Ok(None),
    }
}

/// One for a key that stands in a value, and else none.
fn count(value: &Value, key: &str) -> usize
    ensures value { result ≡ count_of (get key.now (view value.now)) }
    ensures small { result ≤ 1 }
{
    match value.get(key) {
        Some(_) => 1,
        None => 0,
    }
}

/// Whether an object has no key but those of a class, `name` among them.
fn has_only_known(value: &Value) -> bool
    ensures { result ≡ has_only_known (view value.now) }
{
    let known = 1 + count(value, "unpinned") + count(value, "free") + count(value, "answers");
    size(value) == known
}

/// The parts of a class.
fn class_parts(alloc: Global, value: &Value) -> Result<Option<ListedClass>, AllocError>
    ensures { IfOk result (λ class. class ≡ class_parts (view value.now)) }
{
    let Some(name) = text_at(alloc, value, "name")? else {
        return Ok(None);
    };
    let Some(unpinned) = texts_at(alloc, value, "unpinned")? else {
        return Ok(None);
    };
    let Some(free) = pairs_at(alloc, value, "free")? else {
        return Ok(None);
    };
    let Some(answers) = pairs_at(alloc, value, "answers")? else {
        return Ok(None);
    };
    Ok(Some(ListedClass {
        name,
        unpinned,
        free,
        answers,
    }))
}

/// A class, where a value lists one.
pub(crate) fn class(alloc: Global, value: &Value) -> Result<Option<ListedClass>, AllocError>
    ensures { IfOk result (λ class. class ≡ class_of (view value.now)) }
{
    if has_only_known(value) {
        class_parts(alloc, value)
    } else {
        Ok(None)
    }
}
