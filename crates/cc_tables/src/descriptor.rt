//! Where the descriptor ends that a text begins with.

ghost use Rattle.std.specs.Prelude.{◌≡◌, ◌≤◌, ◌<◌, ◌++◌, ◌==◌, ℕ, List, length, not, position};
ghost use Rattle.cc_meaning_dex.specs.Descriptors.{IsValue, IsValueDescriptor, names_class};

/// `[`, which begins an array's descriptor.
const ARRAY: u16 = 91;

/// `L`, which begins a class's descriptor.
const CLASS: u16 = 76;

/// `;`, which ends a class's descriptor.
const CLASS_END: u16 = 59;

/// The place of the first `;`.
fn class_end(units: &[u16]) -> Option<usize>
    ensures { result ≡ position (λ unit. unit == 59) units.now }
{
    units.iter().position(|unit| *unit == CLASS_END)
}

/// The place of the first unit that is no `[`.
fn behind_brackets(units: &[u16]) -> Option<usize>
    ensures { result ≡ position (λ unit. not (unit == 91)) units.now }
{
    units.iter().position(|unit| *unit != ARRAY)
}

/// Whether a class's descriptor stands in front.
fn names_class(units: &[u16]) -> bool
    ensures { result ≡ names_class units.now }
{
    matches!(units, [CLASS, ..])
}

/// How many units the letter or the class's descriptor takes that these units begin with: at least one where there are units, whatever they are.
fn base_len(units: &[u16]) -> usize
    ensures exact { (base rest : List ℕ) → IsValue base → units.now ≡ base ++ rest → result ≡ length base }
    ensures within { result ≤ length units.now }
    ensures some { 0 < length units.now → 0 < result }
{
    if !names_class(units) {
        return units.len().min(1);
    }
    match class_end(units) {
        Some(place) => place + 1,
        None => units.len(),
    }
}

/// How many units the descriptor of a value takes that these units begin with: at least one where there are units, whatever they are.
///
/// Source: Dalvik Executable format, section TypeDescriptor Semantics.
pub fn descriptor_len(units: &[u16]) -> usize
    ensures exact { (descriptor rest : List ℕ) → IsValueDescriptor descriptor → units.now ≡ descriptor ++ rest → result ≡ length descriptor }
    ensures within { result ≤ length units.now }
    ensures some { 0 < length units.now → 0 < result }
{
    match behind_brackets(units) {
        Some(dims) => {
            let (_, base) = units.split_at(dims);
            dims + base_len(base)
        }
        None => units.len(),
    }
}
