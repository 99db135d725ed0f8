//! The definitions of a file by the names of their classes.

ghost use Rattle.std.specs.Prelude.{◌≡◌, ◌<◌, ◌^◌, ℕ, length, IfOk, MatchOption};
ghost use Rattle.std.specs.List.{range_with_len};
ghost use Rattle.std.specs.Cmp.Lexicographic.{slice_cmp};
ghost use Rattle.std.specs.Ordering.{nat_cmp};
ghost use Rattle.cc_meaning_program.specs.Definitions.{Defines};
ghost use Rattle.cc_hierarchy.specs.Indexes.{defined_name, Indexes, IsFirstOf};

use cc_list::List;
use cc_meaning::file::Ids;
use cc_meaning::lists::Rows;
use cc_names::type_name;
use std::alloc::{AllocError, Global};
use std::cmp::Ordering;

/// The numbers of a file's class definitions, in the order of their classes' names.
#[derive(Drop)]
pub struct Definitions {
    order: Rows,
}

/// The numbers below a count.
pub(crate) fn numbers_below(alloc: Global, count: u32) -> Result<Vec<u32>, AllocError>
    ensures { IfOk result (λ numbers. numbers.items ≡ range_with_len 0 count) }
{
    (0..count).collect(alloc)
}

/// The name of the class that a definition is of, empty where there is no such definition.
#[tactic(auto, unfolding(crate::specs::Indexes::defined_name, crate::specs::Indexes::name_stated))]
pub(crate) fn defined_name(ids: &Ids, number: u32) -> &[u16]
    ensures { result.now ≡ defined_name ids.now number }
{
    match ids.classes.get(number as usize) {
        Some(stated) => type_name(ids, stated.class),
        None => &[],
    }
}

/// The order of two definitions by the names of their classes.
fn compare_definitions(ids: &Ids, a: u32, b: u32) -> Ordering
    ensures { result ≡ slice_cmp nat_cmp (defined_name ids.now a) (defined_name ids.now b) }
{
    defined_name(ids, a).cmp(&defined_name(ids, b))
}

/// The order of a definition, by the name of its class, and a name.
fn compare_to(ids: &Ids, number: u32, name: &[u16]) -> Ordering
    ensures { result ≡ slice_cmp nat_cmp (defined_name ids.now number) name.now }
{
    defined_name(ids, number).cmp(&name)
}

impl Definitions {
    /// The definitions of a file.
    ///
    /// # Errors
    ///
    /// There is no memory.
    pub fn new(alloc: Global, ids: &Ids) -> Result<Definitions, AllocError>
        requires { length ids.now.classes < 2 ^ 32 }
        ensures { IfOk result (λ definitions. Indexes ids.now definitions) }
    {
        let mut order = numbers_below(alloc, ids.classes.len() as u32)?;
        order.sort_by(|a, b| compare_definitions(ids, *a, *b))?;
        Ok(Definitions {
            order: List::from_vec(order),
        })
    }

    /// The first definition of the class of this name, by its number. `None` where the file doesn't define it.
    pub fn find(&self, ids: &Ids, name: &[u16]) -> Option<u32>
        requires { Indexes ids.now self.now }
        ensures { MatchOption result ((number : ℕ) → ¬ Defines ids.now number name.now) (IsFirstOf ids.now name.now) }
    {
        let order = self.order.as_slice();
        let place = order.partition_point(|number| compare_to(ids, *number, name).is_lt());
        let number = *order.get(place)?;
        if compare_to(ids, number, name).is_eq() {
            Some(number)
        } else {
            None
        }
    }
}
