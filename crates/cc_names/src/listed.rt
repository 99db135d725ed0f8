//! The texts of a program, and their numbers.

ghost use Rattle.std.specs.Prelude.{◌≡◌, ◌^◌, ◌<◌, ◌≤◌, length, IfOk};
ghost use Rattle.cc_meaning_program.specs.Named.{text_of};
ghost use Rattle.cc_meaning_program.specs.ClassNames.{AreTexts};
ghost use Rattle.cc_names.specs.Numbers.{AreNumbers};

use crate::order::{Naming, in_order};
use crate::place::find;
use crate::rows::{all_rows, text};
use cc_list::List;
use cc_meaning::fault::Memory;
use cc_meaning::file::Ids;
use cc_meaning::lists::{Rows, Texts};
use std::alloc::Global;
use std::cmp::Ordering;

/// Rows of texts, which have their texts as names.
#[derive(Clone, Copy)]
struct ByText<'a> {
    ids: &'a Ids,
}

impl Naming for ByText<'_> {
    type Item = u32;

    ghost name = { λ rows row. text_of rows.ids.now row };

    fn compare(&self, one: u32, other: u32) -> Ordering {
        text(self.ids, one).cmp(&text(self.ids, other))
    }
}

/// The texts of a file's table, each once, in rising order by units.
///
/// # Errors
///
/// `Memory`: there is no memory.
///
/// Source: Dalvik Executable format, section string_id_item.
pub fn texts(alloc: Global, ids: &Ids) -> Result<Texts, Memory>
    requires { length ids.now.texts < 2 ^ 32 }
    ensures texts { IfOk result (AreTexts ids.now) }
    ensures few { IfOk result (λ texts. length texts ≤ length ids.now.texts) }
{
    let rows = all_rows(alloc, ids.texts.len() as u32)?;
    let rows = in_order(alloc, &ByText { ids }, rows)?;
    let mut texts = List::new(alloc);
    for row in rows.as_slice() {
        texts.push(List::from_slice(alloc, text(ids, *row))?)?;
    }
    Ok(texts)
}

/// For each row of a file's texts the number of its text among the file's texts in order.
///
/// # Errors
///
/// `Memory`: there is no memory.
pub fn numbers_of_texts(alloc: Global, ids: &Ids, texts: &Texts) -> Result<Rows, Memory>
    requires few { length texts.now < 2 ^ 32 }
    requires texts { AreTexts ids.now texts.now }
    ensures { IfOk result (AreNumbers texts.now ids.now.texts) }
{
    let mut numbers = List::new(alloc);
    for text in ids.texts.as_slice() {
        match find(texts, text.as_slice()) {
            Some(number) => numbers.push(number)?,
            None => unreachable!(),
        }
    }
    Ok(numbers)
}
