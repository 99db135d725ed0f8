//! Code with numbers of a program in place of rows.

ghost use Rattle.std.specs.Prelude.{List, IfOk};
ghost use Rattle.cc_meaning.specs.declared.file.Ids.{Ids};
ghost use Rattle.cc_meaning.specs.declared.file.RawClass.{RawClass};
ghost use Rattle.cc_meaning.specs.declared.program.Program.{Program};
ghost use Rattle.cc_meaning_program.specs.Instructions.{AreInstructions};
ghost use Rattle.cc_meaning_program.specs.Members.{Pairs, CodeResolved};
ghost use Rattle.cc_bodies.specs.Linkable.{CatchHasLink, CatchesHaveLinks, TriesHaveLinks, IsLinkable};
ghost use Rattle.cc_bodies.specs.Linked.{CatchLinked, TryLinked, CodeLinked};
ghost use Rattle.cc_bodies.specs.ProgramLinks.{LinkInto};

use crate::insns::link_insns;
use crate::links::type_of;
use cc_list::List;
use cc_meaning::fault::Memory;
use cc_meaning::file::{RawCatch, RawCode, RawTry};
use cc_meaning::program::{Catch, Catches, Code, Insns, Tries, Try};
use cc_meaning_program::Links;
use std::alloc::{AllocError, Global};

fn link_catch(links: &Links, stated: &RawCatch) -> Catch
    requires { CatchHasLink links.now stated.now }
    ensures { CatchLinked links.now stated.now result }
{
    let kind = match stated.row {
        Some(row) => Some(type_of(links, row)),
        None => None,
    };
    Catch {
        kind,
        at: stated.at,
    }
}

fn link_catches(alloc: Global, links: &Links, stated: &[RawCatch]) -> Result<Catches, AllocError>
    requires { CatchesHaveLinks links.now stated.now }
    ensures { IfOk result (Pairs (CatchLinked links.now) stated.now) }
{
    let mut catches = List::new(alloc);
    for catch in stated {
        catches.push(link_catch(links, catch))?;
    }
    Ok(catches)
}

fn link_tries(alloc: Global, links: &Links, stated: &[RawTry]) -> Result<Tries, AllocError>
    requires { TriesHaveLinks links.now stated.now }
    ensures { IfOk result (Pairs (TryLinked links.now) stated.now) }
{
    let mut tries = List::new(alloc);
    for item in stated {
        tries.push(Try {
            start: item.start,
            end: item.end,
            catches: link_catches(alloc, links, item.catches.as_slice())?,
        })?;
    }
    Ok(tries)
}

fn linked_code(
    alloc: Global,
    links: &Links,
    stated: &RawCode,
    insns: Insns,
) -> Result<Code, AllocError>
    requires { IsLinkable links.now stated.now insns }
    ensures { IfOk result (CodeLinked links.now stated.now insns) }
{
    let tries = link_tries(alloc, links, stated.tries.as_slice())?;
    let mut items = insns.into_vec();
    link_insns(links, items.as_mut_slice());
    Ok(Code {
        registers: stated.registers,
        ins: stated.ins,
        insns: List::from_vec(items),
        tries,
    })
}

/// The code of a method, with numbers of a program in place of the rows that its instructions and its handlers name. The instructions are changed in
/// place.
///
/// # Errors
///
/// `Memory`: there is no memory.
///
/// Source: Dalvik Executable format, section code_item.
pub fn link_code(
    alloc: Global,
    links: &Links,
    stated: &RawCode,
    insns: Insns,
) -> Result<Code, Memory>
    requires { IsLinkable links.now stated.now insns }
    ensures { IfOk result (λ code. (ids : Ids) (classes : List RawClass) (program : Program) → LinkInto ids classes program links.now → AreInstructions stated.now.units insns → CodeResolved ids classes program stated.now code) }
{
    Ok(linked_code(alloc, links, stated, insns)?)
}
