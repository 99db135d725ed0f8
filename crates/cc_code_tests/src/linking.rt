//! That rows of code link to numbers, with what they are by hand.

ghost use Rattle.std.specs.Prelude.{◌≡◌, [], ◌∷◌, IfOk};
ghost use Rattle.cc_bodies.specs.Linkable.{HasLink, InsnHasLink, CatchHasLink};
ghost use Rattle.cc_meaning_program.specs.declared.reference.Reference.TheVariants as reference;

use cc_bodies::link_code;
use cc_list::List;
use cc_meaning::fault::Memory;
use cc_meaning::file::{RawCatch, RawCode, RawTry};
use cc_meaning::instruction::{How, Insn, MethodRef};
use cc_meaning::program::{Base, Catch, Code, DexType, Placed};
use cc_meaning_program::{Links, MethodLink};
use std::alloc::{AllocError, Global};
use std::test::Fail;

const KNOWN: DexType = DexType {
    dims: 1,
    base: Base::Class(6),
};

const CALLED: MethodLink = MethodLink {
    class: 8,
    number: 9,
};

fn sole<T: Drop>(alloc: Global, item: T) -> Result<List<T>, AllocError>
    ensures { IfOk result (λ list. list ≡ item ∷ []) }
{
    let mut list = List::new(alloc);
    list.push(item)?;
    Ok(list)
}

/// Links of a file that has one row of each kind.
fn links(alloc: Global) -> Result<Links, AllocError>
    ensures types { IfOk result (λ links. HasLink links (reference.Type 0)) }
    ensures methods { IfOk result (λ links. HasLink links (reference.Method 0)) }
{
    Ok(Links {
        texts: sole(alloc, 5)?,
        types: sole(alloc, Some(KNOWN))?,
        methods: sole(alloc, Some(CALLED))?,
        fields: sole(alloc, Some(7))?,
    })
}

/// Links an instruction that stands alone.
fn link_insn(alloc: Global, links: &Links, insn: Insn) -> Result<Code, Memory>
    requires { InsnHasLink links.now insn }
{
    let stated = RawCode {
        registers: 3,
        ins: 1,
        units: List::new(alloc),
        tries: List::new(alloc),
    };
    let insns = sole(
        alloc,
        Placed {
            at: 0,
            units: 2,
            insn,
        },
    )?;
    link_code(alloc, links, &stated, insns)
}

/// Links a handler that stands alone in a try.
fn link_handler(alloc: Global, links: &Links, handler: RawCatch) -> Result<Code, Memory>
    requires { CatchHasLink links.now handler }
{
    let covered = RawTry {
        start: 1,
        end: 3,
        catches: sole(alloc, handler)?,
    };
    let stated = RawCode {
        registers: 3,
        ins: 1,
        units: List::new(alloc),
        tries: sole(alloc, covered)?,
    };
    link_code(alloc, links, &stated, List::new(alloc))
}

#[tactic(auto, unfolding(cc_meaning_program::specs::References::reference_of, cc_meaning_program::specs::References::named_method))]
fn link_call(alloc: Global) -> Result<Code, Memory> {
    let call = Insn::Invoke {
        how: How::Direct,
        named: MethodRef::Row(0),
        args: List::new(alloc),
    };
    let links = links(alloc)?;
    link_insn(alloc, &links, call)
}

fn link_types(alloc: Global) -> Result<(Code, Code), Memory> {
    let links = links(alloc)?;
    let typed = link_handler(
        alloc,
        &links,
        RawCatch {
            row: Some(0),
            at: 4,
        },
    )?;
    let all = link_handler(alloc, &links, RawCatch { row: None, at: 6 })?;
    Ok((typed, all))
}

#[test]
fn links_a_call(rt: HostRuntime) -> Result<(), Fail> {
    let code = link_call(rt.alloc())?;
    assert_eq!(rt; code.registers, 3);
    assert_eq!(rt; code.ins, 1);
    let call = code.insns.get(0).map(|placed| &placed.insn);
    assert!(rt;
        matches!(
            call,
            Some(Insn::Invoke {
                named: MethodRef::Known {
                    class: 8,
                    method: 9
                },
                ..
            })
        )
    );
    Ok(())
}

fn handler(code: &Code) -> Option<Catch> {
    let covered = code.tries.get(0)?;
    covered.catches.get(0).copied()
}

#[test]
fn links_handlers(rt: HostRuntime) -> Result<(), Fail> {
    let (typed, all) = link_types(rt.alloc())?;
    assert!(rt;
        matches!(
            handler(&typed),
            Some(Catch {
                at: 4,
                kind: Some(DexType {
                    dims: 1,
                    base: Base::Class(6)
                })
            })
        )
    );
    assert!(rt; matches!(handler(&all), Some(Catch { at: 6, kind: None })));
    Ok(())
}
