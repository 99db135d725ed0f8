//! Instructions with numbers of a program in place of rows.

ghost use Rattle.cc_bodies.specs.Linkable.{InsnHasLink, InsnsHaveLinks};
ghost use Rattle.cc_bodies.specs.Linked.{InsnLinked, PlacedLinked};
ghost use Rattle.cc_meaning_program.specs.Members.{Pairs};

use crate::links::{field_number, link_method, link_type, text_number};
use cc_meaning::instruction::Insn;
use cc_meaning::program::Placed;
use cc_meaning_program::Links;

#[tactic(auto, unfolding(cc_meaning_program::specs::References::reference_of))]
fn link_insn(links: &Links, insn: &mut Insn)
    requires { InsnHasLink links.now insn.old }
    ensures { InsnLinked links.now insn.old insn.new }
{
    match insn {
        Insn::ConstText { text, .. } => *text = text_number(links, *text),
        Insn::ConstClass { named, .. } => *named = link_type(links, *named),
        Insn::CheckCast { named, .. } => *named = link_type(links, *named),
        Insn::InstanceOf { named, .. } => *named = link_type(links, *named),
        Insn::NewInstance { named, .. } => *named = link_type(links, *named),
        Insn::NewArray { named, .. } => *named = link_type(links, *named),
        Insn::FilledNewArray { named, .. } => *named = link_type(links, *named),
        Insn::FieldGet { field, .. } => *field = field_number(links, *field),
        Insn::FieldPut { field, .. } => *field = field_number(links, *field),
        Insn::StaticGet { field, .. } => *field = field_number(links, *field),
        Insn::StaticPut { field, .. } => *field = field_number(links, *field),
        Insn::Invoke { named, .. } => *named = link_method(links, *named),
        _ => {}
    }
}

/// Puts into instructions, in the place of the rows that they name, what these link to.
pub(crate) fn link_insns(links: &Links, insns: &mut [Placed])
    requires { InsnsHaveLinks links.now insns.old }
    ensures { Pairs (PlacedLinked links.now) insns.old insns.new }
{
    for placed in insns.iter_mut() {
        link_insn(links, &mut placed.insn);
    }
}
