//! Bodies that are taken out of where they were read, once each.

ghost use Rattle.std.specs.Prelude.{Option, List};
ghost use Rattle.cc_meaning.specs.declared.program.Placed.{Placed};
ghost use Rattle.cc_members.specs.Taking.{BodyAt, TakesBody};

use cc_bodies::Bodies;
use cc_meaning::program::Insns;

/// Takes the body at a place of a definition, where one is.
pub fn take_body(bodies: &mut Bodies, definition: u32, place: u32) -> Option<Insns>
    requires { (body : Option (List Placed)) × BodyAt bodies.old definition place body }
    ensures taken { BodyAt bodies.old definition place result }
    ensures left { TakesBody definition place bodies.old bodies.new }
{
    let of_class = bodies.at_mut(definition as usize);
    of_class.replace(place as usize, None)
}
