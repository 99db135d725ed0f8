//! That instructions name members in the file's order.

use cc_bodies::{Bodies, member_uses};
use cc_list::List;
use cc_meaning::instruction::{How, Insn, Kind, MethodRef};
use cc_meaning::program::{Insns, Placed};
use std::alloc::{AllocError, Global};
use std::test::Fail;

fn add(insns: &mut Insns, insn: Insn) -> Result<(), AllocError> {
    let at = match insns.len() {
        0 => 0,
        _ => 2,
    };
    insns.push(Placed { at, units: 2, insn })
}

/// Calls of the methods of rows 3 and 1, with a read of the field of row 2 between them.
fn first(alloc: Global) -> Result<Insns, AllocError> {
    let mut insns = List::new(alloc);
    add(
        &mut insns,
        Insn::Invoke {
            how: How::Static,
            named: MethodRef::Row(3),
            args: List::new(alloc),
        },
    )?;
    add(
        &mut insns,
        Insn::StaticGet {
            kind: Kind::Plain,
            to: 0,
            field: 2,
        },
    )?;
    add(
        &mut insns,
        Insn::Invoke {
            how: How::Virtual,
            named: MethodRef::Row(1),
            args: List::new(alloc),
        },
    )?;
    Ok(insns)
}

/// A write of the field of row 0.
fn second(alloc: Global) -> Result<Insns, AllocError> {
    let mut insns = List::new(alloc);
    add(&mut insns, Insn::ReturnVoid)?;
    add(
        &mut insns,
        Insn::FieldPut {
            kind: Kind::Wide,
            from: 4,
            object: 1,
            field: 0,
        },
    )?;
    Ok(insns)
}

/// Two classes, of which the first has a method without code.
fn bodies(alloc: Global) -> Result<Bodies, AllocError> {
    let mut one = List::new(alloc);
    one.push(None)?;
    one.push(Some(first(alloc)?))?;
    let mut two = List::new(alloc);
    two.push(Some(second(alloc)?))?;
    let mut bodies = List::new(alloc);
    bodies.push(one)?;
    bodies.push(two)?;
    Ok(bodies)
}

#[test]
fn gathers_uses_in_order(rt: HostRuntime) -> Result<(), Fail> {
    let alloc = rt.alloc();
    let bodies = bodies(alloc)?;
    let uses = member_uses(alloc, &bodies)?;
    assert!(rt; uses.fields.as_slice() == [2, 0].as_slice());
    assert_eq!(rt; uses.methods.len(), 2);
    for (place, row) in [(0, 3), (1, 1)] {
        let found = uses.methods.get(place).map(|used| used.row);
        assert!(rt; found == Some(row), "at {place}");
    }
    let hows = uses.methods.as_slice();
    assert!(rt;
        hows.iter()
            .all(|used| matches!(used.how, How::Static) == (used.row == 3))
    );
    Ok(())
}
