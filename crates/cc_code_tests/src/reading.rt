//! What reading comes to: the opcodes are those of the public table, and the order of faults that of the file.

use crate::bodies_sample::{
    Body, DOUBLE, DOUBLES, EXCEPTION, FLOAT, Given, U_OF_DOUBLES, U_PLAIN, U_TO_FLOAT, VOID,
    X_DOUBLE, X_INT, X_OF_DOUBLES, X_PLAIN, classes, tables,
};
use cc_bodies::{Bodies, field_text, have_few_units, instructions, method_text, read_bodies};
use cc_meaning::fault::ProgramFault;
use std::alloc::{AllocError, Global};
use std::process::Abort;
use std::test::Fail;

fn text(alloc: Global, units: &[u16]) -> Result<String, AllocError> {
    let mut text = String::new(alloc);
    for unit in units {
        text.push(char::from((*unit % 128) as u8))?;
    }
    Ok(text)
}

fn shown(alloc: Global, fault: &ProgramFault) -> Result<String, AllocError> {
    match fault {
        ProgramFault::FloatMember { name } => {
            let name = text(alloc, name.as_slice())?;
            format!(in alloc; "FloatMember {name}")
        }
        ProgramFault::BadIndex { method, pc } => {
            let method = text(alloc, method.as_slice())?;
            format!(in alloc; "BadIndex {method} {pc}")
        }
        ProgramFault::Insn { method, pc, fault } => {
            let method = text(alloc, method.as_slice())?;
            format!(in alloc; "Insn {method} {pc} {fault:?}")
        }
        other => format!(in alloc; "{other:?}"),
    }
}

fn read(alloc: Global, given: &[Given<'_>]) -> Result<Bodies, ProgramFault> {
    let ids = tables(alloc)?;
    let classes = classes(alloc, given)?;
    if !have_few_units(&classes) {
        return Err(ProgramFault::NoMain);
    }
    read_bodies(alloc, &ids, &classes)
}

fn expect(rt: &impl Abort, alloc: Global, given: &[Given<'_>], want: &str) -> Result<(), Fail> {
    let found = match read(alloc, given) {
        Ok(_) => String::new(alloc),
        Err(fault) => shown(alloc, &fault)?,
    };
    assert_eq!(rt; found.as_str(), want);
    Ok(())
}

/// A method that returns at once.
const RETURNS: Body<'static> = Body {
    row: X_PLAIN,
    units: &[0x000e],
    catches: &[],
};

fn expect_code(rt: &impl Abort, alloc: Global, units: &[u16], want: &str) -> Result<(), Fail> {
    let body = Body {
        row: U_PLAIN,
        units,
        catches: &[Some(EXCEPTION), None],
    };
    expect(
        rt,
        alloc,
        &[Given {
            fields: &[X_INT],
            bodies: &[RETURNS, body],
        }],
        want,
    )
}

#[test]
fn judges_units(rt: HostRuntime) -> Result<(), Fail> {
    let cases: [(&[u16], &str); 8] = [
        (&[0x000e], ""),
        (&[0x00a6, 0x0000], "Insn LA;->u()V 0 Float"),
        (&[0x000e, 0x003e], "Insn LA;->u()V 1 Unused"),
        (&[0x0012, 0x0014, 0x0001], "Insn LA;->u()V 1 CutOff"),
        (&[0x0300, 3, 0, 0], "Insn LA;->u()V 0 BadPayload"),
        (
            &[0x0018, 0, 0, 0, 0, 0x0000, 0x00a6, 0],
            "Insn LA;->u()V 6 Float",
        ),
        (&[0x00a6, 0, 0x003e], "Insn LA;->u()V 0 Float"),
        (&[0x000e, 0x00a6, 0x003e], "Insn LA;->u()V 1 Float"),
    ];
    for (units, want) in cases {
        expect_code(&rt, rt.alloc(), units, want)?;
    }
    Ok(())
}

#[test]
fn judges_references(rt: HostRuntime) -> Result<(), Fail> {
    let cases: [(&[u16], &str); 16] = [
        (&[0x001a, 0, 0x001a, 8], ""),
        (&[0x001a, 9], "BadIndex LA;->u()V 0"),
        (&[0x001b, 0, 1], "BadIndex LA;->u()V 0"),
        (&[0x001c, 2, 0x0022, 2, 0x001f, 6], ""),
        (&[0x0000, 0x0022, 7], "BadIndex LA;->u()V 1"),
        (&[0x001c, VOID as u16], "BadIndex LA;->u()V 0"),
        (&[0x001c, DOUBLE as u16], "FloatMember D"),
        (&[0x0023, DOUBLES as u16], "FloatMember [D"),
        (&[0x0052, X_INT as u16, 0x0067, X_INT as u16], ""),
        (&[0x0052, X_DOUBLE as u16], "FloatMember LA;->x:D"),
        (&[0x0060, X_OF_DOUBLES as u16], "FloatMember [D->x:I"),
        (&[0x0067, 3], "BadIndex LA;->u()V 0"),
        (&[0x0071, X_PLAIN as u16, 0], ""),
        (
            &[0x0071, U_OF_DOUBLES as u16, 0],
            "FloatMember LA;->u(I[D)V",
        ),
        (&[0x0077, U_TO_FLOAT as u16, 0], "FloatMember LA;->u()F"),
        (&[0x0071, 4, 0], "BadIndex LA;->u()V 0"),
    ];
    for (units, want) in cases {
        expect_code(&rt, rt.alloc(), units, want)?;
    }
    Ok(())
}

#[test]
fn names_the_first_place(rt: HostRuntime) -> Result<(), Fail> {
    let cases: [(&[u16], &str); 4] = [
        (&[0x001a, 9, 0x00a6, 0], "BadIndex LA;->u()V 0"),
        (&[0x00a6, 0, 0x001a, 9], "Insn LA;->u()V 0 Float"),
        (&[0x001c, DOUBLE as u16, 0x001a, 9], "FloatMember D"),
        (&[0x001a, 9, 0x001c, DOUBLE as u16], "BadIndex LA;->u()V 0"),
    ];
    for (units, want) in cases {
        expect_code(&rt, rt.alloc(), units, want)?;
    }
    Ok(())
}

/// A method whose second instruction isn't whole, with a handler of floating point.
const BREAKS: Body<'static> = Body {
    row: U_PLAIN,
    units: &[0x000e, 0x0014],
    catches: &[Some(FLOAT)],
};

#[test]
fn judges_members_and_handlers(rt: HostRuntime) -> Result<(), Fail> {
    let alloc = rt.alloc();
    let of_doubles = Body {
        row: U_OF_DOUBLES,
        units: &[],
        catches: &[],
    };
    let handles = Body {
        catches: &[Some(EXCEPTION), Some(FLOAT), Some(DOUBLES)],
        ..RETURNS
    };
    let cases: [(&[u32], &[Body<'_>], &str); 4] = [
        (&[X_INT, X_DOUBLE], &[BREAKS], "FloatMember LA;->x:D"),
        (&[X_INT], &[BREAKS, of_doubles], "FloatMember LA;->u(I[D)V"),
        (&[X_INT], &[RETURNS, BREAKS], "Insn LA;->u()V 1 CutOff"),
        (&[X_INT], &[handles, BREAKS], "FloatMember F"),
    ];
    for (fields, bodies, want) in cases {
        expect(&rt, alloc, &[Given { fields, bodies }], want)?;
    }
    Ok(())
}

#[test]
fn goes_class_by_class(rt: HostRuntime) -> Result<(), Fail> {
    let first = Given {
        fields: &[X_INT],
        bodies: &[RETURNS, BREAKS],
    };
    let second = Given {
        fields: &[X_DOUBLE],
        bodies: &[],
    };
    expect(&rt, rt.alloc(), &[first, second], "Insn LA;->u()V 1 CutOff")
}

#[test]
fn reads_payloads(rt: HostRuntime) -> Result<(), Fail> {
    let alloc = rt.alloc();
    let switches = Body {
        row: U_PLAIN,
        units: &[0x002b, 4, 0, 0x000e, 0x0100, 1, 0, 0, 3, 0],
        catches: &[],
    };
    let native = Body {
        units: &[],
        ..RETURNS
    };
    let given = Given {
        fields: &[],
        bodies: &[native, switches],
    };
    let bodies = read(alloc, &[given])?;
    assert_eq!(rt; bodies.len(), 1);
    assert_eq!(rt; bodies[0].len(), 2);
    assert!(rt; bodies[0][0].is_none());
    let Some(insns) = &bodies[0][1] else {
        return Err("no instructions")?;
    };
    let wanted = [(0, 3), (3, 1), (4, 6)];
    assert_eq!(rt; insns.len(), wanted.len());
    for (placed, (at, units)) in insns.iter().zip(wanted) {
        assert_eq!(rt; (placed.at, placed.units), (at, units));
    }
    Ok(())
}

#[test]
fn stops_where_units_break_off(rt: HostRuntime) -> Result<(), Fail> {
    let reading = instructions(rt.alloc(), &[0x0012, 0x000e, 0x0014, 1])?;
    assert_eq!(rt; reading.insns.len(), 2);
    let Some(broken) = reading.broken else {
        return Err("no break")?;
    };
    assert_eq!(rt; broken.at, 2);
    Ok(())
}

#[test]
fn names_members(rt: HostRuntime) -> Result<(), Fail> {
    let alloc = rt.alloc();
    let ids = tables(alloc)?;
    let field = field_text(alloc, &ids, X_OF_DOUBLES)?;
    assert_eq!(rt; text(alloc, field.as_slice())?.as_str(), "[D->x:I");
    let method = method_text(alloc, &ids, U_OF_DOUBLES)?;
    assert_eq!(rt; text(alloc, method.as_slice())?.as_str(), "LA;->u(I[D)V");
    Ok(())
}
