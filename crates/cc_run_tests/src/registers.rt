ghost use Rattle.std.specs.Prelude.{◌≡◌, IfOk};
ghost use Rattle.cc_meaning_typing.specs.Worked.{class_of};
ghost use Rattle.cc_meaning_typing.specs.Hierarchy.{IsHierarchy};
ghost use Rattle.cc_meaning_typing.specs.WellTyped.{WellTyped};
ghost use Rattle.cc_run_tests.specs.Family.{family_classes};

use cc_list::List;
use cc_meaning::lists::ClassIx;
use cc_meaning::program::{Base, Class, ClassKind, Classes, DexType, Program, RegType};
use cc_types::{
    covers, fits, fits_class, held, is_loose, join, join_into, register_of, write, write_long,
};
use std::alloc::{AllocError, Global};
use std::test::Fail;

fn class(
    alloc: Global,
    name: &[u16],
    kind: ClassKind,
    superclass: Option<ClassIx>,
) -> Result<Class, AllocError>
    ensures { IfOk result (λ class. class ≡ class_of name.now kind superclass) }
{
    let name = List::from_slice(alloc, name)?;
    Ok(Class {
        name,
        kind,
        superclass,
        interfaces: List::new(alloc),
        is_interface: false,
        is_abstract: false,
        layout: List::new(alloc),
        initialiser: None,
        values: List::new(alloc),
    })
}

#[tactic(auto, unfolding(cc_meaning::specs::BuiltIn::object_name))]
fn classes(alloc: Global) -> Result<Classes, AllocError>
    ensures { IfOk result (λ classes. classes ≡ family_classes) }
{
    let object = [
        76, 106, 97, 118, 97, 47, 108, 97, 110, 103, 47, 79, 98, 106, 101, 99, 116, 59,
    ];
    let mut classes = List::new(alloc);
    classes.push(class(alloc, &[76, 65, 59], ClassKind::File, Some(4))?)?;
    classes.push(class(alloc, &[76, 66, 59], ClassKind::File, Some(0))?)?;
    classes.push(class(alloc, &[76, 67, 59], ClassKind::File, Some(0))?)?;
    classes.push(class(alloc, &[76, 88, 59], ClassKind::Outside, Some(4))?)?;
    classes.push(class(alloc, &object, ClassKind::BuiltIn, None)?)?;
    let foo = [
        76, 120, 47, 70, 111, 111, 69, 120, 99, 101, 112, 116, 105, 111, 110, 59,
    ];
    classes.push(class(alloc, &foo, ClassKind::OutsideError, Some(4))?)?;
    Ok(classes)
}

fn family(alloc: Global) -> Result<Program, AllocError>
    ensures hierarchy { IfOk result IsHierarchy }
    ensures well_typed { IfOk result WellTyped }
{
    Ok(Program {
        classes: classes(alloc)?,
        methods: List::new(alloc),
        fields: List::new(alloc),
        texts: List::new(alloc),
        main: 0,
    })
}

fn class_type(class: ClassIx) -> DexType {
    DexType {
        dims: 0,
        base: Base::Class(class),
    }
}

fn of(class: ClassIx) -> RegType {
    RegType::Reference(class_type(class))
}

fn is_of(known: RegType, class: ClassIx) -> bool {
    match known {
        RegType::Reference(
            DexType {
                dims: 0,
                base: Base::Class(found),
            },
        ) => found == class,
        _ => false,
    }
}

#[test]
fn joins(rt: HostRuntime) -> Result<(), Fail> {
    let program = family(rt.alloc())?;
    assert!(rt; is_of(join(of(1), of(2), &program), 0), "two siblings");
    assert!(rt;
        is_of(join(of(1), of(0), &program), 0),
        "a class and its superclass"
    );
    assert!(rt;
        is_of(join(RegType::Zero, of(2), &program), 2),
        "null and a reference"
    );
    assert!(rt;
        matches!(join(RegType::Zero, RegType::Int, &program), RegType::Int),
        "two ints"
    );
    assert!(rt;
        matches!(join(RegType::Int, of(2), &program), RegType::Unset),
        "an int and a reference"
    );
    Ok(())
}

#[test]
fn what_fits(rt: HostRuntime) -> Result<(), Fail> {
    let program = family(rt.alloc())?;
    let long = DexType {
        dims: 0,
        base: Base::Long,
    };
    assert!(rt; fits(of(1), class_type(0), &program), "a superclass");
    assert!(rt; fits(of(1), class_type(3), &program), "an outside class");
    assert!(rt; !fits(of(0), class_type(1), &program), "a subclass");
    assert!(rt; fits(RegType::LongLow, long, &program), "a long");
    assert!(rt; !fits(RegType::LongHigh, long, &program), "a second half");
    assert!(rt; covers(of(0), of(1), &program), "covered");
    assert!(rt; !covers(of(1), of(2), &program), "not covered");
    assert!(rt;
        matches!(register_of(long, &program), RegType::LongLow),
        "a first half"
    );
    assert!(rt;
        is_of(RegType::Reference(held(class_type(3), &program)), 4),
        "held as Object"
    );
    Ok(())
}

#[test]
fn outside_exceptions(rt: HostRuntime) -> Result<(), Fail> {
    let program = family(rt.alloc())?;
    assert!(rt; is_loose(3, &program), "an outside class");
    assert!(rt; !is_loose(5, &program), "an outside exception");
    assert!(rt; fits(of(5), class_type(5), &program), "an exception");
    assert!(rt; !fits(of(0), class_type(5), &program), "no exception");
    assert!(rt;
        is_of(RegType::Reference(held(class_type(5), &program)), 5),
        "held as itself"
    );
    assert!(rt; fits_class(0, 3, &program), "an object of any class");
    assert!(rt; fits_class(1, 0, &program), "one of a class below");
    assert!(rt; !fits_class(0, 5, &program), "one of another class");
    Ok(())
}

#[test]
fn in_place(rt: HostRuntime) -> Result<(), Fail> {
    let program = family(rt.alloc())?;
    let mut registers = List::from_slice(
        rt.alloc(),
        &[RegType::LongLow, RegType::LongHigh, RegType::Zero],
    )?;
    write(&mut registers, 1, RegType::Int);
    assert!(rt;
        matches!(registers.get(0), Some(RegType::Unset)),
        "a first half is lost"
    );
    assert!(rt; matches!(registers.get(1), Some(RegType::Int)), "written");
    write_long(&mut registers, 0);
    assert!(rt;
        matches!(registers.get(1), Some(RegType::LongHigh)),
        "a second half"
    );
    let other = List::from_slice(rt.alloc(), &[RegType::LongLow, RegType::LongHigh, of(1)])?;
    if registers.len() == other.len() {
        assert!(rt;
            !join_into(&mut registers, &other, &program),
            "a reference for null"
        );
    }
    if registers.len() == other.len() {
        assert!(rt; join_into(&mut registers, &other, &program), "nothing new");
    }
    Ok(())
}
