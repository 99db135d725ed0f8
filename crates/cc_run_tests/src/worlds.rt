ghost use Rattle.std.specs.Prelude.{◌≡◌, length, IfOk};

use cc_heap::World;
use cc_list::List;
use cc_meaning::lists::{Texts, Units};
use cc_meaning::program::{Base, Class, ClassKind, Classes, DexType, Field, Fields, Program};
use cc_meaning::report::{Event, Limits};
use cc_meaning::value::{Object, Value};
use std::alloc::{AllocError, Global};
use std::process::Abort;
use std::test::Fail;

fn units(alloc: Global, text: &[u8]) -> Result<Units, AllocError> {
    let mut units = List::new(alloc);
    for byte in text {
        units.push(u16::from(*byte))?;
    }
    Ok(units)
}

fn class(alloc: Global, name: &[u8]) -> Result<Class, AllocError> {
    Ok(Class {
        name: units(alloc, name)?,
        kind: ClassKind::File,
        superclass: None,
        interfaces: List::new(alloc),
        is_interface: false,
        is_abstract: false,
        layout: List::new(alloc),
        initialiser: None,
        values: List::new(alloc),
    })
}

// The static fields of the program below: class, name, type, and what it holds at first.
const FIELDS: [(u32, &[u8], DexType, Value); 9] = [
    (
        0,
        b"b",
        DexType {
            dims: 0,
            base: Base::Boolean,
        },
        Value::Int(0),
    ),
    (
        0,
        b"c",
        DexType {
            dims: 0,
            base: Base::Class(1),
        },
        Value::Obj(None),
    ),
    (
        0,
        b"i",
        DexType {
            dims: 0,
            base: Base::Int,
        },
        Value::Int(0),
    ),
    (
        0,
        b"j",
        DexType {
            dims: 0,
            base: Base::Long,
        },
        Value::Long(0),
    ),
    (
        0,
        b"out",
        DexType {
            dims: 0,
            base: Base::Class(1),
        },
        Value::Obj(None),
    ),
    (
        0,
        b"row",
        DexType {
            dims: 1,
            base: Base::Long,
        },
        Value::Obj(None),
    ),
    (
        2,
        b"out",
        DexType {
            dims: 0,
            base: Base::Class(1),
        },
        Value::Obj(Some(0)),
    ),
    (
        2,
        b"out",
        DexType {
            dims: 1,
            base: Base::Class(1),
        },
        Value::Obj(None),
    ),
    (
        2,
        b"outer",
        DexType {
            dims: 0,
            base: Base::Class(1),
        },
        Value::Obj(None),
    ),
];

fn classes(alloc: Global) -> Result<Classes, AllocError>
    ensures { IfOk result (λ classes. length classes ≡ 3) }
{
    let mut classes = List::new(alloc);
    classes.push(class(alloc, b"La;")?)?;
    classes.push(class(alloc, b"Ljava/io/PrintStream;")?)?;
    classes.push(class(alloc, b"Ljava/lang/System;")?)?;
    Ok(classes)
}

fn fields(alloc: Global) -> Result<Fields, AllocError>
    ensures { IfOk result (λ fields. length fields ≡ 9) }
{
    let mut fields = List::new(alloc);
    for (class, name, ty, _) in FIELDS.iter() {
        fields.push(Field {
            class: *class,
            name: units(alloc, name)?,
            ty: *ty,
            is_static: true,
        })?;
    }
    Ok(fields)
}

fn texts(alloc: Global) -> Result<Texts, AllocError>
    ensures { IfOk result (λ texts. length texts ≡ 3) }
{
    let mut texts = List::new(alloc);
    texts.push(units(alloc, b"a")?)?;
    texts.push(units(alloc, b"b")?)?;
    texts.push(units(alloc, b"c")?)?;
    Ok(texts)
}

// A new world of a program of three classes, the fields above and three texts.
#[tactic(auto, unfolding(cc_meaning_run::specs::Local::opening_world))]
fn opened(alloc: Global, instructions: u64, words: u32) -> Result<World, Fail>
    ensures { IfOk result (λ held. (length held.world.statics ≡ 9) × (length held.world.counters.statuses ≡ 3) × (length held.world.cursors ≡ 3) × (held.texts ≡ 3)) }
{
    let program = Program {
        classes: classes(alloc)?,
        methods: List::new(alloc),
        fields: fields(alloc)?,
        texts: texts(alloc)?,
        main: 0,
    };
    let limits = Limits {
        instructions,
        words,
    };
    Ok(World::new(alloc, &program, limits)?)
}

#[test]
fn a_new_world(rt: HostRuntime) -> Result<(), Fail> {
    let world = opened(rt.alloc(), 1 << 32, 1 << 22)?;
    assert_eq!(rt;
        (world.len(), world.out_object(), world.event_count()),
        (1, 0, 0)
    );
    assert!(rt; matches!(world.get(0), Object::Out));
    assert_eq!(rt; world.instructions_left(), 4_294_967_296);
    assert_eq!(rt; world.words_left(), 4_194_304);
    for class in 0..3 {
        assert_eq!(rt; (world.status(class), world.cursor(class)), (0, 0));
        assert!(rt; world.constant(class).is_none() && world.literal(class).is_none());
    }
    Ok(())
}

/// Whether two values are the same.
fn same(left: Value, right: Value) -> bool {
    match (left, right) {
        (Value::Int(a), Value::Int(b)) => a == b,
        (Value::Long(a), Value::Long(b)) => a == b,
        (Value::Obj(a), Value::Obj(b)) => a == b,
        _ => false,
    }
}

#[test]
fn statics_of_a_new_world(rt: HostRuntime) -> Result<(), Fail> {
    let world = opened(rt.alloc(), 0, 0)?;
    for field in 0..9 {
        assert!(rt;
            same(world.static_value(field), FIELDS[field as usize].3),
            "field {field}"
        );
    }
    Ok(())
}

// Words left, words wanted, whether they are taken, and words left then.
const SPENT: [(u32, u32, bool, u32); 6] = [
    (4, 5, false, 4),
    (4, 4, true, 0),
    (4, 3, true, 1),
    (4, 0, true, 4),
    (0, 0, true, 0),
    (0, 4_294_967_295, false, 0),
];

#[test]
fn words_are_spent(rt: HostRuntime) -> Result<(), Fail> {
    let mut world = opened(rt.alloc(), 0, 0)?;
    for (before, wanted, taken, after) in SPENT {
        world.set_words_left(before);
        assert_eq!(rt; world.spend_words(wanted), taken);
        assert_eq!(rt; world.words_left(), after);
    }
    Ok(())
}

#[test]
fn instructions_are_spent(rt: HostRuntime) -> Result<(), Fail> {
    let mut world = opened(rt.alloc(), 1, 0)?;
    assert!(rt; world.spend_instruction());
    assert!(rt; !world.spend_instruction());
    assert_eq!(rt; world.instructions_left(), 0);
    world.set_instructions_left(9);
    assert!(rt; world.spend_instruction());
    assert_eq!(rt; world.instructions_left(), 8);
    Ok(())
}

#[test]
fn objects_are_made_and_put(rt: HostRuntime) -> Result<(), Fail> {
    let mut world = opened(rt.alloc(), 0, 0)?;
    for class in 1..4 {
        assert_eq!(rt; world.len(), class);
        assert!(rt; matches!(world.make(Object::Constant(class)), Ok(id) if id == class));
    }
    assert_eq!(rt; world.len(), 4);
    world.put(2, Object::Constant(9));
    assert_eq!(rt; world.len(), 4);
    assert!(rt; matches!(world.get(1), Object::Constant(1)));
    assert!(rt; matches!(world.get(2), Object::Constant(9)));
    assert!(rt; matches!(world.get(3), Object::Constant(3)));
    Ok(())
}

#[test]
fn a_static_is_set_alone(rt: HostRuntime) -> Result<(), Fail> {
    let mut world = opened(rt.alloc(), 0, 0)?;
    world.set_static(2, Value::Int(-7));
    for (field, value) in [
        (1, Value::Obj(None)),
        (2, Value::Int(-7)),
        (3, Value::Long(0)),
    ] {
        assert!(rt; same(world.static_value(field), value));
    }
    Ok(())
}

#[test]
fn a_status_is_set_alone(rt: HostRuntime) -> Result<(), Fail> {
    let mut world = opened(rt.alloc(), 0, 0)?;
    world.set_status(1, 2);
    assert_eq!(rt;
        (world.status(0), world.status(1), world.status(2)),
        (0, 2, 0)
    );
    Ok(())
}

#[test]
fn literals_are_noted(rt: HostRuntime) -> Result<(), Fail> {
    let mut world = opened(rt.alloc(), 0, 0)?;
    world.set_literal(2, 5);
    world.set_literal(0, 6);
    world.set_literal(2, 7);
    assert_eq!(rt;
        (world.literal(0), world.literal(1), world.literal(2)),
        (Some(6), None, Some(7))
    );
    Ok(())
}

#[test]
fn a_constant_is_noted(rt: HostRuntime) -> Result<(), Fail> {
    let mut world = opened(rt.alloc(), 0, 0)?;
    world.set_constant(1, 8);
    assert_eq!(rt;
        (world.constant(0), world.constant(1), world.constant(2)),
        (None, Some(8), None)
    );
    Ok(())
}

#[test]
fn a_cursor_is_set_alone(rt: HostRuntime) -> Result<(), Fail> {
    let mut world = opened(rt.alloc(), 0, 0)?;
    world.set_cursor(0, 3);
    assert_eq!(rt;
        (world.cursor(0), world.cursor(1), world.cursor(2)),
        (3, 0, 0)
    );
    Ok(())
}

#[test]
fn events_are_recorded(rt: HostRuntime) -> Result<(), Fail> {
    let mut world = opened(rt.alloc(), 0, 0)?;
    assert_eq!(rt; world.event_count(), 0);
    let one = units(rt.alloc(), b"one")?;
    assert!(rt; world.add_event(Event::Print(one)).is_ok());
    assert_eq!(rt; world.event_count(), 1);
    let seven = units(rt.alloc(), b"seven")?;
    assert!(rt; world.add_event(Event::Print(seven)).is_ok());
    assert_eq!(rt; world.event_count(), 2);
    assert!(rt; matches!(world.event(0), Event::Print(text) if text.len() == 3));
    assert!(rt; matches!(world.event(1), Event::Print(text) if text.len() == 5));
    Ok(())
}
