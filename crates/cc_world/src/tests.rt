use crate::{Shape, World};
use cc_list::List;
use cc_meaning::program::Program;
use cc_meaning::report::{Event, Limits};
use cc_meaning::value::{Object, Value};
use std::alloc::Global;
use std::process::Abort;
use std::test::Fail;

/// The most objects and events that these tests make.
const FEW: u32 = 9;

/// A new world of a program of nothing.
fn opened(alloc: Global) -> Result<World, Fail> {
    let program = Program {
        classes: List::new(alloc),
        methods: List::new(alloc),
        fields: List::new(alloc),
        texts: List::new(alloc),
        main: 0,
    };
    let limits = Limits {
        instructions: 9,
        words: 7,
    };
    Ok(World::new(alloc, &program, limits)?)
}

/// Whether a value is that int.
fn is_int(value: Value, number: i32) -> bool {
    matches!(value, Value::Int(held) if held == number)
}

/// Puts an object in, where there are few.
fn made(world: &mut World, object: Object) -> Option<u32> {
    if world.len() > FEW {
        return None;
    }
    world.make(object).ok()
}

fn made_instance(world: &mut World, class: u32, values: &[Value]) -> Option<u32> {
    if world.len() > FEW {
        return None;
    }
    world.make_instance(class, values).ok()
}

fn made_array(world: &mut World, class: u32, len: u32, value: Value) -> Option<u32> {
    if world.len() > FEW {
        return None;
    }
    world.make_array(class, len, value).ok()
}

/// Records an event, where there are few, and says whether it was.
fn recorded(world: &mut World, event: Event) -> bool {
    world.event_count() <= FEW && world.add_event(event).is_ok()
}

/// Writes a slot where the object has it, and says what it held before.
fn exchanged(world: &mut World, id: u32, i: u32, value: Value) -> Option<Value> {
    if id >= world.len() {
        return None;
    }
    let (Shape::Instance { len, .. } | Shape::Array { len, .. }) = world.shape(id) else {
        return None;
    };
    if i >= len {
        return None;
    }
    let before = world.slot(id, i);
    world.set_slot(id, i, value);
    Some(before)
}

#[test]
fn values_stand_side_by_side(rt: HostRuntime) -> Result<(), Fail> {
    let mut world = opened(rt.alloc())?;
    let values = List::from_slice(rt.alloc(), &[Value::Int(1), Value::Int(2)])?;
    let Some(first) = made(&mut world, Object::Instance { class: 4, values }) else {
        return Err("no room")?;
    };
    let Some(second) = made_instance(&mut world, 5, &[Value::Int(3)]) else {
        return Err("no room")?;
    };
    let Some(third) = made_array(&mut world, 6, 2, Value::Int(0)) else {
        return Err("no room")?;
    };
    assert_eq!(rt; (first, second, third, world.len()), (1, 2, 3, 4));
    assert!(rt; matches!(world.shape(second), Shape::Instance { class: 5, len: 1 }));
    for (id, i, before) in [
        (1, 1, 2),
        (2, 0, 3),
        (3, 0, 0),
        (3, 1, 0),
        (2, 0, 90),
        (1, 0, 1),
    ] {
        let Some(held) = exchanged(&mut world, id, i, Value::Int(90)) else {
            return Err("no slot")?;
        };
        assert!(rt; is_int(held, before), "object {id}, slot {i}");
    }
    Ok(())
}

#[test]
fn room_is_reserved(rt: HostRuntime) -> Result<(), Fail> {
    let mut world = opened(rt.alloc())?;
    assert!(rt; world.reserve(2, 3, 1).is_ok());
    assert!(rt; made_array(&mut world, 0, 3, Value::Int(0)) == Some(1));
    assert!(rt; made(&mut world, Object::Constant(0)) == Some(2));
    assert!(rt; recorded(&mut world, Event::Print(List::new(rt.alloc()))));
    assert_eq!(rt; (world.len(), world.event_count()), (3, 1));
    assert!(rt; world.spend_words(7) && !world.spend_words(1));
    assert!(rt; world.spend_instruction());
    assert_eq!(rt; (world.instructions_left(), world.words_left()), (8, 0));
    Ok(())
}
