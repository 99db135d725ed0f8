use cc_builtin::{call, is_rising};
use cc_heap::World;
use cc_list::List;
use cc_meaning::lists::{ObjId, Units};
use cc_meaning::program::{Base, Class, ClassKind, Classes, DexType, Method, MethodKind, Program};
use cc_meaning::report::{CallEnd, Event, Limits, StopCause};
use cc_meaning::value::{Object, Value, Values};
use std::alloc::{AllocError, Global};
use std::process::Abort;
use std::test::Fail;

fn units(alloc: Global, text: &[u8]) -> Result<Units, AllocError> {
    let mut units = List::new(alloc);
    for byte in text {
        units.push(u16::from(*byte))?;
    }
    Ok(units)
}

// The classes of the program of these tests, in the order of their names.
const STREAM: u32 = 0;

const EXCEPTION: u32 = 1;

const NULL_POINTER: u32 = 2;

const OBJECT: u32 = 3;

const STRING: u32 = 4;

const BUILDER: u32 = 5;

const STRING_INDEX: u32 = 6;

const THROWABLE: u32 = 7;

const INTS: u32 = 8;

fn class(alloc: Global, name: &[u8], kind: ClassKind) -> Result<Class, AllocError> {
    Ok(Class {
        name: units(alloc, name)?,
        kind,
        superclass: None,
        interfaces: List::new(alloc),
        is_interface: false,
        is_abstract: false,
        layout: List::new(alloc),
        initialiser: None,
        values: List::new(alloc),
    })
}

const NAMES: [&[u8]; 8] = [
    b"Ljava/io/PrintStream;",
    b"Ljava/lang/Exception;",
    b"Ljava/lang/NullPointerException;",
    b"Ljava/lang/Object;",
    b"Ljava/lang/String;",
    b"Ljava/lang/StringBuilder;",
    b"Ljava/lang/StringIndexOutOfBoundsException;",
    b"Ljava/lang/Throwable;",
];

fn classes(alloc: Global) -> Result<Classes, AllocError> {
    let mut classes = List::new(alloc);
    for name in NAMES.iter() {
        classes.push(class(alloc, name, ClassKind::BuiltIn)?)?;
    }
    classes.push(class(alloc, b"[I", ClassKind::Array)?)?;
    Ok(classes)
}

// A method: its class, its name, its parameter and its result.
type Row = (u32, &'static [u8], Option<Base>, Option<Base>);

fn method(alloc: Global, row: Row) -> Result<Method, AllocError> {
    let mut params = List::new(alloc);
    if let Some(base) = row.2 {
        params.push(DexType { dims: 0, base })?;
    }
    Ok(Method {
        class: row.0,
        name: units(alloc, row.1)?,
        params,
        result: row.3.map(|base| DexType { dims: 0, base }),
        is_static: false,
        is_virtual: true,
        kind: MethodKind::BuiltIn,
    })
}

fn program(alloc: Global, row: Row) -> Result<Program, AllocError> {
    let mut methods = List::new(alloc);
    methods.push(method(alloc, row)?)?;
    Ok(Program {
        classes: classes(alloc)?,
        methods,
        fields: List::new(alloc),
        texts: List::new(alloc),
        main: 0,
    })
}

fn opened(alloc: Global, words: u32) -> Result<World, Fail> {
    let program = program(alloc, (OBJECT, b"<init>", None, None))?;
    let limits = Limits {
        instructions: 0,
        words,
    };
    Ok(World::new(alloc, &program, limits)?)
}

// Calls the method of a row in a world.
fn called(
    rt: &impl Abort,
    alloc: Global,
    world: &mut World,
    row: Row,
    args: &[Value],
) -> Result<CallEnd, Fail> {
    let program = program(alloc, row)?;
    let few = program.classes.len() < 100;
    assert!(rt; few);
    let rising = is_rising(program.classes.as_slice());
    assert!(rt; rising);
    let room = world.len() < 100 && world.event_count() < 100;
    assert!(rt; room);
    Ok(call(alloc, &program, world, 0, args)?)
}

fn make(rt: &impl Abort, world: &mut World, object: Object) -> Result<(), Fail> {
    let room = world.len() < 100;
    assert!(rt; room);
    match world.make(object) {
        Ok(_) => Ok(()),
        Err((_, memory)) => Err(memory)?,
    }
}

// The objects of the worlds of these tests.
const OUT: Value = Value::Obj(Some(0));

const AB: Value = Value::Obj(Some(1));

const OTHER_AB: Value = Value::Obj(Some(2));

const B: Value = Value::Obj(Some(3));

const BUILT: Value = Value::Obj(Some(4));

const THROWN: Value = Value::Obj(Some(5));

const ARRAY: Value = Value::Obj(Some(6));

const NULL: Value = Value::Obj(None);

const NEW: u32 = 7;

fn make_text(rt: &impl Abort, alloc: Global, world: &mut World, text: &[u8]) -> Result<(), Fail> {
    let text = units(alloc, text)?;
    make(rt, world, Object::Text(text))
}

fn one_value(alloc: Global, value: Value) -> Result<Values, AllocError> {
    let mut values = List::new(alloc);
    values.push(value)?;
    Ok(values)
}

fn exception(alloc: Global) -> Result<Object, AllocError> {
    let values = one_value(alloc, NULL)?;
    Ok(Object::Instance {
        class: EXCEPTION,
        values,
    })
}

fn array(alloc: Global) -> Result<Object, AllocError> {
    let mut values = one_value(alloc, Value::Int(7))?;
    values.push(Value::Int(8))?;
    Ok(Object::Array {
        class: INTS,
        values,
    })
}

fn stock_texts(rt: &impl Abort, alloc: Global, world: &mut World) -> Result<(), Fail> {
    make_text(rt, alloc, world, b"ab")?;
    make_text(rt, alloc, world, b"ab")?;
    make_text(rt, alloc, world, b"b")
}

fn stock_others(rt: &impl Abort, alloc: Global, world: &mut World) -> Result<(), Fail> {
    let built = units(alloc, b"x")?;
    make(rt, world, Object::Builder(built))?;
    make(rt, world, exception(alloc)?)?;
    make(rt, world, array(alloc)?)
}

// A world with two texts `ab`, a text `b`, a builder of `x`, an exception without a message and an array of 7 and 8.
fn stocked(rt: &impl Abort, alloc: Global, words: u32) -> Result<World, Fail> {
    let mut world = opened(alloc, words)?;
    stock_texts(rt, alloc, &mut world)?;
    stock_others(rt, alloc, &mut world)?;
    Ok(world)
}

// The units of a text or a builder.
fn held(world: &World, id: ObjId) -> Option<&Units> {
    if id >= world.len() {
        return None;
    }
    match world.get(id) {
        Object::Text(units) | Object::Builder(units) => Some(units),
        _ => None,
    }
}

fn is_held(alloc: Global, world: &World, id: ObjId, text: &[u8]) -> Result<bool, AllocError> {
    let want = units(alloc, text)?;
    Ok(matches!(held(world, id), Some(units) if *units == want))
}

fn gives_nothing(end: &CallEnd) -> bool {
    matches!(end, CallEnd::Returned(None))
}

fn gives_int(end: &CallEnd, number: i32) -> bool {
    matches!(end, CallEnd::Returned(Some(Value::Int(n))) if *n == number)
}

fn gives_object(end: &CallEnd, number: ObjId) -> bool {
    matches!(end, CallEnd::Returned(Some(Value::Obj(Some(id)))) if *id == number)
}

fn gives_null(end: &CallEnd) -> bool {
    matches!(end, CallEnd::Returned(Some(Value::Obj(None))))
}

fn is_heap_stop(end: &CallEnd) -> bool {
    matches!(end, CallEnd::Stopped(StopCause::Heap))
}

// Whether a new exception of a class was thrown, the one object that was made, without a message.
fn throws_new(world: &World, end: &CallEnd, class: u32) -> bool {
    let is_new = matches!(end, CallEnd::Thrown(id) if *id == NEW);
    is_new && world.len() == NEW + 1 && is_bare(world, class)
}

fn is_bare(world: &World, thrown: u32) -> bool {
    if NEW >= world.len() {
        return false;
    }
    match world.get(NEW) {
        Object::Instance { class, values } => *class == thrown && is_null_alone(values.as_slice()),
        _ => false,
    }
}

fn is_null_alone(values: &[Value]) -> bool {
    matches!(values, [Value::Obj(None)])
}

const CLASS_STRING: Base = Base::Class(STRING);

const CLASS_OBJECT: Base = Base::Class(OBJECT);

const CLASS_BUILDER: Base = Base::Class(BUILDER);

const INIT: &[u8] = b"<init>";

const EQUALS: &[u8] = b"equals";

fn equals(rt: &impl Abort, alloc: Global, of: u32, right: Value) -> Result<CallEnd, Fail> {
    let mut world = stocked(rt, alloc, 0)?;
    let row = (of, EQUALS, Some(CLASS_OBJECT), Some(Base::Boolean));
    called(rt, alloc, &mut world, row, &[AB, right])
}

#[test]
fn an_object_is_constructed(rt: HostRuntime) -> Result<(), Fail> {
    let mut world = stocked(&rt, rt.alloc(), 0)?;
    let row = (OBJECT, INIT, None, None);
    let end = called(&rt, rt.alloc(), &mut world, row, &[THROWN])?;
    assert!(rt; gives_nothing(&end));
    assert_eq!(rt; (world.len(), world.words_left()), (NEW, 0));
    Ok(())
}

#[test]
fn objects_are_compared(rt: HostRuntime) -> Result<(), Fail> {
    for (right, same) in [(AB, 1), (OTHER_AB, 0), (NULL, 0)] {
        let end = equals(&rt, rt.alloc(), OBJECT, right)?;
        assert!(rt; gives_int(&end, same));
    }
    Ok(())
}

#[test]
fn texts_are_compared(rt: HostRuntime) -> Result<(), Fail> {
    for (right, same) in [(AB, 1), (OTHER_AB, 1), (B, 0), (BUILT, 0), (NULL, 0)] {
        let end = equals(&rt, rt.alloc(), STRING, right)?;
        assert!(rt; gives_int(&end, same));
    }
    Ok(())
}

fn message(rt: &impl Abort, alloc: Global, world: &mut World) -> Result<CallEnd, Fail> {
    let row = (
        THROWABLE,
        b"getMessage".as_slice(),
        None,
        Some(CLASS_STRING),
    );
    called(rt, alloc, world, row, &[THROWN])
}

#[test]
fn a_message_is_set_and_cleared(rt: HostRuntime) -> Result<(), Fail> {
    let mut world = stocked(&rt, rt.alloc(), 0)?;
    let with = (EXCEPTION, INIT, Some(CLASS_STRING), None);
    let end = called(&rt, rt.alloc(), &mut world, with, &[THROWN, B])?;
    assert!(rt; gives_nothing(&end));
    let end = message(&rt, rt.alloc(), &mut world)?;
    assert!(rt; gives_object(&end, 3));
    let without = (EXCEPTION, INIT, None, None);
    let end = called(&rt, rt.alloc(), &mut world, without, &[THROWN])?;
    assert!(rt; gives_nothing(&end));
    let end = message(&rt, rt.alloc(), &mut world)?;
    assert!(rt; gives_null(&end));
    Ok(())
}

#[test]
fn a_text_has_a_length(rt: HostRuntime) -> Result<(), Fail> {
    let mut world = stocked(&rt, rt.alloc(), 0)?;
    let row = (STRING, b"length".as_slice(), None, Some(Base::Int));
    let end = called(&rt, rt.alloc(), &mut world, row, &[AB])?;
    assert!(rt; gives_int(&end, 2));
    Ok(())
}

fn char_at(rt: &impl Abort, alloc: Global, world: &mut World, at: i32) -> Result<CallEnd, Fail> {
    let row = (
        STRING,
        b"charAt".as_slice(),
        Some(Base::Int),
        Some(Base::Char),
    );
    called(rt, alloc, world, row, &[B, Value::Int(at)])
}

#[test]
fn a_unit_of_a_text(rt: HostRuntime) -> Result<(), Fail> {
    let mut world = stocked(&rt, rt.alloc(), 0)?;
    let end = char_at(&rt, rt.alloc(), &mut world, 0)?;
    assert!(rt; gives_int(&end, 98));
    Ok(())
}

#[test]
fn a_place_outside_a_text_throws(rt: HostRuntime) -> Result<(), Fail> {
    for at in [1, -1] {
        let mut world = stocked(&rt, rt.alloc(), 3)?;
        let end = char_at(&rt, rt.alloc(), &mut world, at)?;
        assert!(rt; throws_new(&world, &end, STRING_INDEX));
        assert_eq!(rt; world.words_left(), 0);
    }
    Ok(())
}

#[test]
fn an_exception_takes_three_words(rt: HostRuntime) -> Result<(), Fail> {
    let mut world = stocked(&rt, rt.alloc(), 2)?;
    let end = char_at(&rt, rt.alloc(), &mut world, 1)?;
    assert!(rt; is_heap_stop(&end));
    assert_eq!(rt; (world.len(), world.words_left()), (NEW, 2));
    Ok(())
}

fn construct(
    rt: &impl Abort,
    alloc: Global,
    world: &mut World,
    from: Value,
) -> Result<CallEnd, Fail> {
    let row = (BUILDER, INIT, Some(CLASS_STRING), None);
    called(rt, alloc, world, row, &[BUILT, from])
}

#[test]
fn a_builder_is_constructed(rt: HostRuntime) -> Result<(), Fail> {
    let mut world = stocked(&rt, rt.alloc(), 2)?;
    let end = called(
        &rt,
        rt.alloc(),
        &mut world,
        (BUILDER, INIT, None, None),
        &[BUILT],
    )?;
    assert!(rt; gives_nothing(&end));
    assert!(rt; is_held(rt.alloc(), &world, 4, b"x")?);
    let end = construct(&rt, rt.alloc(), &mut world, AB)?;
    assert!(rt; gives_nothing(&end));
    assert!(rt; is_held(rt.alloc(), &world, 4, b"xab")?);
    assert_eq!(rt; world.words_left(), 0);
    Ok(())
}

#[test]
fn a_builder_of_null_throws(rt: HostRuntime) -> Result<(), Fail> {
    let mut world = stocked(&rt, rt.alloc(), 3)?;
    let end = construct(&rt, rt.alloc(), &mut world, NULL)?;
    assert!(rt; throws_new(&world, &end, NULL_POINTER));
    Ok(())
}

fn append(
    rt: &impl Abort,
    alloc: Global,
    world: &mut World,
    of: Base,
    value: Value,
) -> Result<CallEnd, Fail> {
    let row = (BUILDER, b"append".as_slice(), Some(of), Some(CLASS_BUILDER));
    called(rt, alloc, world, row, &[BUILT, value])
}

// `all` is what the builder of `x` has then.
fn is_appended(
    rt: &impl Abort,
    alloc: Global,
    of: Base,
    value: Value,
    all: &[u8],
) -> Result<bool, Fail> {
    let mut world = stocked(rt, alloc, 20)?;
    let end = append(rt, alloc, &mut world, of, value)?;
    let paid = world.words_left() as usize + all.len() == 21;
    Ok(gives_object(&end, 4) && paid && is_held(alloc, &world, 4, all)?)
}

#[test]
fn numbers_are_appended(rt: HostRuntime) -> Result<(), Fail> {
    assert!(rt;
        is_appended(
            &rt,
            rt.alloc(),
            Base::Int,
            Value::Int(-2_147_483_648),
            b"x-2147483648"
        )?
    );
    assert!(rt;
        is_appended(
            &rt,
            rt.alloc(),
            Base::Long,
            Value::Long(-9_223_372_036_854_775_808),
            b"x-9223372036854775808"
        )?
    );
    Ok(())
}

#[test]
fn chars_are_appended(rt: HostRuntime) -> Result<(), Fail> {
    for code in [65, 65_601, -65_471] {
        assert!(rt; is_appended(&rt, rt.alloc(), Base::Char, Value::Int(code), b"xA")?);
    }
    Ok(())
}

#[test]
fn truths_are_appended(rt: HostRuntime) -> Result<(), Fail> {
    assert!(rt; is_appended(&rt, rt.alloc(), Base::Boolean, Value::Int(0), b"xfalse")?);
    assert!(rt; is_appended(&rt, rt.alloc(), Base::Boolean, Value::Int(-2), b"xtrue")?);
    Ok(())
}

#[test]
fn texts_are_appended(rt: HostRuntime) -> Result<(), Fail> {
    assert!(rt; is_appended(&rt, rt.alloc(), CLASS_STRING, AB, b"xab")?);
    assert!(rt; is_appended(&rt, rt.alloc(), CLASS_STRING, NULL, b"xnull")?);
    Ok(())
}

#[test]
fn an_append_takes_a_word_for_each_unit(rt: HostRuntime) -> Result<(), Fail> {
    let mut world = stocked(&rt, rt.alloc(), 1)?;
    let end = append(&rt, rt.alloc(), &mut world, CLASS_STRING, AB)?;
    assert!(rt; is_heap_stop(&end));
    assert_eq!(rt; world.words_left(), 1);
    assert!(rt; is_held(rt.alloc(), &world, 4, b"x")?);
    Ok(())
}

#[test]
fn a_text_is_built(rt: HostRuntime) -> Result<(), Fail> {
    let mut world = stocked(&rt, rt.alloc(), 3)?;
    let row = (BUILDER, b"toString".as_slice(), None, Some(CLASS_STRING));
    let end = called(&rt, rt.alloc(), &mut world, row, &[BUILT])?;
    assert!(rt; gives_object(&end, NEW));
    assert!(rt; is_held(rt.alloc(), &world, NEW, b"x")?);
    assert_eq!(rt; world.words_left(), 0);
    Ok(())
}

fn is_last_print(world: &World, text: &Units) -> bool {
    let count = world.event_count();
    if count == 0 {
        return false;
    }
    matches!(world.event(count - 1), Event::Print(units) if units == text)
}

// `text` is what is printed, without and with a line feed.
fn is_printed(
    rt: &impl Abort,
    alloc: Global,
    of: Base,
    value: Value,
    text: &[u8],
) -> Result<bool, Fail> {
    let mut world = stocked(rt, alloc, 50)?;
    let row = (STREAM, b"print".as_slice(), Some(of), None);
    let end = called(rt, alloc, &mut world, row, &[OUT, value])?;
    let printed = units(alloc, text)?;
    let paid = world.words_left() as usize == 48_usize.saturating_sub(text.len());
    Ok(gives_nothing(&end) && paid && is_last_print(&world, &printed))
}

fn is_printed_as_line(
    rt: &impl Abort,
    alloc: Global,
    of: Base,
    value: Value,
    line: &[u8],
) -> Result<bool, Fail> {
    let mut world = stocked(rt, alloc, 50)?;
    let row = (STREAM, b"println".as_slice(), Some(of), None);
    let end = called(rt, alloc, &mut world, row, &[OUT, value])?;
    let printed = units(alloc, line)?;
    let paid = world.words_left() as usize == 48_usize.saturating_sub(line.len());
    Ok(gives_nothing(&end) && paid && is_last_print(&world, &printed))
}

#[test]
fn values_are_printed(rt: HostRuntime) -> Result<(), Fail> {
    assert!(rt; is_printed(&rt, rt.alloc(), Base::Int, Value::Int(-5), b"-5")?);
    assert!(rt; is_printed(&rt, rt.alloc(), Base::Long, Value::Long(0), b"0")?);
    assert!(rt; is_printed(&rt, rt.alloc(), Base::Char, Value::Int(66), b"B")?);
    assert!(rt; is_printed(&rt, rt.alloc(), Base::Boolean, Value::Int(1), b"true")?);
    assert!(rt; is_printed(&rt, rt.alloc(), CLASS_STRING, NULL, b"null")?);
    Ok(())
}

#[test]
fn lines_are_printed(rt: HostRuntime) -> Result<(), Fail> {
    assert!(rt; is_printed_as_line(&rt, rt.alloc(), Base::Int, Value::Int(7), b"7\n")?);
    assert!(rt; is_printed_as_line(&rt, rt.alloc(), Base::Long, Value::Long(-1), b"-1\n")?);
    assert!(rt; is_printed_as_line(&rt, rt.alloc(), Base::Char, Value::Int(66), b"B\n")?);
    assert!(rt; is_printed_as_line(&rt, rt.alloc(), Base::Boolean, Value::Int(0), b"false\n")?);
    assert!(rt; is_printed_as_line(&rt, rt.alloc(), CLASS_STRING, AB, b"ab\n")?);
    Ok(())
}

#[test]
fn a_line_is_ended(rt: HostRuntime) -> Result<(), Fail> {
    let mut world = stocked(&rt, rt.alloc(), 3)?;
    let row = (STREAM, b"println".as_slice(), None, None);
    let end = called(&rt, rt.alloc(), &mut world, row, &[OUT])?;
    assert!(rt; gives_nothing(&end));
    let line = units(rt.alloc(), b"\n")?;
    assert!(rt; is_last_print(&world, &line));
    assert_eq!(rt; world.words_left(), 0);
    Ok(())
}

#[test]
fn a_line_takes_its_words(rt: HostRuntime) -> Result<(), Fail> {
    let mut world = stocked(&rt, rt.alloc(), 2)?;
    let row = (STREAM, b"println".as_slice(), None, None);
    let end = called(&rt, rt.alloc(), &mut world, row, &[OUT])?;
    assert!(rt; is_heap_stop(&end));
    assert_eq!(rt; (world.event_count(), world.words_left()), (0, 2));
    Ok(())
}

fn is_seven_and_eight(world: &World, id: ObjId) -> bool {
    if id >= world.len() {
        return false;
    }
    match world.get(id) {
        Object::Array { class, values } => {
            *class == INTS && matches!(values.as_slice(), [Value::Int(7), Value::Int(8)])
        }
        _ => false,
    }
}

#[test]
fn an_array_is_cloned(rt: HostRuntime) -> Result<(), Fail> {
    let mut world = stocked(&rt, rt.alloc(), 4)?;
    let row = (INTS, b"clone".as_slice(), None, Some(CLASS_OBJECT));
    let end = called(&rt, rt.alloc(), &mut world, row, &[ARRAY])?;
    assert!(rt; gives_object(&end, NEW));
    assert!(rt; is_seven_and_eight(&world, NEW));
    assert_eq!(rt; world.words_left(), 0);
    Ok(())
}

#[test]
fn a_null_receiver_throws(rt: HostRuntime) -> Result<(), Fail> {
    let mut world = stocked(&rt, rt.alloc(), 3)?;
    let row = (STRING, b"length".as_slice(), None, Some(Base::Int));
    let end = called(&rt, rt.alloc(), &mut world, row, &[NULL])?;
    assert!(rt; throws_new(&world, &end, NULL_POINTER));
    Ok(())
}
