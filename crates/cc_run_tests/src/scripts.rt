ghost use Rattle.std.specs.Prelude.{◌≡◌, length, IfOk};

use cc_builtin::is_rising;
use cc_list::List;
use cc_meaning::fault::ScriptFault;
use cc_meaning::lists::Units;
use cc_meaning::program::{Base, Class, ClassKind, DexType, Method, MethodKind, Program};
use cc_meaning::report::Answer;
use cc_meaning::script::{Given, Script};
use cc_script::read_script;
use std::alloc::{AllocError, Global};
use std::process::Abort;
use std::test::Fail;

fn units(alloc: Global, text: &[u8]) -> Result<Units, AllocError> {
    let mut units = List::new(alloc);
    for byte in text {
        units.push(u16::from(*byte))?;
    }
    Ok(units)
}

fn class(alloc: Global, name: &[u8]) -> Result<Class, AllocError> {
    Ok(Class {
        name: units(alloc, name)?,
        kind: ClassKind::File,
        superclass: None,
        interfaces: List::new(alloc),
        is_interface: false,
        is_abstract: false,
        layout: List::new(alloc),
        initialiser: None,
        values: List::new(alloc),
    })
}

fn next(alloc: Global) -> Result<Method, AllocError> {
    Ok(Method {
        class: 1,
        name: units(alloc, b"next")?,
        params: List::new(alloc),
        result: Some(DexType {
            dims: 0,
            base: Base::Int,
        }),
        is_static: true,
        is_virtual: false,
        kind: MethodKind::Native,
    })
}

// A program of the classes LA; and LC;, of which LC; has the native method next()I.
fn program(alloc: Global) -> Result<Program, AllocError>
    ensures { IfOk result (λ program. length program.methods ≡ 1) }
{
    let mut classes = List::new(alloc);
    classes.push(class(alloc, b"LA;")?)?;
    classes.push(class(alloc, b"LC;")?)?;
    let mut methods = List::new(alloc);
    methods.push(next(alloc)?)?;
    Ok(Program {
        classes,
        methods,
        fields: List::new(alloc),
        texts: List::new(alloc),
        main: 0,
    })
}

#[tactic(auto, using(crate::proofs::Rising::one_rises))]
fn read(rt: &impl Abort, alloc: Global, text: &[u8]) -> Result<Result<Script, ScriptFault>, Fail> {
    let program = program(alloc)?;
    let few = program.classes.len() < 100;
    assert!(rt; few);
    let rising = is_rising(program.classes.as_slice());
    assert!(rt; rising);
    Ok(read_script(alloc, text, &program))
}

fn is_int(given: &Given, number: i32) -> bool {
    given.method == 0 && matches!(given.answer, Answer::Int(n) if n == number)
}

#[test]
fn answers_are_read(rt: HostRuntime) -> Result<(), Fail> {
    let text =
        b"{\"classes\":[{\"answers\":[[\"next()I\",1],[\"next()I\",-2]],\"name\":\"LC;\",\"unpinned\":[\"next()I\"]}]}";
    let script = read(&rt, rt.alloc(), text.as_slice())??;
    assert_eq!(rt; script.classes.len(), 1);
    let class = script.classes.at(0);
    assert_eq!(rt; class.class, 1);
    assert!(rt; matches!(class.unpinned.as_slice(), [0]));
    assert!(rt; class.free.is_empty());
    assert!(rt;
        matches!(class.answers.as_slice(), [one, two] if is_int(one, 1) && is_int(two, -2))
    );
    Ok(())
}

fn is_misshapen(rt: &impl Abort, alloc: Global, text: &[u8], place: u32) -> Result<bool, Fail> {
    let answer = read(rt, alloc, text)?;
    Ok(matches!(answer, Err(ScriptFault::BadShape { at }) if at == place))
}

#[test]
fn no_json_is_named_first(rt: HostRuntime) -> Result<(), Fail> {
    let cut = read(&rt, rt.alloc(), b"{\"classes\":[")?;
    assert!(rt; matches!(cut, Err(ScriptFault::NotJson)));
    let no_text = read(&rt, rt.alloc(), b"\"\xff\"")?;
    assert!(rt; matches!(no_text, Err(ScriptFault::NotJson)));
    Ok(())
}

#[test]
fn shapes_are_judged(rt: HostRuntime) -> Result<(), Fail> {
    assert!(rt; is_misshapen(&rt, rt.alloc(), b"{}", 0)?);
    assert!(rt; is_misshapen(&rt, rt.alloc(), b"{\"classes\":[],\"more\":1}", 0)?);
    assert!(rt;
        is_misshapen(
            &rt,
            rt.alloc(),
            b"{\"classes\":[{\"name\":\"LD;\"},{\"name\":\"LC;\",\"other\":1}]}",
            1
        )?
    );
    assert!(rt;
        is_misshapen(
            &rt,
            rt.alloc(),
            b"{\"classes\":[{\"name\":\"LC;\"},{\"name\":\"LC;\"}]}",
            1
        )?
    );
    Ok(())
}

#[test]
fn free_members_stand_alone(rt: HostRuntime) -> Result<(), Fail> {
    assert!(rt;
        is_misshapen(
            &rt,
            rt.alloc(),
            b"{\"classes\":[{\"name\":\"LC;\",\"free\":[[\"next()I\",1],[\"next()I\",1]]}]}",
            0
        )?
    );
    assert!(rt;
        is_misshapen(
            &rt,
            rt.alloc(),
            b"{\"classes\":[{\"name\":\"LC;\",\"free\":[[\"next()I\",1]],\"answers\":[[\"next()I\",1]]}]}",
            0
        )?
    );
    Ok(())
}

fn is_unknown(rt: &impl Abort, alloc: Global, text: &[u8], at: (u32, u32)) -> Result<bool, Fail> {
    let answer = read(rt, alloc, text)?;
    Ok(
        matches!(answer, Err(ScriptFault::UnknownMethod { class, place }) if class == at.0 && place == at.1),
    )
}

#[test]
fn members_are_looked_up(rt: HostRuntime) -> Result<(), Fail> {
    let other_class =
        b"{\"classes\":[{\"answers\":[[\"next()I\",1]],\"name\":\"LD;\",\"unpinned\":[\"next()I\"]}]}";
    assert!(rt; is_unknown(&rt, rt.alloc(), other_class, (0, 0))?);
    let other_member =
        b"{\"classes\":[{\"answers\":[[\"last()I\",1]],\"name\":\"LC;\",\"unpinned\":[\"next()I\"]}]}";
    assert!(rt; is_unknown(&rt, rt.alloc(), other_member, (0, 1))?);
    Ok(())
}

fn is_unfit(rt: &impl Abort, alloc: Global, text: &[u8], at: (u32, u32)) -> Result<bool, Fail> {
    let answer = read(rt, alloc, text)?;
    Ok(
        matches!(answer, Err(ScriptFault::BadAnswer { class, place }) if class == at.0 && place == at.1),
    )
}

#[test]
fn answers_are_judged(rt: HostRuntime) -> Result<(), Fail> {
    let truth = b"{\"classes\":[{\"answers\":[[\"next()I\",true]],\"name\":\"LC;\"}]}";
    assert!(rt; is_unfit(&rt, rt.alloc(), truth, (0, 0))?);
    let large =
        b"{\"classes\":[{\"answers\":[[\"next()I\",1],[\"next()I\",2147483648]],\"name\":\"LC;\"}]}";
    assert!(rt; is_unfit(&rt, rt.alloc(), large, (0, 1))?);
    Ok(())
}
