use cc_list::List;
use cc_meaning::fault::{DexFault, Memory, ProfileFault};
use cc_meaning::instruction::Insn;
use cc_meaning::lists::Units;
use cc_meaning::program::{
    Base, Class, ClassKind, Classes, Code, DexType, Method, MethodKind, Methods, Placed, Program,
    Types,
};
use cc_meaning::text::Text;
use std::alloc::{AllocError, Global};
use std::test::Fail;

fn units(alloc: Global, text: &str) -> Result<Units, AllocError> {
    let mut units = List::new(alloc);
    for byte in text.as_bytes() {
        units.push(*byte as u16)?;
    }
    Ok(units)
}

fn code(alloc: Global) -> Result<Code, AllocError> {
    let mut insns = List::new(alloc);
    insns.push(Placed {
        at: 0,
        units: 1,
        insn: Insn::ReturnVoid,
    })?;
    Ok(Code {
        registers: 1,
        ins: 1,
        insns,
        tries: List::new(alloc),
    })
}

fn main_method(name: Units, params: Types, code: Code) -> Method {
    Method {
        class: 0,
        name,
        params,
        result: None,
        is_static: true,
        is_virtual: false,
        kind: MethodKind::Code(code),
    }
}

fn methods(alloc: Global) -> Result<Methods, AllocError> {
    let text_array = DexType {
        dims: 1,
        base: Base::Class(0),
    };
    let name = units(alloc, "main")?;
    let params = List::from_slice(alloc, &[text_array])?;
    let code = code(alloc)?;
    let mut methods = List::new(alloc);
    methods.push(main_method(name, params, code))?;
    Ok(methods)
}

fn classes(alloc: Global) -> Result<Classes, AllocError> {
    let class = Class {
        name: units(alloc, "LA;")?,
        kind: ClassKind::File,
        superclass: None,
        interfaces: List::new(alloc),
        is_interface: false,
        is_abstract: false,
        layout: List::new(alloc),
        initialiser: None,
        values: List::new(alloc),
    };
    let mut classes = List::new(alloc);
    classes.push(class)?;
    Ok(classes)
}

fn program(alloc: Global) -> Result<Program, AllocError> {
    let classes = classes(alloc)?;
    let methods = methods(alloc)?;
    Ok(Program {
        classes,
        methods,
        fields: List::new(alloc),
        texts: List::new(alloc),
        main: 0,
    })
}

fn is_main_class(class: &Class) -> bool {
    class.name.as_slice() == [76, 65, 59].as_slice() && class.kind == ClassKind::File
}

fn is_main_method(method: &Method) -> bool {
    method.name.as_slice() == [109, 97, 105, 110].as_slice() && method.params.len() == 1
}

fn returns_at_once(method: &Method) -> bool {
    match &method.kind {
        MethodKind::Code(code) => code
            .insns
            .iter()
            .all(|placed| matches!(&placed.insn, Insn::ReturnVoid)),
        _ => false,
    }
}

#[test]
fn builds_a_program(rt: HostRuntime) -> Result<(), Fail> {
    let program = program(rt.alloc())?;
    let class = program.classes.get(0).ok_or("no class")?;
    assert!(rt; is_main_class(class));
    let method = program.methods.get(0).ok_or("no method")?;
    assert!(rt; is_main_method(method) && returns_at_once(method));
    Ok(())
}

#[test]
fn copies_a_text(rt: HostRuntime) -> Result<(), Fail> {
    let text = Text::from_str(rt.alloc(), "na\u{ef}ve")?;
    assert_eq!(rt; text.len(), 6);
    assert!(rt; !text.is_empty() && text.clone()? == text);
    assert_eq!(rt; text.as_bytes(), [110, 97, 195, 175, 118, 101].as_slice());
    assert_eq!(rt; text.into_string().as_str(), "na\u{ef}ve");
    Ok(())
}

#[test]
fn shows_a_fault(rt: HostRuntime) -> Result<(), Fail> {
    let fault = DexFault::BadIndex { table: 1, row: 2 };
    let line = format!(in rt.alloc(); "{fault}: {fault:?}")?;
    assert_eq!(rt; line.as_str(), "no DEX file: BadIndex { table: 1, row: 2 }");
    assert!(rt; matches!(ProfileFault::from(Memory), ProfileFault::Memory));
    Ok(())
}
