//! Classes and members are added.

use cc_builder::DexBuilder;
use cc_list::List;
use cc_meaning::listing::{ListedValue, Listing};
use cc_meaning::lists::Units;
use cc_meaning_builder::content::ListedClass;
use std::process::Abort;
use std::test::Fail;

const PUBLIC: u32 = 1;

const PUBLIC_STATIC: u32 = 9;

fn expect_units(rt: &impl Abort, got: &Units, want: &[u16]) {
    assert!(rt; got.as_slice() == want);
}

/// Units of UTF-16, as Python's `'Lé😀;'.encode('utf-16-le')` gives them, and ASCII.
const NAME: [u16; 5] = [76, 233, 0xd83d, 0xde00, 59];

const OBJECT: [u16; 4] = [76, 111, 98, 59];

fn expect_main(rt: &impl Abort, class: &ListedClass) {
    expect_units(rt, &class.name, &NAME);
    assert!(rt; class.superclass.is_some());
    assert_eq!(rt; class.flags, PUBLIC);
    assert_eq!(rt; class.interfaces.len(), 2);
    expect_units(rt, class.interfaces.at(0), &[76, 105, 59]);
    expect_units(rt, class.interfaces.at(1), &[76, 106, 59]);
    assert_eq!(rt; class.fields.len(), 1);
    let field = class.fields.at(0);
    expect_units(rt, &field.name, &[110]);
    expect_units(rt, &field.kind, &[73]);
    assert_eq!(rt; field.flags, PUBLIC_STATIC);
    assert!(rt; matches!(&field.value, Some(ListedValue::Int(7))));
    assert_eq!(rt; class.methods.len(), 1);
    let method = class.methods.at(0);
    expect_units(rt, &method.name, &[109]);
    expect_units(rt, &method.proto, &[40, 41, 86]);
    assert_eq!(rt; method.flags, PUBLIC_STATIC);
    assert!(rt; method.code.is_some());
}

#[test]
fn adds_classes_and_members(rt: HostRuntime) -> Result<(), Fail> {
    let alloc = rt.alloc();
    let mut builder = DexBuilder::new(alloc)?;
    let object = builder.class("Lob;", "", PUBLIC)?;
    let main = builder.class("Lé😀;", "Lob;", PUBLIC)?;
    assert_eq!(rt; object, 0);
    assert_eq!(rt; main, 1);
    builder.implements(main, "Li;")?;
    builder.implements(main, "Lj;")?;
    builder.field(main, "n", "I", PUBLIC_STATIC, Some(ListedValue::Int(7)))?;
    let code = Listing {
        registers: 1,
        outs: 0,
        units: List::from_slice(alloc, &[14])?,
        marks: List::new(alloc),
        tries: List::new(alloc),
    };
    builder.method(main, "m", "()V", PUBLIC_STATIC, Some(code))?;
    let content = builder.content();
    assert_eq!(rt; content.len(), 2);
    let first = content.at(0);
    expect_units(&rt, &first.name, &OBJECT);
    assert!(rt; first.superclass.is_none());
    assert_eq!(rt;
        first.interfaces.len() + first.fields.len() + first.methods.len(),
        0
    );
    expect_main(&rt, content.at(1));
    Ok(())
}
