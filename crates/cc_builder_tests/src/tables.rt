//! The tables of a class with a field and two methods.

use cc_builder::DexBuilder;
use cc_meaning::file::Ids;
use cc_meaning::lists::{Rows, Units};
use cc_tables::tables_of;
use std::process::Abort;
use std::test::Fail;

const STATIC: u32 = 8;

const ABSTRACT: u32 = 1024;

fn expect_units(rt: &impl Abort, got: &Units, want: &[u16]) {
    assert!(rt; got.as_slice() == want);
}

fn expect_rows(rt: &impl Abort, got: &Rows, want: &[u32]) {
    assert!(rt; got.as_slice() == want);
}

/// The texts in order: as Python's `sorted` gives them.
fn expect_texts(rt: &impl Abort, ids: &Ids) {
    assert_eq!(rt; ids.texts.len(), 8);
    expect_units(rt, ids.texts.at(0), &[73]);
    expect_units(rt, ids.texts.at(1), &[76, 97, 59]);
    expect_units(rt, ids.texts.at(2), &[76, 98, 59]);
    expect_units(rt, ids.texts.at(3), &[86]);
    expect_units(rt, ids.texts.at(4), &[86, 73, 76]);
    expect_units(rt, ids.texts.at(5), &[91, 73]);
    expect_units(rt, ids.texts.at(6), &[109]);
    expect_units(rt, ids.texts.at(7), &[120]);
}

#[test]
fn makes_a_row_for_each_name(rt: HostRuntime) -> Result<(), Fail> {
    let mut builder = DexBuilder::new(rt.alloc())?;
    let class = builder.class("Lb;", "La;", ABSTRACT)?;
    builder.field(class, "x", "I", STATIC, None)?;
    builder.method(class, "m", "(I[I)V", ABSTRACT, None)?;
    builder.method(class, "m", "()V", ABSTRACT, None)?;
    let ids = tables_of(rt.alloc(), builder.content())?;
    expect_texts(&rt, &ids);
    expect_rows(&rt, &ids.types, &[0, 1, 2, 3, 5]);
    assert_eq!(rt; ids.protos.len(), 2);
    assert_eq!(rt; ids.protos.at(0).result, 3);
    assert_eq!(rt; ids.protos.at(0).params.len(), 0);
    assert_eq!(rt; ids.protos.at(1).result, 3);
    expect_rows(&rt, &ids.protos.at(1).params, &[0, 4]);
    assert_eq!(rt; ids.fields.len(), 1);
    let field = *ids.fields.at(0);
    assert!(rt; [field.class, field.kind, field.name] == [2, 0, 7]);
    assert_eq!(rt; ids.methods.len(), 2);
    let method = *ids.methods.at(1);
    assert!(rt; [method.class, method.proto, method.name] == [2, 1, 6]);
    assert_eq!(rt; ids.classes.len(), 1);
    let stated = ids.classes.at(0);
    assert!(rt; stated.superclass == Some(1));
    assert!(rt; [stated.class, stated.flags] == [2, ABSTRACT]);
    Ok(())
}
