//! Texts and class names in order, and their numbers.

use crate::names_sample::{ascii, ascii_texts, small, tables, tables_of};
use cc_list::List;
use cc_meaning::lists::{Texts, Units};
use cc_names::{class_names, find, numbers_of_texts, texts};
use std::process::Abort;
use std::test::Fail;

fn expect_texts(rt: &impl Abort, got: &Texts, want: &Texts) {
    assert_eq!(rt; got.len(), want.len());
    for (got, want) in got.iter().zip(want.iter()) {
        assert_eq!(rt; got.as_slice(), want.as_slice());
    }
}

#[test]
fn orders_texts_by_units(rt: HostRuntime) -> Result<(), Fail> {
    let alloc = rt.alloc();
    let given: [&[u16]; 14] = [
        &[],
        &[0x61],
        &[0x61, 0x62],
        &[0x62],
        &[0xe9],
        &[0x100],
        &[0xe000],
        &[0xd800, 0xdc00],
        &[0xffff],
        &[0x42],
        &[0x141],
        &[0x2603],
        &[0x61],
        &[0xe000],
    ];
    // The order of units, by Python's `sorted` over the units of UTF-16: half pairs come before 0xe000, and the low byte says nothing.
    let order: [&[u16]; 12] = [
        &[],
        &[0x42],
        &[0x61],
        &[0x61, 0x62],
        &[0x62],
        &[0xe9],
        &[0x100],
        &[0x141],
        &[0x2603],
        &[0xd800, 0xdc00],
        &[0xe000],
        &[0xffff],
    ];
    let mut list = List::new(alloc);
    for text in given {
        list.push(Units::from_slice(alloc, text)?)?;
    }
    let mut want = List::new(alloc);
    for text in order {
        want.push(Units::from_slice(alloc, text)?)?;
    }
    let ids = small(tables_of(alloc, list))?;
    let got = texts(alloc, &ids)?;
    expect_texts(&rt, &got, &want);
    let numbers = numbers_of_texts(alloc, &ids, &got)?;
    let want: [u32; 14] = [0, 2, 3, 4, 5, 6, 10, 9, 11, 1, 7, 8, 2, 10];
    assert_eq!(rt; numbers.as_slice(), want.as_slice());
    Ok(())
}

#[test]
fn names_classes(rt: HostRuntime) -> Result<(), Fail> {
    let alloc = rt.alloc();
    // By Python's `sorted`.
    let order: [&[u8]; 33] = [
        b"La;",
        b"Lab;",
        b"Lb;",
        b"Ljava/io/PrintStream;",
        b"Ljava/lang/AbstractMethodError;",
        b"Ljava/lang/ArithmeticException;",
        b"Ljava/lang/ArrayIndexOutOfBoundsException;",
        b"Ljava/lang/ArrayStoreException;",
        b"Ljava/lang/ClassCastException;",
        b"Ljava/lang/Error;",
        b"Ljava/lang/Exception;",
        b"Ljava/lang/ExceptionInInitializerError;",
        b"Ljava/lang/IllegalArgumentException;",
        b"Ljava/lang/IllegalStateException;",
        b"Ljava/lang/IncompatibleClassChangeError;",
        b"Ljava/lang/IndexOutOfBoundsException;",
        b"Ljava/lang/LinkageError;",
        b"Ljava/lang/NegativeArraySizeException;",
        b"Ljava/lang/NoClassDefFoundError;",
        b"Ljava/lang/NullPointerException;",
        b"Ljava/lang/Object;",
        b"Ljava/lang/RuntimeException;",
        b"Ljava/lang/StackOverflowError;",
        b"Ljava/lang/String;",
        b"Ljava/lang/StringBuilder;",
        b"Ljava/lang/StringIndexOutOfBoundsException;",
        b"Ljava/lang/System;",
        b"Ljava/lang/Throwable;",
        b"Ljava/lang/VirtualMachineError;",
        b"[F",
        b"[I",
        b"[Ljava/lang/String;",
        b"[[Lb;",
    ];
    let ids = small(tables(alloc)?)?;
    let names = class_names(alloc, &ids)?;
    expect_texts(&rt, &names, &ascii_texts(alloc, &order)?);
    for (name, number) in [(b"La;", Some(0)), (b"Lc;", None), (b"Lb;", Some(2))] {
        assert_eq!(rt; find(&names, ascii(alloc, name)?.as_slice()), number);
    }
    Ok(())
}
