//! Faults of classes, code and main class, by files that have them.

use crate::reading::expect;
use crate::sample::{
    defines_twice, extends_itself, extends_nothing, extends_string, invokes_no_row, misnames_main,
    prints_sum, returns_double,
};
use std::test::Fail;

#[test]
fn judges_classes(rt: HostRuntime) -> Result<(), Fail> {
    let alloc = rt.alloc();
    let cases = [
        (extends_itself(alloc)?, "HierarchyCycle LA;"),
        (extends_string(alloc)?, "NoSuperclass LA;"),
        (extends_nothing(alloc)?, "NoSuperclass LA;"),
        (defines_twice(alloc)?, "Duplicate LA;"),
    ];
    for (file, want) in &cases {
        expect(&rt, alloc, file.as_slice(), None, want)?;
    }
    Ok(())
}

#[test]
fn judges_code(rt: HostRuntime) -> Result<(), Fail> {
    let alloc = rt.alloc();
    let cases = [
        (returns_double(alloc)?, "FloatMember LA;->half()D"),
        (
            invokes_no_row(alloc)?,
            "BadIndex LA;->main([Ljava/lang/String;)V 1",
        ),
    ];
    for (file, want) in &cases {
        expect(&rt, alloc, file.as_slice(), None, want)?;
    }
    Ok(())
}

#[test]
fn judges_the_main_class(rt: HostRuntime) -> Result<(), Fail> {
    let alloc = rt.alloc();
    let misnamed = misnames_main(alloc)?;
    expect(&rt, alloc, misnamed.as_slice(), None, "NoMain")?;
    let file = prints_sum(alloc)?;
    for asked in ["LB;", "", "Ljava/lang/Object;"] {
        expect(&rt, alloc, file.as_slice(), Some(asked), "NoMain")?;
    }
    Ok(())
}
