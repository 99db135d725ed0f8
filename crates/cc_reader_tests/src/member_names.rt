//! Methods and fields in order.

use crate::names_sample::tables;
use cc_meaning::lists::Rows;
use cc_names::{compare_fields, compare_methods, sorted_fields, sorted_methods};
use std::test::Fail;

#[test]
fn orders_methods(rt: HostRuntime) -> Result<(), Fail> {
    let alloc = rt.alloc();
    let ids = tables(alloc)?;
    let rows = Rows::from_slice(alloc, &[0, 1, 2, 3, 4, 5, 6, 7, 8])?;
    let sorted = sorted_methods(alloc, &ids, rows)?;
    // By Python's `sorted` over the whole names: ru()V, run()J, run(I()V, run(I)V, which two rows have, and run(I[I)I of La;, then those of Lab; and [[Lb;.
    let want = [4, 7, 6, 2, 1, 8, 0, 5];
    assert_eq!(rt; sorted.len(), want.len());
    for (row, want) in sorted.iter().zip(want) {
        assert!(rt; compare_methods(&ids, *row, want).is_eq());
    }
    assert!(rt; compare_methods(&ids, 2, 3).is_eq());
    assert!(rt; compare_methods(&ids, 6, 2).is_lt());
    assert!(rt; compare_methods(&ids, 0, 8).is_gt());
    Ok(())
}

#[test]
fn orders_fields(rt: HostRuntime) -> Result<(), Fail> {
    let alloc = rt.alloc();
    let ids = tables(alloc)?;
    let sorted = sorted_fields(alloc, &ids, Rows::from_slice(alloc, &[0, 1, 2, 3, 4])?)?;
    // By Python's `sorted`: ru:I, run:I, which two rows have, and run:[I of La;, then that of Lab;.
    let want = [4, 2, 1, 0];
    assert_eq!(rt; sorted.len(), want.len());
    for (row, want) in sorted.iter().zip(want) {
        assert!(rt; compare_fields(&ids, *row, want).is_eq());
    }
    assert!(rt; compare_fields(&ids, 2, 3).is_eq());
    Ok(())
}
