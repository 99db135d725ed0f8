//! Files that are changed once they are built.

use crate::command::expect;
use cc_test_programs::print_sum;
use std::test::Fail;

/// A byte of the signature. It is 43 in the file of `print_sum`.
const SIGNATURE: usize = 12;

/// The sums were reckoned by Python's `zlib`, of the file as it is built and with 0 in place of this byte.
#[test]
fn judges_a_changed_byte(rt: HostRuntime) -> Result<(), Fail> {
    let mut file = print_sum(rt.alloc())?.finish()?;
    assert!(rt; file.len() > SIGNATURE);
    file.set(SIGNATURE, 0);
    let line = "fault 65 D3 BadChecksum 2193769443 959464376\n";
    expect(&rt, "check a.dex", file.as_slice(), 65, ["", line])
}

#[test]
fn judges_the_beginning(rt: HostRuntime) -> Result<(), Fail> {
    let mut file = print_sum(rt.alloc())?.finish()?;
    file.truncate(111);
    let line = "fault 65 D2 BadSize\n";
    expect(&rt, "check a.dex", file.as_slice(), 65, ["", line])?;
    assert!(rt; !file.is_empty());
    file.set(0, 0);
    let line = "fault 65 D1 NotDex035\n";
    expect(&rt, "check a.dex", file.as_slice(), 65, ["", line])?;
    expect(&rt, "check a.dex", &[], 65, ["", line])
}
