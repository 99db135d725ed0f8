//! What checking finds of a file.

use crate::reading::text;
use crate::sample::{adds_unset, prints_sum};
use cc_check::{CheckFault, Summary, check_bytes, load_program};
use cc_meaning::fault::VerifyFault;
use std::test::Fail;

/// What `prints_sum` has.
const SUM: Summary = Summary {
    classes: 1,
    methods: 1,
    units: 9,
};

#[test]
fn accepts_a_program(rt: HostRuntime) -> Result<(), Fail> {
    let alloc = rt.alloc();
    let file = prints_sum(alloc)?;
    assert_eq!(rt; check_bytes(alloc, file.as_slice(), None)?, SUM);
    assert_eq!(rt; check_bytes(alloc, file.as_slice(), Some("LA;"))?, SUM);
    let verified = load_program(alloc, file.as_slice(), None)?;
    assert_eq!(rt; verified.program().methods.len(), 69);
    Ok(())
}

#[test]
fn refuses_an_unset_register(rt: HostRuntime) -> Result<(), Fail> {
    let alloc = rt.alloc();
    let file = adds_unset(alloc)?;
    let found = check_bytes(alloc, file.as_slice(), None);
    let Err(CheckFault::Verify { method, fault }) = found else {
        return Err("verified")?;
    };
    let name = text(alloc, method.as_slice())?;
    assert_eq!(rt; name.as_str(), "LA;->main([Ljava/lang/String;)V");
    assert!(rt; matches!(fault, VerifyFault::IllTyped { pc: 1, .. }));
    Ok(())
}
