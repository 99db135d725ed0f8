//! The words behind `check`.

use crate::command::{CALM, expect_built, run};
use cc_test_programs::print_sum;
use std::test::Fail;

#[test]
fn refuses_other_words(rt: HostRuntime) -> Result<(), Fail> {
    let built = print_sum(rt.alloc())?;
    for line in [
        "check",
        "check a.dex a.dex",
        "check a.dex --main",
        "check a.dex --main LA; --main LA;",
        "check a.dex --words 5",
        "check --main LA;",
    ] {
        expect_built(&rt, line, &built, 64, ["", "fault 64 Usage\n"])?;
    }
    Ok(())
}

#[test]
fn tells_of_itself(rt: HostRuntime) -> Result<(), Fail> {
    for line in ["check --help", "check --version"] {
        let came = run(rt.alloc(), line, &[], CALM)?;
        assert_eq!(rt; came.status, 0);
        assert!(rt; !came.out.bytes().is_empty());
        assert!(rt; came.notes.bytes().is_empty());
    }
    Ok(())
}
