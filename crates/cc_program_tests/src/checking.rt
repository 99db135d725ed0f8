//! What `check` says of each listing.

use crate::command::{CALM, Failing, expect, expect_built, run};
use cc_builder::DexBuilder;
use cc_test_programs::{
    AssemblyFault, add_after_branches, add_floats, add_one, add_one_again, add_one_beside_help,
    add_one_through, ask_apart, ask_twice, catch_division, compare_texts, divide_least,
    fill_registers, for_ever, link_nodes, make_system, measure_square, meet_after_branches,
    overfill_registers, print_sum, sum_and_go_back, sum_and_run_on,
};
use std::process::Abort;
use std::test::Fail;

/// That the file that is built is refused with a status and a line.
fn refuses(
    rt: &(impl Abort + AllocGlobal),
    built: Result<DexBuilder, AssemblyFault>,
    status: u8,
    line: &str,
) -> Result<(), Fail> {
    let builder = built?;
    expect_built(rt, "check a.dex", &builder, status, ["", line])
}

/// That the file that is built is sound, and has this.
fn counts(
    rt: &(impl Abort + AllocGlobal),
    built: Result<DexBuilder, AssemblyFault>,
    line: &str,
) -> Result<(), Fail> {
    let builder = built?;
    expect_built(rt, "check a.dex", &builder, 0, [line, ""])
}

/// That the file that is built is sound.
fn passes(
    rt: &(impl Abort + AllocGlobal),
    built: Result<DexBuilder, AssemblyFault>,
) -> Result<(), Fail> {
    let builder = built?;
    let file = builder.finish()?;
    let came = run(rt.alloc(), "check a.dex", file.as_slice(), CALM)?;
    assert_eq!(rt; came.status, 0);
    assert!(rt; came.notes.bytes().is_empty());
    Ok(())
}

#[test]
fn passes_sound_programs(rt: HostRuntime) -> Result<(), Fail> {
    let alloc = rt.alloc();
    counts(&rt, print_sum(alloc), "classes 1, methods 1, units 9\n")?;
    counts(
        &rt,
        meet_after_branches(alloc),
        "classes 1, methods 1, units 8\n",
    )?;
    counts(
        &rt,
        fill_registers(alloc),
        "classes 1, methods 2, units 73\n",
    )
}

#[test]
fn refuses_broken_flow(rt: HostRuntime) -> Result<(), Fail> {
    let alloc = rt.alloc();
    let line = "fault 68 V3 FallsOff LA;->main([Ljava/lang/String;)V\n";
    refuses(&rt, sum_and_run_on(alloc), 68, line)?;
    let line = "fault 68 V2 BadTarget LA;->main([Ljava/lang/String;)V 8\n";
    refuses(&rt, sum_and_go_back(alloc), 68, line)
}

#[test]
fn refuses_wrong_types(rt: HostRuntime) -> Result<(), Fail> {
    let alloc = rt.alloc();
    let line = "fault 68 V1 IllTyped LA;->main([Ljava/lang/String;)V 7\n";
    refuses(&rt, add_after_branches(alloc), 68, line)?;
    let line = "fault 68 V5 UnknownMember LA;->main([Ljava/lang/String;)V 0\n";
    refuses(&rt, make_system(alloc), 68, line)
}

#[test]
fn refuses_what_is_too_wide(rt: HostRuntime) -> Result<(), Fail> {
    let line = "fault 68 V4 TooWide LA;->u()V\n";
    refuses(&rt, overfill_registers(rt.alloc()), 68, line)
}

#[test]
fn refuses_floating_point(rt: HostRuntime) -> Result<(), Fail> {
    let line = "fault 65 I1 Float LA;->u()V 0\n";
    refuses(&rt, add_floats(rt.alloc()), 65, line)
}

#[test]
fn passes_calls(rt: HostRuntime) -> Result<(), Fail> {
    let alloc = rt.alloc();
    passes(&rt, add_one(alloc))?;
    passes(&rt, add_one_through(alloc))?;
    passes(&rt, for_ever(alloc))
}

#[test]
fn passes_more_calls(rt: HostRuntime) -> Result<(), Fail> {
    let alloc = rt.alloc();
    passes(&rt, add_one_again(alloc))?;
    passes(&rt, add_one_beside_help(alloc))?;
    passes(&rt, catch_division(alloc))
}

#[test]
fn passes_natives(rt: HostRuntime) -> Result<(), Fail> {
    let alloc = rt.alloc();
    passes(&rt, ask_twice(alloc))?;
    passes(&rt, ask_apart(alloc))?;
    passes(&rt, measure_square(alloc))
}

#[test]
fn passes_objects(rt: HostRuntime) -> Result<(), Fail> {
    let alloc = rt.alloc();
    passes(&rt, divide_least(alloc))?;
    passes(&rt, compare_texts(alloc))?;
    passes(&rt, link_nodes(alloc))
}

/// Each class with a `main` may be asked for.
#[test]
fn takes_a_main_class(rt: HostRuntime) -> Result<(), Fail> {
    let built = print_sum(rt.alloc())?;
    let lines = ["classes 1, methods 1, units 9\n", ""];
    expect_built(&rt, "check a.dex --main LA;", &built, 0, lines)?;
    expect_built(&rt, "check --main LA; a.dex", &built, 0, lines)
}

#[test]
fn refuses_another_main_class(rt: HostRuntime) -> Result<(), Fail> {
    let built = print_sum(rt.alloc())?;
    let lines = ["", "fault 65 L3 NoMain\n"];
    expect_built(&rt, "check a.dex --main LB;", &built, 65, lines)
}

#[test]
fn says_why_nothing_was_read(rt: HostRuntime) -> Result<(), Fail> {
    let lines = ["", "fault 73 Absent b.dex\n"];
    expect(&rt, "check b.dex", &[], 73, lines)?;
    let unread = Failing {
        shelf: &[0],
        ..CALM
    };
    let came = run(rt.alloc(), "check a.dex", &[], unread)?;
    assert_eq!(rt; came.status, 71);
    assert!(rt; came.notes.bytes() == b"fault 71 ReadFault a.dex\n".as_slice());
    Ok(())
}

#[test]
fn says_that_out_failed(rt: HostRuntime) -> Result<(), Fail> {
    let alloc = rt.alloc();
    let file = print_sum(alloc)?.finish()?;
    let unwritten = Failing { out: &[0], ..CALM };
    let came = run(alloc, "check a.dex", file.as_slice(), unwritten)?;
    assert_eq!(rt; came.status, 72);
    assert!(rt; came.out.bytes().is_empty());
    assert!(rt; came.notes.bytes() == b"fault 72 WriteFault\n".as_slice());
    Ok(())
}

#[test]
fn says_that_notes_failed(rt: HostRuntime) -> Result<(), Fail> {
    let unsaid = Failing {
        notes: &[0],
        ..CALM
    };
    let came = run(rt.alloc(), "check b.dex", &[], unsaid)?;
    assert_eq!(rt; came.status, 72);
    assert!(rt; came.notes.bytes().is_empty());
    Ok(())
}

#[test]
fn refuses_a_file_that_is_too_long(rt: HostRuntime) -> Result<(), Fail> {
    let long = vec![in rt.alloc(); 0u8; 8_388_609]?;
    let lines = ["", "fault 74 TooLarge a.dex\n"];
    expect(&rt, "check a.dex", &long, 74, lines)
}
