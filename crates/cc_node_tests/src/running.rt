//! The run of plain files: published worked examples, and sums that a program in Python took.

use cc_list::List;
use cc_machine::{run, run_function};
use cc_meaning::lists::Units;
use cc_meaning::report::{Ending, Limits, StopCause};
use cc_meaning_plain::{Last, Plain, PlainCode, PlainFunction, PlainFunctions, PlainInsn};
use std::alloc::{AllocError, Global};
use std::test::Fail;

/// An ending by a letter: returned, or stopped for want of instructions or of words.
fn letter(ending: Ending) -> char {
    match ending {
        Ending::Returned => 'r',
        Ending::Stopped(StopCause::Budget) => 'b',
        Ending::Stopped(StopCause::Heap) => 'h',
        _ => '?',
    }
}

fn code(
    alloc: Global,
    registers: u16,
    insns: &[PlainInsn],
    last: Last,
) -> Result<PlainCode, AllocError> {
    Ok(PlainCode {
        registers,
        insns: List::from_slice(alloc, insns)?,
        last,
    })
}

fn function(alloc: Global, code: PlainCode) -> Result<PlainFunction, AllocError> {
    let name = Units::from_slice(alloc, &[102, 40, 73, 41, 73])?;
    Ok(PlainFunction { name, code })
}

fn plain(alloc: Global, main: PlainCode, functions: PlainFunctions) -> Result<Plain, AllocError> {
    let class = Units::from_slice(alloc, &[76, 65, 59])?;
    Ok(Plain {
        class,
        main,
        functions,
    })
}

/// Adds 1 to its argument.
fn one_more(alloc: Global) -> Result<PlainFunction, AllocError> {
    let add = PlainInsn::AddIntLit8 {
        to: 0,
        from: 0,
        literal: 1,
    };
    function(alloc, code(alloc, 1, &[add], Last::Return { from: 0 })?)
}

/// Adds 8 less to its argument, and that to itself.
fn twice_less(alloc: Global) -> Result<PlainFunction, AllocError> {
    let insns = [
        PlainInsn::Const4 { to: 0, value: -8 },
        PlainInsn::AddInt2Addr { to: 1, other: 0 },
        PlainInsn::AddInt2Addr { to: 1, other: 1 },
    ];
    function(alloc, code(alloc, 2, &insns, Last::Return { from: 1 })?)
}

#[test]
fn adds_and_prints(rt: HostRuntime) -> Result<(), Fail> {
    let alloc = rt.alloc();
    let insns = [
        PlainInsn::SgetOut { to: 0 },
        PlainInsn::Const4 { to: 1, value: 3 },
        PlainInsn::Const4 { to: 2, value: 4 },
        PlainInsn::AddInt2Addr { to: 1, other: 2 },
        PlainInsn::InvokePrintln {
            stream: 0,
            number: 1,
        },
    ];
    let main = code(alloc, 4, &insns, Last::ReturnVoid)?;
    let file = plain(alloc, main, List::new(alloc))?;
    for (instructions, words, out, ending, did, took) in [
        (5, 100, "7\n", 'b', 5, 6),
        (6, 100, "7\n", 'r', 6, 6),
        (100, 5, "", 'h', 5, 2),
        (100, 6, "7\n", 'r', 6, 6),
    ] {
        let report = run(
            alloc,
            &file,
            Limits {
                instructions,
                words,
            },
        )?;
        assert!(rt;
            report.out.as_slice() == out.as_bytes(),
            "within {instructions} and {words}"
        );
        assert_eq!(rt;
            letter(report.ending),
            ending,
            "within {instructions} and {words}"
        );
        assert_eq!(rt; (report.instructions, report.words), (did, took));
        assert!(rt; report.calls.is_empty());
    }
    Ok(())
}

#[test]
fn calls_a_function(rt: HostRuntime) -> Result<(), Fail> {
    let alloc = rt.alloc();
    let insns = [
        PlainInsn::Const4 { to: 0, value: 5 },
        PlainInsn::CallFunction {
            function: 0,
            argument: 0,
            to: 0,
        },
        PlainInsn::SgetOut { to: 1 },
        PlainInsn::InvokePrintln {
            stream: 1,
            number: 0,
        },
    ];
    let main = code(alloc, 3, &insns, Last::ReturnVoid)?;
    let mut functions = List::new(alloc);
    functions.push(one_more(alloc)?)?;
    let file = plain(alloc, main, functions)?;
    for (instructions, out, ending, did, took) in [
        (3, "", 'b', 3, 2),
        (7, "6\n", 'b', 7, 6),
        (8, "6\n", 'r', 8, 6),
    ] {
        let report = run(
            alloc,
            &file,
            Limits {
                instructions,
                words: 100,
            },
        )?;
        assert!(rt;
            report.out.as_slice() == out.as_bytes(),
            "within {instructions}"
        );
        assert_eq!(rt; letter(report.ending), ending, "within {instructions}");
        assert_eq!(rt; (report.instructions, report.words), (did, took));
    }
    Ok(())
}

#[test]
fn gives_values(rt: HostRuntime) -> Result<(), Fail> {
    let alloc = rt.alloc();
    let more = one_more(alloc)?;
    for (argument, instructions, want) in [
        (5, 2, Some((6, 0))),
        (5, 1, None),
        (2147483647, 10, Some((-2147483648, 8))),
    ] {
        assert_eq!(rt; run_function(alloc, &more, argument, instructions)?, want);
    }
    let less = twice_less(alloc)?;
    for (argument, instructions, want) in [
        (7, 4, Some((-2, 0))),
        (7, 3, None),
        (2147483647, 5, Some((-18, 1))),
        (-2147483648, 4, Some((-16, 0))),
    ] {
        assert_eq!(rt; run_function(alloc, &less, argument, instructions)?, want);
    }
    Ok(())
}
