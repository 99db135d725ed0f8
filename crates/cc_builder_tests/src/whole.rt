//! What stands in a file that no reader looks at.

use cc_builder::{DexBuilder, units_of};
use cc_list::List;
use cc_meaning::fault::Memory;
use cc_meaning::listing::{Listing, Mark, RowName};
use cc_meaning::lists::Bytes;
use std::alloc::Global;
use std::test::Fail;

const PUBLIC: u32 = 1;

const PUBLIC_STATIC: u32 = 9;

const PUBLIC_STATIC_NATIVE: u32 = 0x109;

/// `invoke-static {v0, v1, v2}`, without its row, and `return-void`.
const CALLS: [u16; 4] = [0x3071, 0, 0x0210, 0x000e];

/// Code that passes three arguments to the method `a`.
fn calls(alloc: Global) -> Result<Listing, Memory> {
    let called = RowName::Method {
        class: units_of(alloc, "LA;")?,
        name: units_of(alloc, "a")?,
        proto: units_of(alloc, "(III)V")?,
    };
    let mut marks = List::new(alloc);
    marks.push(Mark { at: 1, row: called })?;
    Ok(Listing {
        registers: 4,
        outs: 3,
        units: List::from_slice(alloc, &CALLS)?,
        marks,
        tries: List::new(alloc),
    })
}

/// A file of one class and two methods: `a` has no code, and `m` calls it.
fn file(alloc: Global) -> Result<Bytes, Memory> {
    let mut builder = DexBuilder::new(alloc)?;
    let class = builder.class("LA;", "", PUBLIC)?;
    let code = calls(alloc)?;
    builder.method(class, "m", "()V", PUBLIC_STATIC, Some(code))?;
    builder.method(class, "a", "(III)V", PUBLIC_STATIC_NATIVE, None)?;
    builder.finish()
}

/// By the format, the header has the size and the offset of the link section and the offset of the map at 44, 48 and 52. Behind its 112 bytes stand six
/// texts of 4 bytes, three types of 4, two prototypes of 12, two methods of 8 and a class of 32, then the texts `I`, `LA;`, `V`, `VIII`, `a` and `m` in 23
/// bytes, at 244 the three parameters in 10, and at 256 the code: registers, those of arguments, and those that it passes.
#[test]
fn states_no_sections_and_what_code_passes(rt: HostRuntime) -> Result<(), Fail> {
    let file = file(rt.alloc())?;
    assert!(rt; file.as_slice().get(44..56) == Some([0u8; 12].as_slice()));
    assert!(rt; file.as_slice().get(256..262) == Some([4u8, 0, 0, 0, 3, 0].as_slice()));
    Ok(())
}
