//! Rows at marks.

use cc_builder::put_row;
use cc_list::List;
use std::test::Fail;

/// The units of `const-string v0`, and those of `const-string/jumbo v0`, without the row.
const SHORT: [u16; 2] = [0x001a, 0];

const JUMBO: [u16; 3] = [0x001b, 0, 0];

#[test]
fn puts_the_last_row_of_one_unit(rt: HostRuntime) -> Result<(), Fail> {
    let mut units = List::from_slice(rt.alloc(), &SHORT)?;
    put_row(&mut units, 1, 65_535)?;
    assert!(rt; units.as_slice() == [0x001a, 0xffff].as_slice());
    Ok(())
}

#[test]
fn refuses_the_row_behind_it(rt: HostRuntime) -> Result<(), Fail> {
    let mut units = List::from_slice(rt.alloc(), &SHORT)?;
    assert!(rt; put_row(&mut units, 1, 65_536).is_err());
    assert!(rt; units.as_slice() == SHORT.as_slice());
    Ok(())
}

#[test]
fn puts_that_row_into_two_units(rt: HostRuntime) -> Result<(), Fail> {
    let mut units = List::from_slice(rt.alloc(), &JUMBO)?;
    put_row(&mut units, 1, 65_536)?;
    assert!(rt; units.as_slice() == [0x001b, 0, 1].as_slice());
    Ok(())
}
