//! Rows of a file by name.

use crate::fault::AssemblyFault;
use cc_builder::units_of;
use cc_meaning::listing::RowName;
use std::alloc::Global;

/// A text.
pub fn text(alloc: Global, text: &str) -> Result<RowName, AssemblyFault> {
    let units = units_of(alloc, text)?;
    Ok(RowName::Text(units))
}

/// A class or another type, by its descriptor.
pub fn class(alloc: Global, name: &str) -> Result<RowName, AssemblyFault> {
    let name = units_of(alloc, name)?;
    Ok(RowName::Class(name))
}

/// A field of a class: its name, and its type's descriptor.
pub fn field(alloc: Global, class: &str, name: &str, kind: &str) -> Result<RowName, AssemblyFault> {
    Ok(RowName::Field {
        class: units_of(alloc, class)?,
        name: units_of(alloc, name)?,
        kind: units_of(alloc, kind)?,
    })
}

/// A method of a class: its name, and its prototype, as `(I)V`.
pub fn method(
    alloc: Global,
    class: &str,
    name: &str,
    proto: &str,
) -> Result<RowName, AssemblyFault> {
    Ok(RowName::Method {
        class: units_of(alloc, class)?,
        name: units_of(alloc, name)?,
        proto: units_of(alloc, proto)?,
    })
}
