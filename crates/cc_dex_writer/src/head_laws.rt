//! What a body with its signature and its sum is.

ghost use Rattle.cc_dex_writer.specs.Laws.{Lower, BuiltIsWhole, FittingRowsAreSmall};

use cc_builder_laws::{stands_apart, stands_behind, stands_within, written_u16, written_u32};

/// The laws of numbers and of parts that the others stand on.
fn lower()
    ensures { Lower }
{
    stands_apart();
    stands_behind();
    stands_within();
    written_u16();
    written_u32();
}

/// A body, with its signature and its sum before it, is the whole file.
pub(crate) fn built_is_whole()
    ensures { BuiltIsWhole }
{
    lower();
}

/// Rows that name what is there have room in the slots of the format, where 16 bits number types and prototypes.
pub fn fitting_rows_are_small()
    ensures { FittingRowsAreSmall }
{}
