//! Laws of sound bodies.

ghost use Rattle.cc_bodies.specs.UsedRows.{UsedRowsAreThere};
ghost use Rattle.cc_bodies.specs.Linkable.{SoundCodeIsLinkable};

use cc_meaning_program::{listed_types_spelled, one_reading, stand_to_end};

/// Where bodies are sound, the rows of methods and fields that instructions name are there.
pub fn used_rows_are_there()
    ensures { UsedRowsAreThere }
{
    stand_to_end();
}

/// Where bodies are sound, each row that code names has what it links to.
pub fn sound_code_is_linkable()
    ensures { SoundCodeIsLinkable }
{
    stand_to_end();
    one_reading();
    listed_types_spelled();
}
