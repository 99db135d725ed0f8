//! The part of the header behind the signature: sizes, and where the tables stand.

ghost use Rattle.std.specs.Prelude.{◌≡◌, ◌+◌, ◌<◌, ◌^◌, length};
ghost use Rattle.cc_dex_writer.specs.Layout.{data_start_of, stated_place, header_numbers};

use crate::layout::{
    HEADER, classes_at, data_start, fields_at, file_size, methods_at, protos_at, types_at,
};
use crate::numbers::number;
use cc_meaning::file::Ids;

/// The order of bytes of a file whose numbers stand lowest byte first.
const USUAL_ORDER: u32 = 0x1234_5678;

/// Where a table of so many rows is stated to stand. An empty one stands nowhere, which is stated as 0.
fn stated_place(rows: usize, at: usize) -> u32
    ensures { at < 2 ^ 32 → result ≡ stated_place rows at }
{
    if rows == 0 { 0 } else { number(at) }
}

/// The numbers of the header behind the signature, for data of this size in bytes. There is no link section and no map.
/// Source: Dalvik Executable format, section header_item.
pub fn header_numbers(ids: &Ids, size: usize) -> [u32; 20]
    ensures exact { data_start_of ids.now + size < 2 ^ 32 → result ≡ header_numbers ids.now size }
    ensures count { length result ≡ 20 }
{
    [
        number(file_size(ids, size)),
        HEADER as u32,
        USUAL_ORDER,
        0,
        0,
        0,
        number(ids.texts.len()),
        stated_place(ids.texts.len(), HEADER),
        number(ids.types.len()),
        stated_place(ids.types.len(), types_at(ids)),
        number(ids.protos.len()),
        stated_place(ids.protos.len(), protos_at(ids)),
        number(ids.fields.len()),
        stated_place(ids.fields.len(), fields_at(ids)),
        number(ids.methods.len()),
        stated_place(ids.methods.len(), methods_at(ids)),
        number(ids.classes.len()),
        stated_place(ids.classes.len(), classes_at(ids)),
        number(size),
        number(data_start(ids)),
    ]
}
