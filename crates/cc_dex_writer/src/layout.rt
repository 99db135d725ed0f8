//! Where the parts of a file stand: header, tables and data, one behind the other.

ghost use Rattle.std.specs.Prelude.{◌≡◌, ◌+◌, ◌-◌, ◌*◌, ◌^◌, min, length};
ghost use Rattle.cc_dex_writer.specs.Layout.{types_at, protos_at, fields_at, methods_at, classes_at, data_start_of};

use cc_meaning::file::Ids;

/// The bytes of the header.
/// Source: Dalvik Executable format, section header_item.
pub const HEADER: usize = 112;

/// What stands behind so many rows of this size.
fn behind(at: usize, rows: usize, size: usize) -> usize
    ensures { result ≡ min (at + rows * size) (2 ^ 64 - 1) }
{
    at.saturating_add(rows.saturating_mul(size))
}

/// Where the types stand.
pub fn types_at(ids: &Ids) -> usize
    ensures { result ≡ min (types_at ids.now) (2 ^ 64 - 1) }
{
    behind(HEADER, ids.texts.len(), 4)
}

/// Where the prototypes stand.
pub fn protos_at(ids: &Ids) -> usize
    ensures { result ≡ min (protos_at ids.now) (2 ^ 64 - 1) }
{
    behind(types_at(ids), ids.types.len(), 4)
}

/// Where the fields stand.
pub fn fields_at(ids: &Ids) -> usize
    ensures { result ≡ min (fields_at ids.now) (2 ^ 64 - 1) }
{
    behind(protos_at(ids), ids.protos.len(), 12)
}

/// Where the methods stand.
pub fn methods_at(ids: &Ids) -> usize
    ensures { result ≡ min (methods_at ids.now) (2 ^ 64 - 1) }
{
    behind(fields_at(ids), ids.fields.len(), 8)
}

/// Where the definitions of classes stand.
pub fn classes_at(ids: &Ids) -> usize
    ensures { result ≡ min (classes_at ids.now) (2 ^ 64 - 1) }
{
    behind(methods_at(ids), ids.methods.len(), 8)
}

/// How many bytes stand before the data: the header and the tables. Where 64 bits don't hold the number, it is cut off at the highest.
/// Source: Dalvik Executable format, section File layout.
pub fn data_start(ids: &Ids) -> usize
    ensures { result ≡ min (data_start_of ids.now) (2 ^ 64 - 1) }
{
    behind(classes_at(ids), ids.classes.len(), 32)
}

/// How many bytes the whole file has, by those of its data. Where 64 bits don't hold the number, it is cut off at the highest.
pub fn file_size(ids: &Ids, size: usize) -> usize
    ensures { result ≡ min (data_start_of ids.now + size) (2 ^ 64 - 1) }
{
    data_start(ids).saturating_add(size)
}
