//! The whole file.

ghost use Rattle.std.specs.Prelude.{◌≡◌, ◌++◌, length, IfOk};
ghost use Rattle.std.specs.List.{flat_map};
ghost use Rattle.sha1.specs.Sha1.{sha1};
ghost use Rattle.cc_meaning_builder.specs.Forms.{u32_form};
ghost use Rattle.cc_meaning_dex.specs.Adler32.{adler32_of};
ghost use Rattle.cc_meaning_dex.specs.Tables.{magic};
ghost use Rattle.cc_dex_writer.specs.Rows.{tables_form};
ghost use Rattle.cc_dex_writer.specs.Whole.{IsWhole, IsBody, signed_form, file_form};

use crate::head_laws::built_is_whole;
use crate::header::header_numbers;
use crate::numbers::put_numbers;
use crate::offsets::Offsets;
use crate::table_rows::put_tables;
use cc_items::put_u32;
use cc_list::List;
use cc_meaning::fault::Memory;
use cc_meaning::file::Ids;
use cc_meaning::lists::Bytes;
use cc_text::adler32;
use sha1::Sha1;
use std::alloc::Global;

/// All that the signature is of: the rest of the header, the tables and the data.
fn body(alloc: Global, ids: &Ids, offsets: &Offsets, data: &[u8]) -> Result<Bytes, Memory>
    ensures { IfOk result (λ body. IsBody ids.now offsets.now «data».now body) }
{
    let mut out = List::new(alloc);
    put_numbers(&mut out, &header_numbers(ids, data.len()))?;
    put_tables(&mut out, ids, offsets)?;
    out.extend_from_slice(data)?;
    Ok(out)
}

/// A body behind its signature.
fn signed(alloc: Global, body: &[u8]) -> Result<Bytes, Memory>
    ensures { IfOk result (λ signed. signed ≡ signed_form body.now) }
{
    let mut out = List::new(alloc);
    out.extend_from_slice(&Sha1::digest(body))?;
    out.extend_from_slice(body)?;
    Ok(out)
}

/// A signed body behind the file's beginning and its sum.
fn summed(alloc: Global, signed: &[u8]) -> Result<Bytes, Memory>
    ensures { IfOk result (λ file. file ≡ magic ++ (u32_form (adler32_of signed.now) ++ signed.now)) }
{
    let mut out = List::new(alloc);
    out.extend_from_slice(b"dex\n035\0")?;
    put_u32(&mut out, adler32(signed))?;
    out.extend_from_slice(signed)?;
    Ok(out)
}

/// The whole file: header, tables and data, with its signature and its sum.
/// Source: Dalvik Executable format, sections File layout and header_item.
///
/// # Errors
///
/// `Memory`: there is none for the file.
pub fn whole_file(alloc: Global, ids: &Ids, offsets: &Offsets, data: &[u8]) -> Result<Bytes, Memory>
    ensures { IfOk result (λ file. IsWhole ids.now offsets.now «data».now file) }
{
    built_is_whole();
    let body = body(alloc, ids, offsets, data)?;
    let signed = signed(alloc, body.as_slice())?;
    summed(alloc, signed.as_slice())
}
