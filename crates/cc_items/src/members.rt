//! Class data.

ghost use Rattle.std.specs.Prelude.{◌≡◌, ◌++◌, length, OnOk};
ghost use Rattle.cc_meaning_builder.specs.Forms.{class_data_form, fields_form, methods_form};
ghost use Rattle.cc_items.specs.Listed.{fields_of, methods_of};

use crate::numbers::{put_count, put_uleb};
use cc_meaning::fault::Memory;
use cc_meaning::file::{RawField, RawFields};
use cc_meaning::lists::Bytes;
use cc_meaning_dex::StatedMethod;

/// Puts the class data item of these members behind the bytes that are there: the static fields, the instance fields, the direct methods and the virtual
/// ones, each list in the order in which they are given. A member has its row by how far that lies behind the row of the one before it, 0 where it lies
/// further in front.
/// Source: Dalvik Executable format, section class_data_item.
///
/// # Errors
///
/// `Memory`: there is no memory, or a list has 2 ^ 32 members or more.
#[tactic(auto, unfolding(cc_meaning_builder::specs::Forms::class_data_form))]
pub fn put_members(
    out: &mut Bytes,
    fields: &RawFields,
    methods: &[StatedMethod],
) -> Result<(), Memory>
    ensures { OnOk result (out.new ≡ out.old ++ class_data_form fields.now methods.now) }
{
    let fields = fields.as_slice();
    put_count(out, field_count(fields, true))?;
    put_count(out, field_count(fields, false))?;
    put_count(out, method_count(methods, true))?;
    put_count(out, method_count(methods, false))?;
    put_fields(out, fields, true)?;
    put_fields(out, fields, false)?;
    put_methods(out, methods, true)?;
    put_methods(out, methods, false)
}

/// How many fields are static, or how many aren't.
fn field_count(fields: &[RawField], is_static: bool) -> usize
    ensures { result ≡ length (fields_of is_static fields.now) }
{
    let mut count = 0;
    for field in fields {
        if field.is_static == is_static {
            count += 1;
        }
    }
    count
}

/// How many methods are direct, or how many aren't.
fn method_count(methods: &[StatedMethod], is_direct: bool) -> usize
    ensures { result ≡ length (methods_of is_direct methods.now) }
{
    let mut count = 0;
    for method in methods {
        if method.is_direct == is_direct {
            count += 1;
        }
    }
    count
}

/// Puts the fields that are static, or those that aren't.
fn put_fields(out: &mut Bytes, fields: &[RawField], is_static: bool) -> Result<(), Memory>
    ensures { OnOk result (out.new ≡ out.old ++ fields_form 0 (fields_of is_static fields.now)) }
{
    let mut before = 0;
    for field in fields {
        if field.is_static == is_static {
            put_uleb(out, field.row.saturating_sub(before))?;
            put_uleb(out, field.flags)?;
            before = field.row;
        }
    }
    Ok(())
}

/// Puts the methods that are direct, or those that aren't.
fn put_methods(out: &mut Bytes, methods: &[StatedMethod], is_direct: bool) -> Result<(), Memory>
    ensures { OnOk result (out.new ≡ out.old ++ methods_form 0 (methods_of is_direct methods.now)) }
{
    let mut before = 0;
    for method in methods {
        if method.is_direct == is_direct {
            put_uleb(out, method.row.saturating_sub(before))?;
            put_uleb(out, method.flags)?;
            put_uleb(out, method.code_at)?;
            before = method.row;
        }
    }
    Ok(())
}
