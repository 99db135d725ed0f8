//! All of the header and the six tables.

ghost use Rattle.std.specs.Prelude.{◌≡◌, ◌≢◌, IfOk, IfErr, Some};
ghost use Rattle.cc_meaning.specs.declared.file.Ids.{Ids};
ghost use Rattle.cc_meaning_dex.specs.Tables.{IsLaidOut};
ghost use Rattle.cc_meaning_dex.specs.Faults.{Reads, rows_fault, first_of_tables, first_fault};
ghost use Rattle.cc_meaning_dex.specs.Ids.{TablesSpelled, SpellsIds};

use crate::header::check_header;
use crate::known::Known;
use crate::readers::{
    ClassReader, FieldReader, MethodReader, PrototypeReader, TextReader, TypeReader,
};
use crate::tables::{check_tables, row_count};
use crate::walk::read_table;
use cc_meaning::fault::DexFault;
use cc_meaning::file::Ids;
use cc_meaning_dex::Table;
use std::alloc::Global;

/// The tables of a DEX file.
///
/// # Errors
///
/// The first fault of the file, in this order. `TooLarge`: it has more than 8,388,608 bytes. `NotDex035`: it begins otherwise.
/// `BadSize`: it has fewer than 112 bytes. `NotDex035`: it has another order of bytes. `BadSize`: it states another size of the header
/// or of the file. `BadChecksum`, `BadSignature`: it states others than are found. `OutOfFile`: a table leaves the file, in the header's order.
/// Then row by row, table by table: `OutOfFile`, an item leaves the file; `BadIndex`, the row names what isn't there or is of another
/// sort; `BadText`, its text is malformed. At any time `Memory`: there is no memory.
///
/// Source: Dalvik Executable format, sections header_item to class_def_item.
#[tactic(auto, unfolding(cc_meaning_dex::specs::Faults::first_fault))]
pub fn read_ids(alloc: Global, file: &[u8]) -> Result<Ids, DexFault>
    ensures spelled { IfOk result (λ ids. SpellsIds file.now ids) }
    ensures fault { IfErr result (λ fault. fault ≢ DexFault.Memory → first_fault file.now ≡ Some fault) }
    ensures refused { IfErr result (λ fault. fault ≢ DexFault.Memory → (ids : Ids) → ¬ SpellsIds file.now ids) }
{
    check_header(file)?;
    check_tables(file)?;
    read_tables(alloc, file)
}

/// The rows of the six tables, which lie in the file.
fn read_tables(alloc: Global, file: &[u8]) -> Result<Ids, DexFault>
    requires { IsLaidOut file.now }
    ensures { Reads (first_of_tables (rows_fault file.now)) (TablesSpelled file.now) result }
{
    let texts = read_table(alloc, &TextReader { file }, row_count(file, Table::Texts))?;
    let text_rows = TypeReader {
        file,
        texts: &texts,
    };
    let types = read_table(alloc, &text_rows, row_count(file, Table::Types))?;
    let known = Known {
        file,
        texts: &texts,
        types: &types,
    };
    let prototypes = row_count(file, Table::Prototypes);
    let protos = read_table(alloc, &PrototypeReader { known }, prototypes)?;
    let fields = read_table(
        alloc,
        &FieldReader { known },
        row_count(file, Table::Fields),
    )?;
    let methods = read_table(
        alloc,
        &MethodReader { known },
        row_count(file, Table::Methods),
    )?;
    let classes = read_table(
        alloc,
        &ClassReader { known },
        row_count(file, Table::Classes),
    )?;
    Ok(Ids {
        texts,
        types,
        protos,
        fields,
        methods,
        classes,
    })
}
