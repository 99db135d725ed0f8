//! Files by name, the rows of a DEX file, and jobs.

use crate::lists::{ArgTexts, Bytes, Rows, Texts, Units};
use crate::program::StaticValues;
use crate::report::Limits;
use crate::text::Text;
use cc_list::List;

/// A file: its name, and its bytes.
#[derive(Drop)]
pub struct ShelfFile {
    pub name: Text,
    pub bytes: Bytes,
}

/// Files by name.
pub type Files = List<ShelfFile>;

/// All that a device is given: the file, its script, the main class where one is named, the arguments, the limits, the clone's place,
/// and how many calls within the sending or the awaiting of one frame may move nothing.
#[derive(Drop)]
pub struct Job {
    pub file: Bytes,
    pub script: Bytes,
    pub main: Option<Text>,
    pub args: ArgTexts,
    pub limits: Limits,
    pub place: Text,
    pub patience: u32,
}

/// The tables of a DEX file, each in its order.
/// Source: Dalvik Executable format, section File layout.
#[derive(Drop)]
pub struct Ids {
    pub texts: Texts,
    pub types: Rows,
    pub protos: ProtoRows,
    pub fields: FieldRows,
    pub methods: MethodRows,
    pub classes: ClassRows,
}

/// A row of prototypes: the rows of the result's type and of those of the parameters.
/// Source: Dalvik Executable format, section proto_id_item.
#[derive(Drop)]
pub struct ProtoRow {
    pub result: u32,
    pub params: Rows,
}

/// The table of prototypes.
pub type ProtoRows = List<ProtoRow>;

/// A row of fields: the rows of its class, its type and its name.
/// Source: Dalvik Executable format, section field_id_item.
#[derive(Clone, Copy)]
pub struct FieldRow {
    pub class: u32,
    pub kind: u32,
    pub name: u32,
}

/// The table of fields.
pub type FieldRows = List<FieldRow>;

/// A row of methods: the rows of its class, its prototype and its name.
/// Source: Dalvik Executable format, section method_id_item.
#[derive(Clone, Copy)]
pub struct MethodRow {
    pub class: u32,
    pub proto: u32,
    pub name: u32,
}

/// The table of methods.
pub type MethodRows = List<MethodRow>;

/// A row of class definitions: the rows of its type, its superclass's and its interfaces', and its access flags. `members_at` and `values_at` are offsets
/// in the file, in bytes, of its class data and its static values, 0 for none.
/// Source: Dalvik Executable format, section class_def_item.
#[derive(Drop)]
pub struct ClassRow {
    pub class: u32,
    pub flags: u32,
    pub superclass: Option<u32>,
    pub interfaces: Rows,
    pub members_at: u32,
    pub values_at: u32,
}

/// The table of class definitions.
pub type ClassRows = List<ClassRow>;

/// The members of a class as the file has them; in its values a text holds its row.
/// Source: Dalvik Executable format, sections class_data_item and encoded_array_item.
#[derive(Drop)]
pub struct RawClass {
    pub fields: RawFields,
    pub methods: RawMethods,
    pub values: StaticValues,
}

/// Classes, in the order of the file's class definitions.
pub type RawClasses = List<RawClass>;

/// A field of a class data item: its row of the fields, its access flags, and whether it stands among the static fields.
/// Source: Dalvik Executable format, section encoded_field format.
#[derive(Clone, Copy)]
pub struct RawField {
    pub row: u32,
    pub flags: u32,
    pub is_static: bool,
}

/// Fields of a class data item, the static ones first.
pub type RawFields = List<RawField>;

/// A method of a class data item: its row of the methods, its access flags, whether it stands among the direct methods, and its code.
/// Source: Dalvik Executable format, section encoded_method format.
#[derive(Drop)]
pub struct RawMethod {
    pub row: u32,
    pub flags: u32,
    pub is_direct: bool,
    pub code: Option<RawCode>,
}

/// Methods of a class data item, the direct ones first.
pub type RawMethods = List<RawMethod>;

/// A code item: how many registers there are, how many of them hold arguments, the instructions in units of 16 bits, and the tries.
/// Source: Dalvik Executable format, section code_item.
#[derive(Drop)]
pub struct RawCode {
    pub registers: u16,
    pub ins: u16,
    pub units: Units,
    pub tries: RawTries,
}

/// A try of a code item, from `start` to before `end`, in units.
/// Source: Dalvik Executable format, section try_item format.
#[derive(Drop)]
pub struct RawTry {
    pub start: u32,
    pub end: u32,
    pub catches: RawCatches,
}

/// Tries of a code item.
pub type RawTries = List<RawTry>;

/// A handler: the row of the type that it takes, or `None` where it takes all, and its address in units.
/// Source: Dalvik Executable format, sections encoded_catch_handler format and encoded_type_addr_pair format.
#[derive(Clone, Copy)]
pub struct RawCatch {
    pub row: Option<u32>,
    pub at: u32,
}

/// Handlers of a try, in the order in which they are asked.
pub type RawCatches = List<RawCatch>;
