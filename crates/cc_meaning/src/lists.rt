//! Numbers that name things of a program, and lists of plain numbers.

use cc_list::List;

/// The place of a class in a program's list of classes, counted from 0.
pub type ClassIx = u32;

/// The place of a method in a program's list of methods, counted from 0.
pub type MethodIx = u32;

/// The place of a field in a program's list of fields, counted from 0.
pub type FieldIx = u32;

/// The place of a text in a program's list of texts, counted from 0.
pub type TextIx = u32;

/// The number of an object: how many objects a heap had when it was made.
pub type ObjId = u32;

/// Bytes.
pub type Bytes = List<u8>;

/// Units of 16 bits: of a text in UTF-16, or of code.
pub type Units = List<u16>;

/// Texts, each as its units of UTF-16.
pub type Texts = List<Units>;

/// The arguments of a program, each as its units of UTF-16.
pub type ArgTexts = List<Units>;

/// Rows of a table of a file, each as its place there, counted from 0.
pub type Rows = List<u32>;

/// The numbers of calls, counted from 0.
pub type CallList = List<u64>;

/// Whole numbers.
pub type Numbers = List<i64>;

/// How many answers of its script each class of a program has taken, by the class's number.
pub type Cursors = List<u32>;

/// Registers that an instruction names, by number.
pub type Registers = List<u16>;

/// Keys of a switch, or targets of one in units from its address.
pub type Offsets = List<i32>;

/// Numbers of objects.
pub type ObjIds = List<ObjId>;

/// Methods, in any order.
pub type MethodList = List<MethodIx>;

/// Methods in rising order, none twice.
pub type MethodSet = List<MethodIx>;

/// Classes, in any order.
pub type ClassList = List<ClassIx>;

/// Fields, in any order.
pub type FieldList = List<FieldIx>;
