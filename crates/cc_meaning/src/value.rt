//! Values, objects and frames.

use crate::lists::{ClassIx, MethodIx, ObjId, ObjIds, Units};
use cc_list::List;

/// A value: a number of 32 or 64 bits, or a reference, null where there is no object. A boolean, a byte, a short and a char are an `Int`.
#[derive(Clone, Copy)]
pub enum Value {
    Int(i32),
    Long(i64),
    Obj(Option<ObjId>),
}

/// Values, as those of an object's fields in the order of its class's layout, or of an array's elements.
pub type Values = List<Value>;

/// An object of a heap. `Out` is the object of `System.out`, a `Builder` a string builder with the units that it has, and a `Constant` the object of a class
/// constant. The class of an array is that of the array itself. The first value of a throwable is its message, a text or null.
#[derive(Drop)]
pub enum Object {
    Out,
    Instance { class: ClassIx, values: Values },
    Array { class: ClassIx, values: Values },
    Text(Units),
    Builder(Units),
    Constant(ClassIx),
}

/// Objects, each at its number.
pub type Objects = List<Object>;

/// What a register holds: nothing yet, a value, or the second half of a long. A long stands in its first register as a value, and in the next one as `High`.
#[derive(Clone, Copy)]
pub enum Cell {
    Unset,
    Value(Value),
    High,
}

/// The registers of a frame.
pub type Cells = List<Cell>;

/// A frame: a method with code, the address of its next instruction in units of 16 bits, and its registers.
#[derive(Drop)]
pub struct Activation {
    pub method: MethodIx,
    pub pc: u32,
    pub cells: Cells,
}

/// The number of a text or of a class, and the object that was made for its literal or constant.
#[derive(Clone, Copy)]
pub struct Made {
    pub what: u32,
    pub number: u32,
}

/// What was made, by rising `what`.
pub type MadeList = List<Made>;

/// Objects in the order in which they were captured: the object of number i stands at i - 1.
#[derive(Drop)]
pub struct Table {
    pub objects: ObjIds,
}
