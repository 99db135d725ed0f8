//! The spellings of values and objects.

ghost use Rattle.cc_meaning_images.specs.Spelling.{spelled_reference, spelled_value, spelled_made, spelled_object, spelled_contents};

use super::{Spell, put_all, put_counted};
use cc_meaning::image::Contents;
use cc_meaning::lists::ObjId;
use cc_meaning::value::{Made, Object, Value};
use std::alloc::AllocError;

impl Spell for Option<ObjId> {
    ghost spelling = { spelled_reference };

    fn put(&self, bytes: &mut Vec<u8>) -> Result<(), AllocError> {
        match self {
            None => 0u32.put(bytes),
            Some(number) => number.put(bytes),
        }
    }
}

impl Spell for Value {
    ghost spelling = { spelled_value };

    fn put(&self, bytes: &mut Vec<u8>) -> Result<(), AllocError> {
        match self {
            Value::Int(number) => number.cast_unsigned().put(bytes),
            Value::Long(number) => number.cast_unsigned().put(bytes),
            Value::Obj(reference) => reference.put(bytes),
        }
    }
}

impl Spell for Made {
    ghost spelling = { spelled_made };

    fn put(&self, bytes: &mut Vec<u8>) -> Result<(), AllocError> {
        self.what.put(bytes)?;
        self.number.put(bytes)
    }
}

impl Spell for Object {
    ghost spelling = { spelled_object };

    fn put(&self, bytes: &mut Vec<u8>) -> Result<(), AllocError> {
        match self {
            Object::Out => {
                bytes.push(0)?;
                Ok(())
            }
            Object::Instance { class, values } => {
                bytes.push(1)?;
                class.put(bytes)?;
                put_all(values, bytes)
            }
            Object::Array { class, values } => {
                bytes.push(2)?;
                class.put(bytes)?;
                put_counted(values, bytes)
            }
            Object::Text(units) => {
                bytes.push(3)?;
                put_counted(units, bytes)
            }
            Object::Builder(units) => {
                bytes.push(4)?;
                put_counted(units, bytes)
            }
            Object::Constant(class) => {
                bytes.push(5)?;
                class.put(bytes)
            }
        }
    }
}

impl Spell for Contents {
    ghost spelling = { spelled_contents };

    fn put(&self, bytes: &mut Vec<u8>) -> Result<(), AllocError> {
        match self {
            Contents::Nothing => Ok(()),
            Contents::Values(values) => put_all(values, bytes),
            Contents::Units(units) => put_counted(units, bytes),
        }
    }
}
