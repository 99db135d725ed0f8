//! The spellings of scripted calls, and of how a call ended.

ghost use Rattle.cc_meaning_images.specs.Spelling.{spelled_argument, spelled_call, spelled_result, spelled_stop, spelled_end};

use super::{Spell, put_all, put_counted};
use cc_meaning::report::{Arg, CallEnd, SentCall, StopCause};
use cc_meaning::value::Value;
use std::alloc::AllocError;

impl Spell for Arg {
    ghost spelling = { spelled_argument };

    fn put(&self, bytes: &mut Vec<u8>) -> Result<(), AllocError> {
        match self {
            Arg::Int(number) => number.cast_unsigned().put(bytes),
            Arg::Long(number) => number.cast_unsigned().put(bytes),
            Arg::Null => {
                bytes.push(0)?;
                Ok(())
            }
            Arg::Instance(class) => {
                bytes.push(1)?;
                class.put(bytes)
            }
            Arg::Text(units) => {
                bytes.push(2)?;
                put_counted(units, bytes)
            }
        }
    }
}

impl Spell for SentCall {
    ghost spelling = { spelled_call };

    fn put(&self, bytes: &mut Vec<u8>) -> Result<(), AllocError> {
        self.method.put(bytes)?;
        put_all(&self.args, bytes)
    }
}

impl Spell for Option<Value> {
    ghost spelling = { spelled_result };

    fn put(&self, bytes: &mut Vec<u8>) -> Result<(), AllocError> {
        match self {
            None => Ok(()),
            Some(value) => value.put(bytes),
        }
    }
}

impl Spell for StopCause {
    ghost spelling = { spelled_stop };

    fn put(&self, bytes: &mut Vec<u8>) -> Result<(), AllocError> {
        match self {
            StopCause::Budget => {
                bytes.push(2)?;
                Ok(())
            }
            StopCause::Heap => {
                bytes.push(3)?;
                Ok(())
            }
            StopCause::ScriptEnd { class } => {
                bytes.push(4)?;
                class.put(bytes)
            }
            StopCause::ScriptOther {
                class,
                wanted,
                found,
            } => {
                bytes.push(5)?;
                class.put(bytes)?;
                wanted.put(bytes)?;
                found.put(bytes)
            }
        }
    }
}

impl Spell for CallEnd {
    ghost spelling = { spelled_end };

    fn put(&self, bytes: &mut Vec<u8>) -> Result<(), AllocError> {
        match self {
            CallEnd::Returned(value) => {
                bytes.push(0)?;
                value.put(bytes)
            }
            CallEnd::Thrown(number) => {
                bytes.push(1)?;
                number.put(bytes)
            }
            CallEnd::Stopped(stop) => stop.put(bytes),
        }
    }
}
