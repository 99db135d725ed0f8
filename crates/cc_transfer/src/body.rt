//! A method with code, in its program.

ghost use Rattle.cc_meaning_typing.specs.WellFormed.{IsLaidOut, IsWellFormed};
ghost use Rattle.cc_transfer.specs.Landmarks.{AreLandmarks};

use crate::landmarks::Landmarks;
use cc_meaning::program::{Code, Method, Program};

/// A method with code, in its program, and what rules look for there.
#[derive(Clone, Copy)]
pub struct MethodBody<'a> {
    pub program: &'a Program,
    pub method: &'a Method,
    pub code: &'a Code,
    pub landmarks: &'a Landmarks,
    pub ghost well_formed: { IsWellFormed program.now },
    pub ghost laid_out: { IsLaidOut code.now },
    pub ghost found: { AreLandmarks program.now landmarks.now },
}
