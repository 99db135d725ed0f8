//! Why a call was refused.

use crate::lists::{ClassIx, MethodIx, Units};
use crate::report::StopCause;
use std::alloc::AllocError;
use std::fmt;
use thiserror::Error;

/// There is no memory. Nothing else is said: an answer that the allocator decides.
#[derive(Clone, Copy, Debug, Error)]
pub struct Memory;

impl fmt::Display for Memory {
    ghost use Rattle.std.specs.Prelude.{Some, codes};

    ghost output = { λ _. Some (codes "no memory") };

    fn fmt<W: fmt::Write>(&self, f: &mut fmt::Formatter<W>) -> fmt::Result {
        f.write_str("no memory")
    }
}

impl From<AllocError> for Memory {
    fn from(_: AllocError) -> Memory {
        Memory
    }
}

/// Why bytes are no number in LEB128: they end within it, or it takes more than five bytes or 32 bits.
/// Source: Dalvik Executable format, section LEB128.
#[derive(Clone, Copy, Debug, Error)]
pub enum LebFault {
    /// The bytes end within the number.
    CutOff,
    /// The number takes more than five bytes or 32 bits.
    TooBig,
}

impl fmt::Display for LebFault {
    ghost use Rattle.std.specs.Prelude.{Some, codes};

    ghost output = { λ _. Some (codes "no number in LEB128") };

    fn fmt<W: fmt::Write>(&self, f: &mut fmt::Formatter<W>) -> fmt::Result {
        f.write_str("no number in LEB128")
    }
}

/// Why bytes are no text in MUTF-8: they end before its zero byte, a byte begins no form, or the text has another number of units than stated. `at` is an
/// offset in bytes.
/// Source: Dalvik Executable format, section MUTF-8 (Modified UTF-8) Encoding.
#[derive(Clone, Copy, Debug, Error)]
pub enum TextFault {
    /// The bytes end before the text's zero byte.
    CutOff,
    /// No form begins at byte `at`.
    BadForm { at: usize },
    /// The text has another number of units than stated.
    BadCount,
    /// There is no memory.
    Memory,
}

impl fmt::Display for TextFault {
    ghost use Rattle.std.specs.Prelude.{Some, codes};

    ghost output = { λ _. Some (codes "no text in MUTF-8") };

    fn fmt<W: fmt::Write>(&self, f: &mut fmt::Formatter<W>) -> fmt::Result {
        f.write_str("no text in MUTF-8")
    }
}

impl From<AllocError> for TextFault {
    ghost use Rattle.std.specs.Prelude.{◌≡◌};
    ghost use Rattle.cc_meaning.specs.declared.fault.TextFault.TheVariants.{Memory};

    ghost from_gives = { λ _ fault. fault ≡ Memory };

    fn from(_: AllocError) -> TextFault {
        TextFault::Memory
    }
}

/// Why a file is no DEX file of version 035. `class` is a row of the class definitions, `method` of the methods, `string` of the strings, `table` the table in
/// which `row` stands, and `at` an offset in bytes that the file states.
#[derive(Clone, Copy, Debug, Error)]
pub enum DexFault {
    /// The file doesn't begin as one of version 035.
    NotDex035,
    /// The size that the header states isn't the file's.
    BadSize,
    /// The Adler-32 sum of the file is `found`, and the header states `stated`.
    BadChecksum { stated: u32, found: u32 },
    /// The SHA-1 signature isn't that of the file.
    BadSignature,
    /// A table or an item at the stated offset `at` leaves the file.
    OutOfFile { at: u32 },
    /// Row `row` of table `table` names a row that isn't there.
    BadIndex { table: u32, row: u32 },
    /// String `string` is no text in MUTF-8.
    BadText { string: u32 },
    /// The file is too large to be read.
    TooLarge,
    /// The members of class `class` are malformed.
    BadClassData { class: u32 },
    /// The code of method `method` is malformed.
    BadCode { method: u32 },
    /// A try of method `method` is malformed.
    BadTry { method: u32 },
    /// The values of class `class` are malformed.
    BadValue { class: u32 },
    /// There is no memory.
    Memory,
}

impl fmt::Display for DexFault {
    ghost use Rattle.std.specs.Prelude.{Some, codes};

    ghost output = { λ _. Some (codes "no DEX file") };

    fn fmt<W: fmt::Write>(&self, f: &mut fmt::Formatter<W>) -> fmt::Result {
        f.write_str("no DEX file")
    }
}

impl From<AllocError> for DexFault {
    ghost use Rattle.std.specs.Prelude.{◌≡◌};
    ghost use Rattle.cc_meaning.specs.declared.fault.DexFault.TheVariants.{Memory};

    ghost from_gives = { λ _ fault. fault ≡ Memory };

    fn from(_: AllocError) -> DexFault {
        DexFault::Memory
    }
}

/// Why units are no instruction: one of floating point, an unused opcode or form, an end within it, or a payload whose elements have a width that is none.
#[derive(Clone, Copy, Debug, Error)]
pub enum InsnFault {
    /// An instruction of floating point.
    Float,
    /// An unused opcode, or a form of too many arguments.
    Unused,
    /// The units end within the instruction or payload.
    CutOff,
    /// A payload of elements that are not 1, 2, 4 or 8 bytes wide.
    BadPayload,
    /// There is no memory.
    Memory,
}

impl fmt::Display for InsnFault {
    ghost use Rattle.std.specs.Prelude.{Some, codes};

    ghost output = { λ _. Some (codes "no instruction") };

    fn fmt<W: fmt::Write>(&self, f: &mut fmt::Formatter<W>) -> fmt::Result {
        f.write_str("no instruction")
    }
}

impl From<AllocError> for InsnFault {
    ghost use Rattle.std.specs.Prelude.{◌≡◌};
    ghost use Rattle.cc_meaning.specs.declared.fault.InsnFault.TheVariants.{Memory};

    ghost from_gives = { λ _ fault. fault ≡ Memory };

    fn from(_: AllocError) -> InsnFault {
        InsnFault::Memory
    }
}

/// Why a file's classes are no program. The names are those printed: of a class, a member or a method; `pc` is an address in units of 16 bits.
#[derive(Drop, Debug, Error)]
pub enum ProgramFault {
    /// The class is above itself.
    HierarchyCycle {
        class: Units,
    },
    /// The class has no superclass, or one that can't be one.
    NoSuperclass {
        class: Units,
    },
    /// No class has the main method that is asked for.
    NoMain,
    /// The class, or a member of it, is defined twice, or is built in.
    Duplicate {
        class: Units,
    },
    /// A member or a type of floating point, by its name.
    FloatMember {
        name: Units,
    },
    /// The units at `pc` of the method are no instruction.
    Insn {
        method: Units,
        pc: u32,
        fault: InsnFault,
    },
    /// The instruction at `pc` of the method names a row that isn't there.
    BadIndex {
        method: Units,
        pc: u32,
    },
    /// There is no memory.
    Memory,
}

impl fmt::Display for ProgramFault {
    ghost use Rattle.std.specs.Prelude.{Some, codes};

    ghost output = { λ _. Some (codes "no program") };

    fn fmt<W: fmt::Write>(&self, f: &mut fmt::Formatter<W>) -> fmt::Result {
        f.write_str("no program")
    }
}

impl From<AllocError> for ProgramFault {
    ghost use Rattle.std.specs.Prelude.{◌≡◌};
    ghost use Rattle.cc_meaning.specs.declared.fault.ProgramFault.TheVariants.{Memory};

    ghost from_gives = { λ _ fault. fault ≡ Memory };

    fn from(_: AllocError) -> ProgramFault {
        ProgramFault::Memory
    }
}

impl From<Memory> for ProgramFault {
    ghost use Rattle.std.specs.Prelude.{◌≡◌};
    ghost use Rattle.cc_meaning.specs.declared.fault.ProgramFault.TheVariants as faults;

    ghost from_gives = { λ _ fault. fault ≡ faults.Memory };

    fn from(_: Memory) -> ProgramFault {
        ProgramFault::Memory
    }
}

/// Why a program isn't well typed, by method and by address in units of 16 bits.
#[derive(Clone, Copy, Debug, Error)]
pub enum VerifyFault {
    /// The instruction at `pc` doesn't fit what its registers hold.
    IllTyped { method: MethodIx, pc: u32 },
    /// The branch or the handler at `pc` leads to no instruction, or to no payload of its kind.
    BadTarget { method: MethodIx, pc: u32 },
    /// The method can run past its end or into a payload.
    FallsOff { method: MethodIx },
    /// The method's units times its registers are too many.
    TooWide { method: MethodIx },
    /// The instruction at `pc` names a member that isn't known, or that can't be used so.
    UnknownMember { method: MethodIx, pc: u32 },
    /// There is no memory.
    Memory,
}

impl fmt::Display for VerifyFault {
    ghost use Rattle.std.specs.Prelude.{Some, codes};

    ghost output = { λ _. Some (codes "not well typed") };

    fn fmt<W: fmt::Write>(&self, f: &mut fmt::Formatter<W>) -> fmt::Result {
        f.write_str("not well typed")
    }
}

impl From<AllocError> for VerifyFault {
    ghost use Rattle.std.specs.Prelude.{◌≡◌};
    ghost use Rattle.cc_meaning.specs.declared.fault.VerifyFault.TheVariants.{Memory};

    ghost from_gives = { λ _ fault. fault ≡ Memory };

    fn from(_: AllocError) -> VerifyFault {
        VerifyFault::Memory
    }
}

impl From<Memory> for VerifyFault {
    ghost use Rattle.std.specs.Prelude.{◌≡◌};
    ghost use Rattle.cc_meaning.specs.declared.fault.VerifyFault.TheVariants as faults;

    ghost from_gives = { λ _ fault. fault ≡ faults.Memory };

    fn from(_: Memory) -> VerifyFault {
        VerifyFault::Memory
    }
}

/// Why a text is no script of a program. `at`, `class` and `place` count from 0.
#[derive(Clone, Copy, Debug, Error)]
pub enum ScriptFault {
    /// The text is no JSON.
    NotJson,
    /// Class `at` is out of shape, and 0 stands for the whole text too.
    BadShape { at: u32 },
    /// Class `class` has no such outside or native method as its `place`-th.
    UnknownMethod { class: u32, place: u32 },
    /// The answer at `place` of class `class` doesn't fit its method.
    BadAnswer { class: u32, place: u32 },
    /// There is no memory.
    Memory,
}

impl fmt::Display for ScriptFault {
    ghost use Rattle.std.specs.Prelude.{Some, codes};

    ghost output = { λ _. Some (codes "no script") };

    fn fmt<W: fmt::Write>(&self, f: &mut fmt::Formatter<W>) -> fmt::Result {
        f.write_str("no script")
    }
}

impl From<AllocError> for ScriptFault {
    ghost use Rattle.std.specs.Prelude.{◌≡◌};
    ghost use Rattle.cc_meaning.specs.declared.fault.ScriptFault.TheVariants.{Memory};

    ghost from_gives = { λ _ fault. fault ≡ Memory };

    fn from(_: AllocError) -> ScriptFault {
        ScriptFault::Memory
    }
}

impl From<Memory> for ScriptFault {
    ghost use Rattle.std.specs.Prelude.{◌≡◌};
    ghost use Rattle.cc_meaning.specs.declared.fault.ScriptFault.TheVariants as faults;

    ghost from_gives = { λ _ fault. fault ≡ faults.Memory };

    fn from(_: Memory) -> ScriptFault {
        ScriptFault::Memory
    }
}

/// Why there are no call relations: too many methods are reached.
#[derive(Clone, Copy, Debug, Error)]
pub enum CallFault {
    /// So many methods are reached.
    TooManyMethods { count: u32 },
    /// There is no memory.
    Memory,
}

impl fmt::Display for CallFault {
    ghost use Rattle.std.specs.Prelude.{Some, codes};

    ghost output = { λ _. Some (codes "no call relations") };

    fn fmt<W: fmt::Write>(&self, f: &mut fmt::Formatter<W>) -> fmt::Result {
        f.write_str("no call relations")
    }
}

impl From<AllocError> for CallFault {
    ghost use Rattle.std.specs.Prelude.{◌≡◌};
    ghost use Rattle.cc_meaning.specs.declared.fault.CallFault.TheVariants.{Memory};

    ghost from_gives = { λ _ fault. fault ≡ Memory };

    fn from(_: AllocError) -> CallFault {
        CallFault::Memory
    }
}

/// Why there is no profile. `at` is the place of an execution, and `node` that of an invocation through all executions, both counted from 0.
#[derive(Clone, Copy, Debug, Error)]
pub enum ProfileFault {
    /// There are too many invocations.
    TooManyNodes,
    /// The run stopped.
    Stopped(StopCause),
    /// The text is no JSON.
    NotJson,
    /// Execution `at` is out of shape, and 0 stands for the whole text too.
    BadShape { at: u32 },
    /// The total of invocation `node` is below that of its children.
    BadTotal { node: u32 },
    /// There are too many executions, or too many invocations in them.
    TooManyExecutions,
    /// The text states no weights.
    BadWeights,
    /// There is no memory.
    Memory,
}

impl fmt::Display for ProfileFault {
    ghost use Rattle.std.specs.Prelude.{Some, codes};

    ghost output = { λ _. Some (codes "no profile") };

    fn fmt<W: fmt::Write>(&self, f: &mut fmt::Formatter<W>) -> fmt::Result {
        f.write_str("no profile")
    }
}

impl From<AllocError> for ProfileFault {
    ghost use Rattle.std.specs.Prelude.{◌≡◌};
    ghost use Rattle.cc_meaning.specs.declared.fault.ProfileFault.TheVariants.{Memory};

    ghost from_gives = { λ _ fault. fault ≡ Memory };

    fn from(_: AllocError) -> ProfileFault {
        ProfileFault::Memory
    }
}

impl From<Memory> for ProfileFault {
    ghost use Rattle.std.specs.Prelude.{◌≡◌};
    ghost use Rattle.cc_meaning.specs.declared.fault.ProfileFault.TheVariants as faults;

    ghost from_gives = { λ _ fault. fault ≡ faults.Memory };

    fn from(_: Memory) -> ProfileFault {
        ProfileFault::Memory
    }
}

/// Why a text is no partition of a program. `place` counts from 0.
#[derive(Clone, Copy, Debug, Error)]
pub enum PartitionFault {
    /// The text is no JSON.
    NotJson,
    /// The text isn't a list of names, or one stands twice.
    BadShape,
    /// The program has no method of the name at `place`.
    UnknownMethod { place: u32 },
    /// The method of the name at `place` can't be moved.
    NotMovable { place: u32 },
    /// There is no memory.
    Memory,
}

impl fmt::Display for PartitionFault {
    ghost use Rattle.std.specs.Prelude.{Some, codes};

    ghost output = { λ _. Some (codes "no partition") };

    fn fmt<W: fmt::Write>(&self, f: &mut fmt::Formatter<W>) -> fmt::Result {
        f.write_str("no partition")
    }
}

impl From<AllocError> for PartitionFault {
    ghost use Rattle.std.specs.Prelude.{◌≡◌};
    ghost use Rattle.cc_meaning.specs.declared.fault.PartitionFault.TheVariants.{Memory};

    ghost from_gives = { λ _ fault. fault ≡ Memory };

    fn from(_: AllocError) -> PartitionFault {
        PartitionFault::Memory
    }
}

impl From<Memory> for PartitionFault {
    ghost use Rattle.std.specs.Prelude.{◌≡◌};
    ghost use Rattle.cc_meaning.specs.declared.fault.PartitionFault.TheVariants as faults;

    ghost from_gives = { λ _ fault. fault ≡ faults.Memory };

    fn from(_: Memory) -> PartitionFault {
        PartitionFault::Memory
    }
}

/// A rule of legal partitions that is broken, and two methods of which it is false.
#[derive(Clone, Copy, Debug)]
pub struct Broken {
    pub rule: u8,
    pub m1: MethodIx,
    pub m2: MethodIx,
}

/// Why a certificate proves nothing. Leaves count from 0.
#[derive(Clone, Copy, Debug, Error)]
pub enum CertFault {
    /// It is no whole tree over the candidates.
    Shape,
    /// Leaf `leaf` is said to break a rule, and breaks none.
    NotIllegal { leaf: u32 },
    /// The bound of leaf `leaf` is `bound`, below the cost `claimed`.
    BoundTooLow { leaf: u32, bound: u64, claimed: u64 },
    /// The partition costs `found`, and `stated` is stated.
    CostOther { stated: u64, found: u64 },
    /// The partition breaks a rule.
    Illegal(Broken),
    /// There is no memory.
    Memory,
}

impl fmt::Display for CertFault {
    ghost use Rattle.std.specs.Prelude.{Some, codes};

    ghost output = { λ _. Some (codes "no proof") };

    fn fmt<W: fmt::Write>(&self, f: &mut fmt::Formatter<W>) -> fmt::Result {
        f.write_str("no proof")
    }
}

impl From<AllocError> for CertFault {
    ghost use Rattle.std.specs.Prelude.{◌≡◌};
    ghost use Rattle.cc_meaning.specs.declared.fault.CertFault.TheVariants.{Memory};

    ghost from_gives = { λ _ fault. fault ≡ Memory };

    fn from(_: AllocError) -> CertFault {
        CertFault::Memory
    }
}

/// Why bytes are no image. `at` is an offset in them, `object` an object's number, `event` an event's place.
#[derive(Clone, Copy, Debug, Error)]
pub enum ImageFault {
    /// The bytes end within the image.
    CutOff,
    /// Bytes follow the image.
    Trailing,
    /// The number at `at` isn't allowed there.
    BadKind { at: u32 },
    /// The reference at `at` isn't allowed there.
    BadRef { at: u32 },
    /// Object `object` doesn't fit a place that names it.
    Unfit { object: u32 },
    /// A counter is out of range, or says less than was spent.
    BadCounter,
    /// The script has no answer for event `event`.
    Unanswered { event: u32 },
    /// There is no memory.
    Memory,
}

impl fmt::Display for ImageFault {
    ghost use Rattle.std.specs.Prelude.{Some, codes};

    ghost output = { λ _. Some (codes "no image") };

    fn fmt<W: fmt::Write>(&self, f: &mut fmt::Formatter<W>) -> fmt::Result {
        f.write_str("no image")
    }
}

impl From<AllocError> for ImageFault {
    ghost use Rattle.std.specs.Prelude.{◌≡◌};
    ghost use Rattle.cc_meaning.specs.declared.fault.ImageFault.TheVariants.{Memory};

    ghost from_gives = { λ _ fault. fault ≡ Memory };

    fn from(_: AllocError) -> ImageFault {
        ImageFault::Memory
    }
}

impl From<Memory> for ImageFault {
    ghost use Rattle.std.specs.Prelude.{◌≡◌};
    ghost use Rattle.cc_meaning.specs.declared.fault.ImageFault.TheVariants as faults;

    ghost from_gives = { λ _ fault. fault ≡ faults.Memory };

    fn from(_: Memory) -> ImageFault {
        ImageFault::Memory
    }
}

/// Why bytes are no frame: a kind that is none, a payload that is too long, or a digest that isn't theirs.
#[derive(Clone, Copy, Debug, Error)]
pub enum FrameFault {
    /// The first byte is no kind of frame.
    BadKind,
    /// The payload is stated as longer than is allowed.
    TooLong,
    /// The SHA-1 digest of the frame is `found`, and `stated` is stated.
    BadDigest { stated: [u8; 20], found: [u8; 20] },
    /// There is no memory.
    Memory,
}

impl fmt::Display for FrameFault {
    ghost use Rattle.std.specs.Prelude.{Some, codes};

    ghost output = { λ _. Some (codes "no frame") };

    fn fmt<W: fmt::Write>(&self, f: &mut fmt::Formatter<W>) -> fmt::Result {
        f.write_str("no frame")
    }
}

impl From<AllocError> for FrameFault {
    ghost use Rattle.std.specs.Prelude.{◌≡◌};
    ghost use Rattle.cc_meaning.specs.declared.fault.FrameFault.TheVariants.{Memory};

    ghost from_gives = { λ _ fault. fault ≡ Memory };

    fn from(_: AllocError) -> FrameFault {
        FrameFault::Memory
    }
}
