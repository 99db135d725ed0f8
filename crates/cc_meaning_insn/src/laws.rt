ghost use Rattle.cc_meaning_insn.specs.Laws.{InsnAgrees, InsnFaults, OpcodeTable, WrapAgrees, DivisionAgrees, FloorAgrees};

/// An instruction is decoded exactly where units spell it.
pub fn insn_agrees()
    ensures { InsnAgrees }
{}

/// Each fault comes exactly where its units stand.
pub fn insn_faults()
    ensures { InsnFaults }
{}

/// The table of opcodes has a row for each byte, and the rows that are no instruction are these.
pub fn opcode_table()
    ensures { OpcodeTable }
{}

/// What is left of a number in a width fits it, and differs from the number by a multiple of the width's power of two.
pub fn wrap_agrees()
    ensures { WrapAgrees }
{}

/// A quotient is rounded towards zero.
pub fn division_agrees()
    ensures { DivisionAgrees }
{}

/// A quotient by a positive number is rounded down, where it is the one with a remainder of at least zero.
pub fn floor_agrees()
    ensures { FloorAgrees }
{}
