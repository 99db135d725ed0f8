ghost use Rattle.cc_meaning_builder.specs.Laws.{WrittenSleb, WrittenU16, WrittenU32, WrittenUleb};
ghost use Rattle.cc_builder_laws.specs.Standing.{LittleLength, SlebLength, UlebLength, UnitsLength};

/// A number of 16 bits is read where it is written.
pub fn written_u16()
    ensures { WrittenU16 }
{}

/// A number of 32 bits is read where it is written.
pub fn written_u32()
    ensures { WrittenU32 }
{}

/// A number in ULEB128 is spelled where it is written.
pub fn written_uleb()
    ensures { WrittenUleb }
{}

/// A signed number in SLEB128 is spelled where it is written.
pub fn written_sleb()
    ensures { WrittenSleb }
{}

/// A number of so many bytes takes that many.
pub fn little_length()
    ensures { LittleLength }
{}

/// Numbers of 16 bits take two bytes each.
pub fn units_length()
    ensures { UnitsLength }
{}

/// A number in ULEB128 takes one to five bytes.
pub fn uleb_length()
    ensures { UlebLength }
{}

/// A number in SLEB128 takes one to five bytes.
pub fn sleb_length()
    ensures { SlebLength }
{}
