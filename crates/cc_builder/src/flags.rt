//! Access flags, and the lists in which members stand by them.

ghost use Rattle.std.specs.Prelude.{◌≡◌, ◌<◌, ◌+◌, ◌^◌};
ghost use Rattle.cc_meaning_dex.specs.CodeItems.{has_flag};
ghost use Rattle.cc_meaning_builder.specs.Members.{is_direct_method};
ghost use Rattle.cc_builder.specs.Placed.{list_place};

/// The access flag of what is private.
const PRIVATE: u32 = 0x2;

/// The access flag of what is static.
pub const STATIC: u32 = 0x8;

/// The access flag of a constructor.
const CONSTRUCTOR: u32 = 0x10000;

/// `<`, with which the names of constructors and class initialisers begin.
const ANGLE: u16 = 60;

/// Whether this flag is among the flags.
pub fn has_flag(flags: u32, flag: u32) -> bool
    ensures { result ≡ has_flag flags flag }
{
    flags & flag != 0
}

/// Whether a method of these flags and this name is direct.
pub fn is_direct_method(flags: u32, name: &[u16]) -> bool
    ensures { result ≡ is_direct_method flags name.now }
{
    has_flag(flags, STATIC)
        || has_flag(flags, PRIVATE)
        || has_flag(flags, CONSTRUCTOR)
        || matches!(name, [ANGLE, ..])
}

/// The place of a member of a class in the order of a file: by its row, and behind all rows where it isn't in the first of the two lists.
pub fn list_place(is_first: bool, row: u32) -> u64
    ensures { result ≡ list_place is_first row }
{
    if is_first {
        u64::from(row)
    } else {
        u64::from(row) + (1 << 32)
    }
}
