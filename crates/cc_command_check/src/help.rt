//! What is shown of a command where it is asked for.

ghost use Rattle.std.specs.Prelude.{◌≡◌};
ghost use Rattle.cc_command_check.specs.Texts.{check_help, version};

/// The help on `check`.
pub fn check_help() -> &'static [u8]
    ensures { result.now ≡ check_help }
{
    b"Reads a DEX file and verifies it.\n\nUsage: clonecloud check [--main CLASS] FILE\n"
}

/// The program's name and version.
pub fn version() -> &'static [u8]
    ensures { result.now ≡ version }
{
    b"clonecloud 0.1.0\n"
}
