ghost use Rattle.cc_meaning_builder.specs.Laws.{WrittenText, WrittenTypes, WrittenTables};

use cc_meaning_dex::well_formed_files;

/// A text is spelled where its item is written.
pub fn written_text()
    ensures { WrittenText }
{}

/// A list of types is spelled where it is written.
pub fn written_types()
    ensures { WrittenTypes }
{}

/// Tables whose rows fit, and which a sound header states, have no fault.
pub fn written_tables()
    ensures { WrittenTables }
{
    well_formed_files();
}
