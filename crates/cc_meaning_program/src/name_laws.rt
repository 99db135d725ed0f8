//! Laws of the names of a program's classes, texts and types.

ghost use Rattle.cc_meaning_program.specs.ClassNames.{OneClassNames, OneTexts};
ghost use Rattle.cc_meaning_program.specs.TypeNames.{SpellsByParts, SpelledOnce, ListedTypesSpelled};

/// The names of a file's classes are given by the file alone.
pub fn one_class_names()
    ensures { OneClassNames }
{}

/// The texts of a program are given by the file alone.
pub fn one_texts()
    ensures { OneTexts }
{}

/// A type spells a descriptor exactly where it has the descriptor's dimensions, and a base that spells what stands behind them.
pub fn spells_by_parts()
    ensures { SpellsByParts }
{}

/// Where names rise, a descriptor is spelled by one type at most.
pub fn spelled_once()
    ensures { SpelledOnce }
{}

/// A type that a file lists is spelled among the names of its classes, where it is neither V nor of floating point.
pub fn listed_types_spelled()
    ensures { ListedTypesSpelled }
{}
