//! Laws of what a node says to a stream, whatever it goes by.

ghost use Rattle.cc_meaning_nodes.specs.Talk.{Manner, SaidGoesOn, StandingGoesOn, SaidIsFront};
ghost use Rattle.cc_meaning_nodes.specs.Talk.{NothingIsSaid, FirstIsAnswered, WaitsForRest, FaultCloses, ClosedIsSilent};

/// The replies to a stream that goes on are those to its beginning, and those from where the node stands then; so the first are a front of all.
pub fn goes_on<P, C>()
    ensures said { (manner : Manner P C) → SaidGoesOn manner }
    ensures standing { (manner : Manner P C) → StandingGoesOn manner }
    ensures front { (manner : Manner P C) → SaidIsFront manner }
{}

/// What each step of a node comes to.
pub fn steps<P, C>()
    ensures nothing { (manner : Manner P C) → NothingIsSaid manner }
    ensures first { (manner : Manner P C) → FirstIsAnswered manner }
    ensures rest { (manner : Manner P C) → WaitsForRest manner }
    ensures fault { (manner : Manner P C) → FaultCloses manner }
    ensures closed { (manner : Manner P C) → ClosedIsSilent manner }
{}
