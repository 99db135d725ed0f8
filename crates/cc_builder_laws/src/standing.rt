ghost use Rattle.cc_meaning_builder.specs.Laws.{StandsApart};
ghost use Rattle.cc_builder_laws.specs.Standing.{StandsTogether, StandsLonger, StandsFurther, StandsBehind, StandsWithin, UnitsStand};

/// Where a part stands, its front and its back stand.
pub fn stands_apart()
    ensures { StandsApart }
{}

/// Two parts that stand one behind the other stand as one.
pub fn stands_together()
    ensures { StandsTogether }
{}

/// What stands in a list stands in the list with more behind it.
pub fn stands_longer()
    ensures { StandsLonger }
{}

/// What stands in a list stands, as much further on, in the list with more in front.
pub fn stands_further()
    ensures { StandsFurther }
{}

/// What is put behind a list stands at the list's end.
pub fn stands_behind()
    ensures { StandsBehind }
{}

/// What stands in a list lies in it.
pub fn stands_within()
    ensures { StandsWithin }
{}

/// Where numbers of 16 bits stand, each stands at its own place.
pub fn units_stand()
    ensures { UnitsStand }
{}
