//! Laws on the faults of a file's classes and on their hierarchy.

ghost use Rattle.cc_meaning_program.specs.ClassFaults.{OneClassFault, SoundClassesHaveNoFault};
ghost use Rattle.cc_meaning_program.specs.Climbing.{SoundClassesLeave};

/// A file's classes have one fault at most.
pub fn one_class_fault()
    ensures { OneClassFault }
{}

/// Classes without a fault have none.
pub fn sound_classes_have_no_fault()
    ensures { SoundClassesHaveNoFault }
{}

/// In sound classes, superclasses lead from each definition out of the file, in no more steps than there are definitions.
pub fn sound_classes_leave()
    ensures { SoundClassesLeave }
{}
