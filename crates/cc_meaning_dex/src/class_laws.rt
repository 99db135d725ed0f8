ghost use Rattle.cc_meaning_dex.specs.Causes.{FaultsCaused};
ghost use Rattle.cc_meaning_dex.specs.ClassLaws.{MembersAgree, HandlersRise, ClassesAgree, OneClasses};

use crate::{sleb_agrees, uleb_agrees};

/// The members of a class are read exactly where they are spelled.
pub fn members_agree()
    ensures { MembersAgree }
{
    uleb_agrees();
}

/// The handlers of a handler list begin one behind the other.
pub fn handlers_rise()
    ensures { HandlersRise }
{
    uleb_agrees();
    sleb_agrees();
}

/// The classes of a file are read exactly where they are spelled.
pub fn classes_agree()
    ensures { ClassesAgree }
{
    uleb_agrees();
    sleb_agrees();
}

/// A file spells its classes in one way at most.
pub fn one_classes()
    ensures { OneClasses }
{
    classes_agree();
}

/// Each fault of a file's classes has its cause: the first class that isn't spelled, and in it the first part that isn't.
pub fn faults_caused()
    ensures { FaultsCaused }
{
    uleb_agrees();
    sleb_agrees();
}
