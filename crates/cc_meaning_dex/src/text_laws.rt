ghost use Rattle.cc_meaning_dex.specs.TextLaws.{UlebAgrees, SlebAgrees, Mutf8Agrees, Mutf8Answers, FrontFaults, TextFaults, TextSteps, TextAgrees, OneUleb, OneText};

/// A number in ULEB128 is read exactly where it is spelled.
pub fn uleb_agrees()
    ensures { UlebAgrees }
{}

/// A number in SLEB128 is read exactly where it is spelled.
pub fn sleb_agrees()
    ensures { SlebAgrees }
{}

/// A text in MUTF-8 is read exactly where it is spelled.
pub fn mutf8_agrees()
    ensures { Mutf8Agrees }
{}

/// A text that is read has as many units as asked for, and no reading fails for want of memory.
pub fn mutf8_answers()
    ensures { Mutf8Answers }
{}

/// A text item is read exactly where it is spelled.
pub fn text_agrees()
    ensures { TextAgrees }
{}

/// What stands in front of a text is at fault exactly where it is a form that is cut, or no form.
pub fn front_faults()
    ensures { FrontFaults }
{}

/// Each fault of a text comes exactly where its forms say so.
pub fn text_faults()
    ensures { TextFaults }
{}

/// A text in MUTF-8 is read form by form.
pub fn text_steps()
    ensures { TextSteps }
{}

/// At one place stands at most one number in ULEB128.
pub fn one_uleb()
    ensures { OneUleb }
{}

/// At one place stands at most one text item.
pub fn one_text()
    ensures { OneText }
{}
