//! Laws of what a clone makes of a Hello.

ghost use Rattle.cc_meaning_clone.specs.Hello.{TextOnce, HelloOnce, RefusedOnce, JudgedOnce};

/// Bytes begin with one text at most, a payload is a Hello in one way at most, and there is one verdict on it at most.
pub fn judged_once()
    ensures text { TextOnce }
    ensures hello { HelloOnce }
    ensures refused { RefusedOnce }
    ensures verdict { JudgedOnce }
{}
