//! Laws of the frames of a stream.

ghost use Rattle.cc_meaning_nodes.specs.FrameLaws.{GoesOn, NothingMore, BeginsWithWhole, FrontStays, IsKnownEarly, EndsPartly, IsReadAgain, IsReadAlone, IsSpelled, IsOnlySpelling};

/// The frames of a stream that goes on are those of its beginning, and those from where that ends.
pub fn goes_on()
    ensures { GoesOn }
{}

/// Where nothing more comes, there are no more frames; an empty stream has none.
pub fn nothing_more()
    ensures { NothingMore }
{}

/// A frame that stands whole at the front is the first, whatever follows.
pub fn begins_with_whole()
    ensures { BeginsWithWhole }
{}

/// A whole frame or a fault at the front stays, whatever follows.
pub fn front_stays()
    ensures { FrontStays }
{}

/// A wrong kind is known at the first byte, and a payload that is too long at the fifth, whatever follows.
pub fn is_known_early()
    ensures { IsKnownEarly }
{}

/// A stream ends with less than a frame, or at a fault of its bytes, which want of memory isn't.
pub fn ends_partly()
    ensures { EndsPartly }
{}

/// What is spelled as frames is read as those frames, whatever follows.
pub fn is_read_again()
    ensures { IsReadAgain }
{}

/// The bytes of one frame are read as that frame alone.
pub fn is_read_alone()
    ensures { IsReadAlone }
{}

/// The frames of bytes are spelled in them, one after another, up to the rest or the fault.
pub fn is_spelled()
    ensures { IsSpelled }
{}

/// No other frames are.
pub fn is_only_spelling()
    ensures { IsOnlySpelling }
{}
