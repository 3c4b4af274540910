//! The laws of feeds. Each is a function that does nothing, whose contract says the law.
ghost use Rattle.febe_feed.specs.Inputs.{WrongIsMalformed, WaitingIsOpen, WaitingIsTruncated, GivenIsInput, InputsAreRight, OneFault};
ghost use Rattle.febe_feed.specs.Pieces.{StartsWithNothing, PushGoesOn, GivesOn, StopsWhenAllGiven, AnyPieces, BadPlaceStays};

/// A new feed has given nothing, of a stream of which nothing has come.
pub fn starts_with_nothing()
    ensures { StartsWithNothing }
{}

/// A piece makes the stream longer, and what was given stays.
pub fn push_goes_on()
    ensures { PushGoesOn }
{}

/// What comes next goes on with what was given.
pub fn gives_on()
    ensures { GivesOn }
{}

/// A feed that waits, or finds a wrong byte, has given all that it can.
pub fn stops_when_all_given()
    ensures { StopsWhenAllGiven }
{}

/// What a feed gives, and what it then holds, are told by the bytes that came, however these were cut, and whether or
/// not the greeting is among them.
pub fn any_pieces()
    ensures { AnyPieces }
{}

/// The place of a wrong byte is told again, whatever pieces come behind it.
pub fn bad_place_stays()
    ensures { BadPlaceStays }
{}

/// Where a feed that gave no quit finds a wrong byte, the stream is malformed at its place.
pub fn wrong_is_malformed()
    ensures { WrongIsMalformed }
{}

/// Where a feed that gave no quit waits, the stream is a prefix of some session's input.
pub fn waiting_is_open()
    ensures { WaitingIsOpen }
{}

/// Where a feed that gave no quit waits and holds some bytes, a stream that ends is truncated.
pub fn waiting_is_truncated()
    ensures { WaitingIsTruncated }
{}

/// Where a feed holds no bytes, the requests that it gave are those of the stream.
pub fn given_is_input()
    ensures { GivenIsInput }
{}

/// A prefix of some session's input is malformed nowhere, and no byte behind a quit is judged.
pub fn inputs_are_right()
    ensures { InputsAreRight }
{}

/// Bytes are malformed at one place at most.
pub fn one_fault()
    ensures { OneFault }
{}
