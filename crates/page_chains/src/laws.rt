//! Laws of chains and of headers. Each is a function that does nothing, whose contract says the law.
ghost use Rattle.page_chains.specs.Laws.{ChainGoesOn, ChainIsLong, ChainIsWritten, ChainStays, FrontIsChain, HeaderExtends, HeaderIsWritten, HeaderStays, LastPageGrows, OneChain, OneHeader, SameHeader, WritesAreThere, WritesAreWhole};

/// Pages that were written as a chain are one.
pub fn chain_is_written()
    ensures { ChainIsWritten }
{}

/// The pages of a chain are there once they are laid over others.
pub fn writes_are_there()
    ensures { WritesAreThere }
{}

/// Each page of a chain is one that a commit may write.
pub fn writes_are_whole()
    ensures { WritesAreWhole }
{}

/// The first page and the length settle the pages of a chain and its stream.
pub fn one_chain()
    ensures { OneChain }
{}

/// A stream has the length that is said, on as many pages as it needs.
pub fn chain_is_long()
    ensures { ChainIsLong }
{}

/// A chain stands where its pages stay.
pub fn chain_stays()
    ensures { ChainStays }
{}

/// The front of a chain spells the front of its stream.
pub fn front_is_chain()
    ensures { FrontIsChain }
{}

/// A longer stream goes on in the last page of a chain.
pub fn chain_goes_on()
    ensures { ChainGoesOn }
{}

/// The stream as it was stands too where the last page was written for a longer one.
pub fn last_page_grows()
    ensures { LastPageGrows }
{}

/// A page that was written as a header is one, of the chains that begin where it says.
pub fn header_is_written()
    ensures { HeaderIsWritten }
{}

/// A header settles its chains and its position.
pub fn one_header()
    ensures { OneHeader }
{}

/// A header stands where its pages stay, and where more pages come; and the same pages have the same header, or none.
pub fn header_stays()
    ensures pages { HeaderStays }
    ensures more { HeaderExtends }
    ensures same { SameHeader }
{}
