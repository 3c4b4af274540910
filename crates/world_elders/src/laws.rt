//! Laws of the worlds that histories of placed changes make.
ghost use Rattle.world_elders.specs.Laws.{BytesAreOwned, BytesAreThere, EldersAreThere, HomesAreThere, LinkRowsNameLinks, LinksAreThere, NumbersContent, PublishedAreThere, RunsAreThere, ShowsBytesThere};

/// Where the last place of a document's address is above 1, the address with 1 less there is a document of the world too.
pub fn elders_are_there()
    ensures { EldersAreThere }
{}

/// The bytes of each document's content have its content addresses 1, 2, 3 and on, up to its content's length, in the
/// order in which they came.
pub fn numbers_content()
    ensures { NumbersContent }
{}

/// Each byte of the world is a content byte of a document of the world.
pub fn bytes_are_owned()
    ensures { BytesAreOwned }
{}

/// Each text row shows a content byte that has come, of a document of the world.
pub fn shows_bytes_there()
    ensures { ShowsBytesThere }
{}

/// A content byte that has come is in the world's list of bytes.
pub fn bytes_are_there()
    ensures { BytesAreThere }
{}

/// Each link row names a link that was made, in a home that is a document of the world.
pub fn link_rows_name_links()
    ensures { LinkRowsNameLinks }
{}

/// The id of a link that was made is that of a link in the world's list.
pub fn links_are_there()
    ensures { LinksAreThere }
{}

/// The home of each link is a document of the world. That its links are numbered is a law of `world_laws`.
pub fn homes_are_there()
    ensures { HomesAreThere }
{}

/// Each published document is a document of the world.
pub fn published_are_there()
    ensures { PublishedAreThere }
{}

/// Each run of a link is one byte or more of the content of a document of the world, all of which have come, and it was
/// picked through a document of the world.
pub fn runs_are_there()
    ensures { RunsAreThere }
{}
