//! Laws of what histories and changes make of the world.
ghost use Rattle.world_rules.specs.Accounts.{DocumentsAreAddresses, OfItsAccount, OwnsByAccount, SetsAccounts};
ghost use Rattle.world_rules.specs.Serials.{LegalStepsCount, RecoveredCounts, SerialsGoOn};
ghost use Rattle.world_rules.specs.VOrder.{PickedByPlace};
ghost use Rattle.world_rules.specs.Laws.{CopiesSpecs, CopyLeavesOthers, DeletesSpan, DocumentsOnce, EmptyBlockStays, IdsForLinks, InsertLeavesOthers, InsertedReads, InsertsNumbered, InsertsRows, KeepsContents, KeptAgain, LinksNumbered, LinksOnce, NextIsNew, NumberedWithoutGaps, PutsInOrder, Rearranges, RecoveredIsPlaced, RetrieveAfterInsert, RowsHaveDocuments, ServedIsPlaced, ShowsOwnContent, ShowsWhatCame, SwapsBack, TextInOrder, VersionsRows};

/// The kept entries of a history alone build the documents, rows, bytes and links that the whole
/// history builds: sessions, accounts, open documents and restarts change none of them.
pub fn keeps_contents()
    ensures { KeepsContents }
{}

/// What is kept of a history is kept again after a restart, which adds nothing to it.
pub fn kept_again()
    ensures { KeptAgain }
{}

/// Text that comes in at a place of a document whose text is numbered from 1 without gaps leaves the
/// text rows before the place as they are, puts its own rows there, and moves the others up by its
/// length, in their order.
pub fn inserts_rows()
    ensures { InsertsRows }
{}

/// Text that comes in at such a place, from 1 to one more than the document's length, leaves each
/// document's rows numbered from 1 without gaps, if they were.
pub fn inserts_numbered()
    ensures { InsertsNumbered }
{}

/// After text came in at such a place of a document whose text shows none of the new bytes yet, the
/// document reads: the bytes before the place, the text, and the bytes from the place on.
pub fn retrieve_after_insert()
    ensures { RetrieveAfterInsert }
{}

/// Text that comes in, wherever it does, leaves all rows that are none of the document's text, in
/// their order, the documents, the links, the open documents and the accounts. The old content bytes
/// stand before the new ones.
pub fn insert_leaves_others()
    ensures { InsertLeavesOthers }
{}

/// A copy to a place of a document whose text is numbered puts there what its specs picked, and moves
/// the text rows from there on up. The document reads so. Each document is numbered that was, and the
/// documents, the content and the links are as they were.
pub fn copies_specs()
    ensures { CopiesSpecs }
{}

/// A copy, wherever it comes in, leaves all rows that are none of the document's text, in their
/// order, the documents, the content, the links, the open documents and the accounts.
pub fn copy_leaves_others()
    ensures { CopyLeavesOthers }
{}

/// What a delete leaves of the document's text and links stands in its order, and without gaps if it
/// did before. The rows of other documents, the content and the links are as they were.
pub fn deletes_span()
    ensures { DeletesSpan }
{}

/// A version of a document, in one that had no rows, has the rows of its source, each at its place
/// and in their order. The rows of other documents, the content and the links are as they were.
pub fn versions_rows()
    ensures { VersionsRows }
{}

/// A rearrange between places of a document whose text is numbered leaves it so, with the blocks in
/// the other order. Its links, the rows of other documents, the content and the links are as they
/// were.
pub fn rearranges()
    ensures { Rearranges }
{}

/// Where one of the two blocks between three cuts of a text that is numbered is empty, a rearrange
/// leaves the text as it is.
pub fn empty_block_stays()
    ensures { EmptyBlockStays }
{}

/// A rearrange of a text that is numbered, by three cuts and then by those of the two blocks as they
/// stand then, gives the text back.
pub fn swaps_back()
    ensures { SwapsBack }
{}

/// What is put in ascending order has the same addresses, each once and each below those behind it.
/// So stand the documents and the ids of links that are found.
pub fn puts_in_order()
    ensures { PutsInOrder }
{}

/// A request that nothing refuses changes the world so that documents are new ones, content bytes
/// and links have the next numbers, and text, copies, blocks and links come in at places that are
/// there.
pub fn served_is_placed()
    ensures { ServedIsPlaced }
{}

/// What is kept of a history of such changes, and a restart after it, is such a history too.
pub fn recovered_is_placed()
    ensures { RecoveredIsPlaced }
{}

/// In the world of a history of such changes, each document's text rows and link rows are numbered
/// from 1 without gaps.
pub fn numbered_without_gaps()
    ensures { NumberedWithoutGaps }
{}

/// In the world of such a history the text rows of each document stand in the order of their
/// places, of which no two are the same.
pub fn text_in_order()
    ensures { TextInOrder }
{}

/// In the world of such a history the next document below any address is not there yet.
pub fn next_is_new()
    ensures { NextIsNew }
{}

/// In the world of such a history each document is there once.
pub fn documents_once()
    ensures { DocumentsOnce }
{}

/// In the world of such a history each row is of a document that is there.
pub fn rows_have_documents()
    ensures { RowsHaveDocuments }
{}

/// In the world of such a history the links that were made in a document have its link addresses
/// 1, 2, 3 and on, in the order in which they came.
pub fn links_numbered()
    ensures { LinksNumbered }
{}

/// In the world of such a history no two links have the same id.
pub fn links_once()
    ensures { LinksOnce }
{}

/// So counting links there gives the length of the list of ids that finding them gives.
pub fn ids_for_links()
    ensures { IdsForLinks }
{}

/// In the world of such a history no text row of any document shows a content byte that is yet to
/// come.
pub fn shows_what_came()
    ensures { ShowsWhatCame }
{}

/// In the world of such a history no document has a text row that shows one of its own content
/// bytes that are yet to come.
pub fn shows_own_content()
    ensures { ShowsOwnContent }
{}

/// In the world of such a history text that comes in reads at its place, between what the document
/// had before it and what it had from there on.
pub fn inserted_reads()
    ensures { InsertedReads }
{}

/// A document's address begins with one account alone, so a document is of an account exactly where
/// that is its account.
pub fn of_its_account()
    ensures { OfItsAccount }
{}

/// In the world of a history of such changes the account that a session has set is an account's
/// address.
pub fn sets_accounts()
    ensures { SetsAccounts }
{}

/// So a session has a document for its own there exactly where it has set the document's account.
pub fn owns_by_account()
    ensures { OwnsByAccount }
{}

/// In the world of such a history each document has a document's address.
pub fn documents_are_addresses()
    ensures { DocumentsAreAddresses }
{}

/// In the world of such a history what is picked in the order of the list of rows is what is picked in
/// the order of V-addresses, from text and from links.
pub fn picked_by_place()
    ensures { PickedByPlace }
{}

/// Where the serials of each session that began after the last restart count its entries from 1 on,
/// they do so after one entry more: the next one of its session, or the begin of a new one.
pub fn serials_go_on()
    ensures { SerialsGoOn }
{}

/// They do so after a legal step of any session.
pub fn legal_steps_count()
    ensures { LegalStepsCount }
{}

/// They do when a back end begins again with what was kept.
pub fn recovered_counts()
    ensures { RecoveredCounts }
{}
