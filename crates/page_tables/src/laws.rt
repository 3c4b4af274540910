//! The law of tables. It is a function that does nothing, whose contract says the law.
ghost use Rattle.page_tables.specs.Laws.{OneTables};

/// Bytes are what is written of some tables at most once.
pub fn one_tables()
    ensures { OneTables }
{}
