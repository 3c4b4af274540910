//! Tables, both ways, cut at every byte, and with counts that their bytes do not hold.

use febe_data::Run;
use page_tables::{TableDocument, TableLink, Tables, read_tables, write_tables};
use std::alloc::Global;
use std::process::Abort;
use std::test::Fail;
use tumbler::{List, Memory, Text, Tumbler};

/// The document `7` with root 3 and 5 bytes, the roots 1, 2, 3, 4 and 5, and the link `7.1` of `7`. Its first end shows
/// 2 bytes of `8` through `7`, from the first on, its second nothing, and its third, through no document, none of `0.9`,
/// from the greatest number on.
const TABLES: &[u8] =
    b"\x00\x00\x00\x01\x01\x00\x00\x00\x07\x00\x00\x00\x00\x00\x00\x00\x03\x00\x00\x00\x05\x00\x00\x00\x00\x00\x00\x00\x01\x00\x00\x00\x00\x00\x00\x00\x02\x00\x00\x00\x00\x00\x00\x00\x03\x00\x00\x00\x00\x00\x00\x00\x04\x00\x00\x00\x00\x00\x00\x00\x05\x00\x00\x00\x01\x02\x00\x00\x00\x07\x00\x00\x00\x01\x01\x00\x00\x00\x07\x00\x00\x00\x01\x01\x00\x00\x00\x07\x01\x00\x00\x00\x08\x00\x00\x00\x01\x00\x00\x00\x02\x00\x00\x00\x00\x00\x00\x00\x01\x00\x02\x00\x00\x00\x00\x00\x00\x00\x09\xff\xff\xff\xff\x00\x00\x00\x00";

/// What is no table where this byte stands at this place: counts that are not so, 25 places, and a last place 0.
const BAD: &[(usize, u8)] = &[
    (0, 255),
    (3, 0),
    (3, 2),
    (4, 25),
    (8, 0),
    (61, 255),
    (64, 0),
    (64, 2),
    (73, 0),
    (79, 255),
    (82, 0),
    (92, 0),
    (101, 255),
    (104, 1),
    (105, 255),
    (108, 0),
    (108, 2),
    (118, 0),
];

/// What is a table too: any root, any number of bytes, any run.
const GOOD: &[(usize, u8)] = &[
    (9, 255),
    (16, 0),
    (17, 255),
    (21, 255),
    (60, 0),
    (93, 255),
    (97, 255),
    (111, 255),
    (119, 0),
    (126, 1),
];

fn is_table(alloc: Global, bytes: &[u8]) -> Result<bool, Memory> {
    Ok(read_tables(alloc, bytes)?.is_some())
}

/// A list of one run.
fn one_run(
    alloc: Global,
    origin: &[u32],
    content: &[u32],
    first: u32,
    length: u32,
) -> Result<List<Run>, Fail> {
    let mut runs = List::new(alloc);
    runs.push(Run {
        origin: Tumbler::from_places(alloc, origin)?,
        content: Tumbler::from_places(alloc, content)?,
        first,
        length,
    })?;
    Ok(runs)
}

#[test]
fn tables_are_written(rt: HostRuntime) -> Result<(), Fail> {
    let alloc = rt.alloc();
    let document = Tumbler::from_places(alloc, &[7])?;
    let mut documents = List::new(alloc);
    documents.push(TableDocument {
        document,
        root: 3,
        content: 5,
    })?;
    let mut links = List::new(alloc);
    links.push(TableLink {
        id: Tumbler::from_places(alloc, &[7, 1])?,
        home: document,
        from: one_run(alloc, &[7], &[8], 1, 2)?,
        to: List::new(alloc),
        three: one_run(alloc, &[], &[0, 9], u32::MAX, 0)?,
    })?;
    let tables = Tables {
        documents,
        granfilade: 1,
        spanfilade: 2,
        from: 3,
        to: 4,
        three: 5,
        links,
    };
    assert!(rt; write_tables(alloc, &tables)?.as_slice() == TABLES);
    Ok(())
}

#[test]
fn tables_are_read(rt: HostRuntime) -> Result<(), Fail> {
    let Some(tables) = read_tables(rt.alloc(), TABLES)? else {
        return Err(Fail::from("no tables"));
    };
    let [row] = tables.documents.as_slice() else {
        return Err(Fail::from("not one document"));
    };
    assert!(rt; row.document.places() == [7].as_slice() && row.root == 3 && row.content == 5);
    assert!(rt; tables.granfilade == 1 && tables.spanfilade == 2);
    assert!(rt; tables.from == 3 && tables.to == 4 && tables.three == 5);
    let [link] = tables.links.as_slice() else {
        return Err(Fail::from("not one link"));
    };
    assert!(rt; link.id.places() == [7, 1].as_slice() && link.home.places() == [7].as_slice());
    assert!(rt; link.from.len() == 1 && link.to.is_empty());
    let [run] = link.three.as_slice() else {
        return Err(Fail::from("not one run"));
    };
    assert!(rt; run.origin.places().is_empty() && run.content.places() == [0, 9].as_slice());
    assert!(rt; run.first == u32::MAX && run.length == 0);
    Ok(())
}

#[test]
fn tables_cut_at_every_byte(rt: HostRuntime) -> Result<(), Fail> {
    let alloc = rt.alloc();
    let mut front = List::new(alloc);
    for byte in TABLES {
        assert!(rt; !is_table(alloc, front.as_slice())?);
        front.push(*byte)?;
    }
    assert!(rt; is_table(alloc, front.as_slice())?);
    front.push(0)?;
    assert!(rt; !is_table(alloc, front.as_slice())?);
    Ok(())
}

/// The bytes, with another byte at one place.
fn changed(alloc: Global, bytes: &[u8], at: usize, byte: u8) -> Result<Text, Memory> {
    let mut out = List::new(alloc);
    for (k, b) in bytes.iter().enumerate() {
        out.push(if k == at { byte } else { *b })?;
    }
    Ok(out)
}

#[test]
fn bytes_that_are_no_tables(rt: HostRuntime) -> Result<(), Fail> {
    let alloc = rt.alloc();
    for case in BAD {
        let bytes = changed(alloc, TABLES, case.0, case.1)?;
        assert!(rt; !is_table(alloc, bytes.as_slice())?, "at {}", case.0);
    }
    for case in GOOD {
        let bytes = changed(alloc, TABLES, case.0, case.1)?;
        assert!(rt; is_table(alloc, bytes.as_slice())?, "at {}", case.0);
    }
    Ok(())
}
