//! The table of access, call by call.

use access_table::AccessTable;
use febe_data::Mode;
use std::alloc::Global;
use std::test::Fail;
use tumbler::{BadTumbler, Tumbler};

fn document(alloc: Global, number: u32) -> Result<Tumbler, BadTumbler> {
    Tumbler::from_places(alloc, &[1, 1, 0, 1, 0, number])
}

#[test]
fn opens_closes_and_ends(rt: HostRuntime) -> Result<(), Fail> {
    let alloc = rt.alloc();
    let first = document(alloc, 1)?;
    let second = document(alloc, 2)?;
    let mut table = AccessTable::new(alloc);
    assert_eq!(rt; table.mode(7, &first), None);

    table.open(alloc, 7, &first, Mode::Read)?;
    table.open(alloc, 7, &second, Mode::Write)?;
    table.open(alloc, 5, &first, Mode::Write)?;
    assert_eq!(rt; table.mode(7, &first), Some(Mode::Read));
    assert_eq!(rt; table.mode(5, &second), None);
    assert_eq!(rt; table.writer(&first), Some(5));
    assert_eq!(rt; table.writer(&second), Some(7));

    table.open(alloc, 5, &first, Mode::Read)?;
    assert_eq!(rt; table.mode(5, &first), Some(Mode::Read));
    assert_eq!(rt; table.writer(&first), None);

    table.close(7, &first);
    assert_eq!(rt; table.mode(7, &first), None);
    table.end(7);
    assert_eq!(rt; table.mode(7, &second), None);
    assert_eq!(rt; table.writer(&second), None);
    assert_eq!(rt; table.mode(5, &first), Some(Mode::Read));
    Ok(())
}

#[test]
fn keeps_one_account_a_session(rt: HostRuntime) -> Result<(), Fail> {
    let alloc = rt.alloc();
    let one = Tumbler::from_places(alloc, &[1, 1, 0, 1])?;
    let two = Tumbler::from_places(alloc, &[1, 1, 0, 2])?;
    let mut table = AccessTable::new(alloc);
    table.set_account(alloc, 3, &one)?;
    table.set_account(alloc, 4, &one)?;
    table.set_account(alloc, 3, &two)?;
    assert!(rt; table.account(3) == Some(&two));
    assert!(rt; table.account(4) == Some(&one));
    table.end(3);
    assert!(rt; table.account(3).is_none());
    assert!(rt; table.account(4).is_some());
    Ok(())
}
