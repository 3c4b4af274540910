//! What a world is asked of documents, sessions and numbers, after the short history.

use crate::histories::{ACCOUNT, FIRST, SECOND, address};
use febe_data::{Memory, Mode};
use std::alloc::Global;
use std::process::Abort;
use std::test::Fail;
use world_rules::LookUp;

/// Whether the session is told its account, which no other session is.
fn has_account<W: LookUp>(alloc: Global, world: &W) -> Result<bool, Memory> {
    let account = address(alloc, &ACCOUNT)?;
    Ok(world.account_of_session(1) == Some(account) && world.account_of_session(2).is_none())
}

/// Whether there are the two documents, and not the next one.
fn has_documents<W: LookUp>(alloc: Global, world: &W) -> Result<bool, Memory> {
    let next = address(alloc, &[1, 1, 0, 1, 0, 3])?;
    Ok(
        world.has_document(&address(alloc, &FIRST)?)
            && world.has_document(&address(alloc, &SECOND)?)
            && !world.has_document(&next),
    )
}

/// Whether the first document is published, and the second is not.
fn has_published<W: LookUp>(alloc: Global, world: &W) -> Result<bool, Memory> {
    Ok(
        world.is_published(&address(alloc, &FIRST)?)
            && !world.is_published(&address(alloc, &SECOND)?),
    )
}

/// Whether the next document and the first version have their addresses.
fn numbers_documents<W: LookUp>(alloc: Global, world: &W) -> Result<bool, Memory> {
    let next = address(alloc, &[1, 1, 0, 1, 0, 3])?;
    let version = address(alloc, &[1, 1, 0, 1, 0, 1, 1])?;
    Ok(
        world.next_document(&address(alloc, &ACCOUNT)?)? == next
            && world.next_version(&address(alloc, &FIRST)?)? == version,
    )
}

/// Whether the next byte and the next link of the first document have their numbers.
fn numbers_contents<W: LookUp>(alloc: Global, world: &W) -> Result<bool, Memory> {
    let first = address(alloc, &FIRST)?;
    Ok(world.next_content(&first)? == 4 && world.next_link(&first)? == 2)
}

/// Checks who has what open.
fn check_open<W: LookUp>(rt: &impl Abort, alloc: Global, world: &W) -> Result<(), Fail> {
    let (first, second) = (address(alloc, &FIRST)?, address(alloc, &SECOND)?);
    assert_eq!(rt; world.mode_of(1, &first), Some(Mode::Write));
    assert_eq!(rt; world.mode_of(1, &second), None);
    assert_eq!(rt; world.holder_of(&first), Some(1));
    assert!(rt; world.is_held_against(2, &first) && !world.is_held_against(1, &first));
    Ok(())
}

/// Checks how much there is.
fn check_lengths<W: LookUp>(rt: &impl Abort, alloc: Global, world: &W) -> Result<(), Fail> {
    let (first, second) = (address(alloc, &FIRST)?, address(alloc, &SECOND)?);
    assert_eq!(rt;
        (world.text_length(&first), world.text_length(&second)),
        (3, 2)
    );
    assert_eq!(rt;
        (world.link_length(&first), world.link_length(&second)),
        (1, 0)
    );
    assert_eq!(rt;
        (world.content(), world.counted(), world.entries_of(1)),
        (3, 6, 11)
    );
    Ok(())
}

/// Asks each look-up once or more.
pub(crate) fn check_lookups<W: LookUp>(
    rt: &impl Abort,
    alloc: Global,
    world: &W,
) -> Result<(), Fail> {
    assert!(rt; has_account(alloc, world)?);
    assert!(rt; has_documents(alloc, world)?);
    assert!(rt; has_published(alloc, world)?);
    assert!(rt; numbers_documents(alloc, world)?);
    assert!(rt; numbers_contents(alloc, world)?);
    check_open(rt, alloc, world)?;
    check_lengths(rt, alloc, world)
}
