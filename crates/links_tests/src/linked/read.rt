//! Which of the links may be read: those of the published document, and those of the account's own.
ghost use Rattle.std.specs.Prelude.{◌≡◌};
ghost use Rattle.world_rules.specs.World.{is_same};

use super::{are, document, id, span, three_links, tumbler};
use links::Links;
use std::alloc::Global;
use std::process::Abort;
use std::test::Fail;
use tumbler::{List, Tumbler};
use world_rules::Readers;

/// One document is published.
#[derive(Drop)]
struct Published {
    document: Tumbler,
}

impl Readers for Published {
    ghost publishes = { λ it document. is_same it.document document };

    fn is_published(&self, document: &Tumbler) -> bool {
        self.document == *document
    }
}

/// The ids of the three links, and one of no link.
fn ids(rt: &impl Abort, alloc: Global) -> List<Tumbler> {
    let mut ids = List::new(alloc);
    for name in [(1, 1), (1, 2), (2, 1), (3, 1)] {
        ids.push(id(rt, alloc, name)).expect(rt, "memory");
    }
    ids
}

/// Whether these are the links that may be read, where a document is published.
fn reads(
    rt: &impl Abort,
    alloc: Global,
    links: &Links,
    published: u32,
    account: &Option<Tumbler>,
    expected: &[(u32, u32)],
) -> bool {
    let readers = Published {
        document: document(rt, alloc, published),
    };
    let ids = ids(rt, alloc);
    let found = links
        .ids_read_for(alloc, ids.as_slice(), &readers, account, 99)
        .expect(rt, "memory");
    are(found.as_slice(), expected)
        && links.count_read_for(ids.as_slice(), &readers, account) == expected.len()
}

#[test]
fn reads_links_by_their_homes(rt: HostRuntime) -> Result<(), Fail> {
    let alloc = rt.alloc();
    let links = three_links(&rt, alloc);
    let own = Some(tumbler(&rt, alloc, &[1, 1, 0, 1]));
    let other = Some(tumbler(&rt, alloc, &[1, 1, 0, 2]));
    assert!(rt; reads(&rt, alloc, &links, 3, &own, &[(1, 1), (1, 2), (2, 1)]));
    assert!(rt; reads(&rt, alloc, &links, 2, &other, &[(2, 1)]));
    assert!(rt; reads(&rt, alloc, &links, 1, &None, &[(1, 1), (1, 2)]));
    assert!(rt; reads(&rt, alloc, &links, 3, &None, &[]));
    Ok(())
}

#[test]
fn reads_so_many_links(rt: HostRuntime) -> Result<(), Fail> {
    let alloc = rt.alloc();
    let links = three_links(&rt, alloc);
    let readers = Published {
        document: document(&rt, alloc, 1),
    };
    let ids = ids(&rt, alloc);
    let found = links.ids_read_for(alloc, ids.as_slice(), &readers, &None, 1)?;
    assert!(rt; are(found.as_slice(), &[(1, 1)]));
    Ok(())
}

/// How many spans of the third ends that may be read have byte 9, where a document is published.
fn spans_read(rt: &impl Abort, alloc: Global, links: &Links, published: u32) -> usize {
    let readers = Published {
        document: document(rt, alloc, published),
    };
    let found = links
        .spans_of_end_for(alloc, 3, &span(rt, alloc, 9, 1), &readers, &None)
        .expect(rt, "memory");
    found.len()
}

#[test]
fn reads_spans_of_links_by_their_homes(rt: HostRuntime) -> Result<(), Fail> {
    let alloc = rt.alloc();
    let links = three_links(&rt, alloc);
    assert!(rt; spans_read(&rt, alloc, &links, 1) == 1);
    assert!(rt; spans_read(&rt, alloc, &links, 2) == 1);
    assert!(rt; spans_read(&rt, alloc, &links, 3) == 0);
    Ok(())
}
