//! Worked examples of places, addresses, spans and lists.
ghost use Rattle.std.specs.Prelude.{◌↔◌, IsTrue};
ghost use Rattle.tumbler.specs.Places.{IsUpTo};

use std::alloc::Global;
use std::cmp::Ordering;
use std::collections::BTreeMap;
use std::test::Fail;
use tumbler::{List, Span, Text, Tumbler};

fn is_up_to(a: &Tumbler, b: &Tumbler) -> bool
    ensures { IsTrue result ↔ IsUpTo a.now b.now }
{
    a.cmp(b) != Ordering::Greater
}

#[test]
fn adds_and_takes_away(rt: HostRuntime) -> Result<(), Fail> {
    let alloc = rt.alloc();
    for (start, displacement, end) in [
        (
            [1, 1, 0, 1].as_slice(),
            [0, 0, 0, 1].as_slice(),
            [1, 1, 0, 2].as_slice(),
        ),
        ([1, 2].as_slice(), [0, 5].as_slice(), [1, 7].as_slice()),
        ([1, 7].as_slice(), [1].as_slice(), [2].as_slice()),
        ([0, 5].as_slice(), [1].as_slice(), [1].as_slice()),
        ([1, 2].as_slice(), [1].as_slice(), [2].as_slice()),
        ([1].as_slice(), [0, 0, 3].as_slice(), [1, 0, 3].as_slice()),
        ([1, 5].as_slice(), [].as_slice(), [1, 5].as_slice()),
    ] {
        let a = Tumbler::from_places(alloc, start)?;
        let d = Tumbler::from_places(alloc, displacement)?;
        assert!(rt; a.fits(&d), "{start:?} {displacement:?}");
        let b = a.add(&d);
        assert_eq!(rt; b.places(), end, "{start:?} + {displacement:?}");
        assert!(rt; is_up_to(&a, &b), "{start:?} {end:?}");
        assert_eq!(rt; b.minus(&a).places(), displacement, "{end:?} - {start:?}");
    }
    for (b, a, difference) in [
        ([1, 7].as_slice(), [1, 2].as_slice(), [0, 5].as_slice()),
        ([2].as_slice(), [1, 2].as_slice(), [1].as_slice()),
        ([1, 2].as_slice(), [1, 2].as_slice(), [].as_slice()),
    ] {
        let end = Tumbler::from_places(alloc, b)?;
        let start = Tumbler::from_places(alloc, a)?;
        assert!(rt; is_up_to(&start, &end), "{a:?} {b:?}");
        assert_eq!(rt; end.minus(&start).places(), difference, "{b:?} - {a:?}");
    }
    let last = Tumbler::from_places(alloc, &[1, 4294967295])?;
    assert!(rt; !last.fits(&Tumbler::from_places(alloc, &[0, 1])?));
    assert!(rt; last.fits(&Tumbler::from_places(alloc, &[1, 1])?));
    Ok(())
}

#[test]
fn tells_how_far_places_may_be_moved(rt: HostRuntime) -> Result<(), Fail> {
    let alloc = rt.alloc();
    let second = Tumbler::from_places(alloc, &[0, 0, 3, 1])?.lead();
    assert_eq!(rt; second.places(), [0, 0, 3].as_slice());
    let first = Tumbler::from_places(alloc, &[1, 0, 9])?.lead();
    let reach = first.greater(&second);
    assert_eq!(rt; reach.places(), [1, 0, 3].as_slice());
    for (base, has_room) in [
        ([5, 7, 4294967292].as_slice(), true),
        ([5, 7, 4294967293].as_slice(), false),
        ([4294967294].as_slice(), true),
        ([4294967295].as_slice(), false),
        ([].as_slice(), true),
    ] {
        let base = Tumbler::from_places(alloc, base)?;
        assert_eq!(rt; base.has_room(&reach), has_room, "{base:?}");
    }
    Ok(())
}

#[test]
fn places_beside_others(rt: HostRuntime) -> Result<(), Fail> {
    let alloc = rt.alloc();
    for (places, before) in [
        ([1, 2].as_slice(), [1, 1].as_slice()),
        ([1, 1, 0, 1].as_slice(), [1, 1].as_slice()),
        ([1, 0, 5].as_slice(), [1, 0, 4].as_slice()),
        ([0, 0, 1].as_slice(), [].as_slice()),
        ([].as_slice(), [].as_slice()),
    ] {
        let tumbler = Tumbler::from_places(alloc, places)?;
        assert_eq!(rt; tumbler.just_before().places(), before, "{places:?}");
    }
    let alloc = Tumbler::zero(alloc).allocator();
    assert_eq!(rt;
        Tumbler::width(alloc, 4, 7).places(),
        [0, 0, 0, 7].as_slice()
    );
    assert_eq!(rt; Tumbler::width(alloc, 4, 0), Tumbler::zero(alloc));
    assert_eq!(rt; Tumbler::width(alloc, 0, 7), Tumbler::zero(alloc));
    Ok(())
}

#[test]
fn refuses_what_is_no_tumbler(rt: HostRuntime) -> Result<(), Fail> {
    let alloc = rt.alloc();
    assert!(rt; Tumbler::from_places(alloc, &[1, 0]).is_err());
    assert!(rt; Tumbler::from_places(alloc, &[0]).is_err());
    assert!(rt; Tumbler::from_places(alloc, &[0, 1]).is_ok());
    assert!(rt; Tumbler::from_places(alloc, [1; 25].as_slice()).is_err());
    assert!(rt; Tumbler::from_places(alloc, [1; 24].as_slice()).is_ok());
    assert_eq!(rt; Tumbler::from_places(alloc, &[])?, Tumbler::zero(alloc));
    Ok(())
}

#[test]
fn orders_by_places(rt: HostRuntime) -> Result<(), Fail> {
    let alloc = rt.alloc();
    let mut map = BTreeMap::new(alloc);
    for (places, name) in [
        ([1, 2].as_slice(), 4u8),
        ([1].as_slice(), 1),
        ([2].as_slice(), 6),
        ([].as_slice(), 0),
        ([1, 10].as_slice(), 5),
        ([1, 0, 7].as_slice(), 2),
        ([1, 1].as_slice(), 3),
    ] {
        map.insert(Tumbler::from_places(alloc, places)?, name)?;
    }
    let mut names = Vec::new(alloc);
    for name in map.values() {
        names.push(*name)?;
    }
    assert_eq!(rt; names.as_slice(), [0, 1, 2, 3, 4, 5, 6].as_slice());
    Ok(())
}

#[test]
fn tells_the_forms_of_addresses(rt: HostRuntime) -> Result<(), Fail> {
    let alloc = rt.alloc();
    for (places, is_account, is_document, document_len) in [
        ([1, 1, 0, 1].as_slice(), true, false, 0),
        ([1, 1, 0, 1, 0, 1].as_slice(), false, true, 0),
        ([1, 1, 0, 1, 0, 1, 1].as_slice(), false, true, 0),
        ([1, 1, 0, 1, 0, 1, 0, 1, 5].as_slice(), false, false, 6),
        ([1, 1, 0, 1, 0, 1, 0, 2, 1].as_slice(), false, false, 6),
        ([1, 1, 0, 1, 0, 1, 0, 3, 1].as_slice(), false, false, 0),
        ([1, 1, 0, 1, 0, 1, 0, 1].as_slice(), false, false, 0),
        ([1, 1].as_slice(), false, false, 0),
        ([0, 1].as_slice(), false, false, 0),
        ([1, 0, 0, 1].as_slice(), false, false, 0),
        ([].as_slice(), false, false, 0),
    ] {
        let address = Tumbler::from_places(alloc, places)?;
        assert_eq!(rt; address.is_account(), is_account, "account {places:?}");
        assert_eq!(rt; address.is_document(), is_document, "document {places:?}");
        match address.document_of() {
            Some(document) => assert_eq!(rt;
                document.places().len(),
                document_len,
                "made in {places:?}"
            ),
            None => assert_eq!(rt; document_len, 0, "made in {places:?}"),
        }
    }
    let account = Tumbler::from_places(alloc, &[1, 1, 0, 1])?;
    let document = Tumbler::from_places(alloc, &[1, 1, 0, 1, 0, 1])?;
    assert!(rt; document.is_document());
    assert_eq!(rt; document.account_of(), account);
    let byte = Tumbler::from_places(alloc, &[1, 1, 0, 1, 0, 1, 0, 1, 5])?;
    assert_eq!(rt; byte.document_of(), Some(document.copy()));
    assert_eq!(rt;
        document.child(1).places(),
        [1, 1, 0, 1, 0, 1, 1].as_slice()
    );
    Ok(())
}

#[test]
fn spans_share_places(rt: HostRuntime) -> Result<(), Fail> {
    let alloc = rt.alloc();
    let span = Span {
        start: Tumbler::from_places(alloc, &[1, 1])?,
        width: Tumbler::from_places(alloc, &[0, 5])?,
    };
    assert!(rt; span.fits());
    for (start, width, overlaps) in [
        ([1, 5].as_slice(), [0, 1].as_slice(), true),
        ([1, 5, 9].as_slice(), [0, 0, 1].as_slice(), true),
        ([1, 6].as_slice(), [0, 1].as_slice(), false),
        ([1].as_slice(), [0, 1].as_slice(), false),
        ([1].as_slice(), [0, 2].as_slice(), true),
        ([1, 1].as_slice(), [0, 5].as_slice(), true),
        ([1, 3].as_slice(), [].as_slice(), false),
        ([1].as_slice(), [1].as_slice(), true),
    ] {
        let other = Span {
            start: Tumbler::from_places(alloc, start)?,
            width: Tumbler::from_places(alloc, width)?,
        };
        assert!(rt; other.fits());
        assert_eq!(rt; span.overlaps(&other), overlaps, "{start:?} {width:?}");
        assert_eq!(rt; other.overlaps(&span), overlaps, "{start:?} {width:?}");
    }
    for (places, contains) in [
        ([1].as_slice(), false),
        ([1, 0, 9].as_slice(), false),
        ([1, 1].as_slice(), true),
        ([1, 5, 9].as_slice(), true),
        ([1, 6].as_slice(), false),
    ] {
        let place = Tumbler::from_places(alloc, places)?;
        assert_eq!(rt; span.contains(&place), contains, "{places:?}");
    }
    let empty = Span {
        start: Tumbler::from_places(alloc, &[1, 3])?,
        width: Tumbler::zero(alloc),
    };
    assert!(rt; empty.fits());
    assert!(rt; !empty.overlaps(&empty.copy()));
    assert!(rt; !empty.contains(&empty.start));
    Ok(())
}

#[test]
fn lists_of_bytes(rt: HostRuntime) -> Result<(), Fail> {
    let alloc = rt.alloc();
    let mut text: Text = List::from_slice(alloc, b"bd")?;
    text.push(b'e')?;
    text.insert(0, b'a')?;
    assert_eq!(rt; text.len(), 4);
    text.insert(2, b'c')?;
    text.reserve(2)?;
    text.push_reserved(b'f');
    text.extend_from_slice(b"ghi")?;
    assert_eq!(rt; text.as_slice(), b"abcdefghi".as_slice());
    text.truncate(7);
    assert_eq!(rt; text.get(6), Some(&b'g'));
    assert_eq!(rt; text.get(7), None);
    assert!(rt; text.iter().eq(b"abcdefg".iter()));
    let mut sum = 0u32;
    for byte in &text {
        sum = sum.wrapping_add(u32::from(*byte));
    }
    assert_eq!(rt; sum, 700);
    assert!(rt; !text.is_empty());
    Ok(())
}

#[test]
fn lists_of_tumblers(rt: HostRuntime) -> Result<(), Fail> {
    let alloc = rt.alloc();
    let mut list: List<Tumbler> = List::new(alloc);
    assert!(rt; list.is_empty());
    list.push(Tumbler::from_places(alloc, &[2])?)?;
    list.insert(0, Tumbler::from_places(alloc, &[1])?)?;
    list.reserve(1)?;
    list.push_reserved(Tumbler::from_places(alloc, &[3])?);
    list.push(Tumbler::zero(alloc))?;
    list.truncate(3);
    assert_eq!(rt; list.len(), 3);
    let mut places = Vec::new(alloc);
    for tumbler in &list {
        places.extend_from_slice(tumbler.places())?;
    }
    assert_eq!(rt; places.as_slice(), [1, 2, 3].as_slice());
    assert_eq!(rt; list.get(1), Some(&Tumbler::from_places(alloc, &[2])?));
    assert_eq!(rt; list.iter().count(), 3);
    Ok(())
}
