//! Links at random come in, are taken back and are looked for, beside a plain list of the same links.
//!
//! Their homes, and the documents whose bytes are at their ends, are `1.1.0.1.0.h` for h from 1 to 3.
ghost use Rattle.std.specs.Prelude.{◌≡◌, ◌⊎◌, ◌<◌, ◌≤◌, length, All};
ghost use Rattle.tumbler.specs.Span.{SpanFits};
ghost use Rattle.spanfilade.specs.Index.{at_mark};
ghost use Rattle.links.specs.LinkLists.{IsRun, IsLink, HoldsRuns, plain_link, removed};
ghost use Rattle.links.specs.Finding.{EndsFit, SpansFit};

use super::plain::{
    Asked, NOTHING, Part, Place, Plain, ZERO, count_before, count_of_home, next_run, next_wanted,
};
use super::{document, has_room, id, is_id, is_named, is_new, marks};
use febe_data::Run;
use links::{LinkMarks, LinkRow, Links, WantedEnds};
use std::alloc::Global;
use std::process::Abort;
use std::test::Fail;
use tumbler::{List, Span, Tumbler};

/// Numbers that look random.
#[derive(Drop)]
struct Random {
    state: u32,
}

impl Random {
    /// A number from 1 up to a most one, which is not 0.
    fn up_to(&mut self, most: u32) -> u32 {
        self.state = self
            .state
            .wrapping_mul(1_664_525)
            .wrapping_add(1_013_904_223);
        if most == 0 {
            return 1;
        }
        (self.state / 256) % most + 1
    }
}

// ---- at random

fn any_documents(random: &mut Random) -> Part {
    Part {
        document: random.up_to(3),
        first: 0,
        count: random.up_to(3).saturating_sub(1),
    }
}

fn any_run(random: &mut Random) -> Part {
    Part {
        document: random.up_to(3),
        first: random.up_to(12),
        count: random.up_to(4),
    }
}

/// Some bytes, none, or documents with all that is in them.
fn any_part(random: &mut Random) -> Part {
    match random.up_to(8) {
        1 => any_documents(random),
        2 => Part {
            document: random.up_to(3),
            first: random.up_to(12),
            count: 0,
        },
        _ => any_run(random),
    }
}

/// Up to three runs, or none.
fn any_runs(rt: &impl Abort, alloc: Global, random: &mut Random) -> List<Part> {
    let mut made = List::new(alloc);
    for _ in 1..random.up_to(4) {
        made.push(any_run(random)).expect(rt, "memory");
    }
    made
}

/// Up to three parts, or none.
fn any_parts(rt: &impl Abort, alloc: Global, random: &mut Random) -> List<Part> {
    let mut made = List::new(alloc);
    for _ in 1..random.up_to(4) {
        made.push(any_part(random)).expect(rt, "memory");
    }
    made
}

/// No part, or one or two of documents.
fn any_homes(rt: &impl Abort, alloc: Global, random: &mut Random) -> List<Part> {
    let mut made = List::new(alloc);
    for _ in 2..random.up_to(4) {
        made.push(any_documents(random)).expect(rt, "memory");
    }
    made
}

/// A number for a place in the list: one for each of the first 509, which is a prime, and in no order.
fn number_at(k: usize) -> u32 {
    let k = k.min(508) as u32;
    (k.saturating_mul(37) % 509).saturating_add(1)
}

/// A link that is to stand at a place in the list.
fn any_link(rt: &impl Abort, alloc: Global, random: &mut Random, k: usize) -> Plain {
    let name = Place {
        document: random.up_to(3),
        number: number_at(k),
    };
    Plain {
        name,
        from: any_runs(rt, alloc, random),
        to: any_runs(rt, alloc, random),
        three: any_runs(rt, alloc, random),
    }
}

/// A name that is there, or any.
fn any_name(kept: &[Plain], random: &mut Random) -> Place {
    let any = Place {
        document: random.up_to(3),
        number: random.up_to(509),
    };
    let count = kept.len().min(1_000) as u32;
    let k = random.up_to(count).saturating_sub(1);
    if random.up_to(3) == 1 {
        return any;
    }
    let Some(link) = kept.get(k as usize) else {
        return any;
    };
    link.name
}

/// A bound: a name, a document, or zero.
fn any_bound(kept: &[Plain], random: &mut Random) -> Place {
    match random.up_to(4) {
        1 => any_name(kept, random),
        2 => Place {
            document: random.up_to(4),
            number: 0,
        },
        _ => ZERO,
    }
}

/// A limit: up to three, up to twenty, or more than there are links.
fn any_limit(random: &mut Random) -> u32 {
    match random.up_to(3) {
        1 => random.up_to(4).saturating_sub(1),
        2 => random.up_to(20),
        _ => 1_000,
    }
}

/// What is asked of an end, or nothing.
fn any_wanted(rt: &impl Abort, alloc: Global, random: &mut Random) -> Option<List<Part>> {
    if random.up_to(2) == 1 {
        return None;
    }
    Some(any_parts(rt, alloc, random))
}

fn any_asked(rt: &impl Abort, alloc: Global, kept: &[Plain], random: &mut Random) -> Asked {
    Asked {
        homes: any_homes(rt, alloc, random),
        from: any_wanted(rt, alloc, random),
        to: any_wanted(rt, alloc, random),
        three: any_wanted(rt, alloc, random),
        after: any_bound(kept, random),
        limit: any_limit(random),
    }
}

// ---- as tumblers

/// The address of a link or of a document, or zero.
fn address(rt: &impl Abort, alloc: Global, place: Place) -> Tumbler {
    if place.document == 0 {
        return Tumbler::zero(alloc);
    }
    if place.number == 0 {
        return document(rt, alloc, place.document);
    }
    id(rt, alloc, (place.document, place.number))
}

fn run(rt: &impl Abort, alloc: Global, part: Part) -> Run
    ensures { IsRun result }
{
    assert!(rt; 0 < part.first);
    assert!(rt; 0 < part.count);
    assert!(rt; part.first < 1_000);
    assert!(rt; part.count < 1_000);
    let content = document(rt, alloc, part.document);
    Run {
        origin: content.copy(),
        content,
        first: part.first,
        length: part.count,
    }
}

fn runs(rt: &impl Abort, alloc: Global, parts: &[Part]) -> List<Run>
    ensures { All IsRun result.items }
{
    let mut made = List::new(alloc);
    for part in parts {
        made.push(run(rt, alloc, *part)).expect(rt, "memory");
    }
    made
}

fn link_of(rt: &impl Abort, alloc: Global, plain: &Plain) -> LinkRow
    ensures { IsLink (plain_link result) }
{
    LinkRow {
        id: id(rt, alloc, (plain.name.document, plain.name.number)),
        home: document(rt, alloc, plain.name.document),
        from: runs(rt, alloc, plain.from.as_slice()),
        to: runs(rt, alloc, plain.to.as_slice()),
        three: runs(rt, alloc, plain.three.as_slice()),
    }
}

fn start(rt: &impl Abort, alloc: Global, part: Part) -> Tumbler {
    if part.first == 0 {
        return document(rt, alloc, part.document);
    }
    let places = [1, 1, 0, 1, 0, part.document, 0, 1, part.first];
    Tumbler::from_places(alloc, &places).expect(rt, "a tumbler")
}

fn width(alloc: Global, part: Part) -> Tumbler {
    if part.first == 0 {
        return Tumbler::width(alloc, 6, part.count);
    }
    Tumbler::width(alloc, 9, part.count)
}

fn span(rt: &impl Abort, alloc: Global, part: Part) -> Span
    ensures { SpanFits result }
{
    let span = Span {
        start: start(rt, alloc, part),
        width: width(alloc, part),
    };
    assert!(rt; span.fits());
    span
}

fn spans(rt: &impl Abort, alloc: Global, parts: &[Part]) -> List<Span>
    ensures { All SpanFits result.items }
{
    let mut made = List::new(alloc);
    for part in parts {
        made.push(span(rt, alloc, *part)).expect(rt, "memory");
    }
    made
}

/// The spans of what is asked of an end, if something is.
fn asked_of(rt: &impl Abort, alloc: Global, parts: &Option<List<Part>>) -> Option<List<Span>>
    ensures { SpansFit result }
{
    let Some(parts) = parts else {
        return None;
    };
    Some(spans(rt, alloc, parts.as_slice()))
}

fn wanted(rt: &impl Abort, alloc: Global, asked: &Asked) -> WantedEnds
    ensures { EndsFit result }
{
    WantedEnds {
        from: asked_of(rt, alloc, &asked.from),
        to: asked_of(rt, alloc, &asked.to),
        three: asked_of(rt, alloc, &asked.three),
    }
}

// ---- the same in both

fn found_by(rt: &impl Abort, alloc: Global, links: &Links, asked: &Asked) -> List<Tumbler> {
    let ends = wanted(rt, alloc, asked);
    let homes = spans(rt, alloc, asked.homes.as_slice());
    let after = address(rt, alloc, asked.after);
    links
        .find(alloc, &homes, &ends, &after, asked.limit)
        .expect(rt, "memory")
}

/// Asserts that what is found is what a scan of the list finds: the first names, in order and up to the limit.
fn finds(rt: &impl Abort, alloc: Global, links: &Links, kept: &[Plain], asked: &Asked) {
    let found = found_by(rt, alloc, links, asked);
    let limit = asked.limit as usize;
    assert!(rt; found.len() <= limit);
    let mut after = asked.after;
    for id in found.as_slice() {
        let next = next_wanted(kept, asked, after).expect(rt, "no further one");
        assert!(rt; is_id(id, (next.document, next.number)));
        after = next;
    }
    let is_all = found.len() == limit || next_wanted(kept, asked, after).is_none();
    assert!(rt; is_all);
}

fn is_document(found: &Tumbler, number: u32) -> bool {
    found.places() == [1, 1, 0, 1, 0, number].as_slice()
}

fn is_run(run: &Run, part: Part) -> bool {
    is_document(&run.origin, part.document)
        && is_document(&run.content, part.document)
        && run.first == part.first
        && run.length == part.count
}

fn are_runs(found: &[Run], parts: &[Part]) -> bool {
    if found.len() != parts.len() {
        return false;
    }
    for (run, part) in found.iter().zip(parts) {
        if !is_run(run, *part) {
            return false;
        }
    }
    true
}

/// Whether this is the plain link.
fn is_link(link: Option<&LinkRow>, plain: &Plain) -> bool {
    let Some(link) = link else {
        return false;
    };
    is_named(Some(link), (plain.name.document, plain.name.number))
        && are_runs(link.from.as_slice(), plain.from.as_slice())
        && are_runs(link.to.as_slice(), plain.to.as_slice())
        && are_runs(link.three.as_slice(), plain.three.as_slice())
}

/// Whether this is the link of a name in the list, or none where it has none.
fn is_link_of(link: Option<&LinkRow>, kept: &[Plain], name: Place) -> bool {
    for plain in kept {
        if plain.name == name {
            return is_link(link, plain);
        }
    }
    link.is_none()
}

/// Whether this is the link before which so many come, or none where there are no more.
fn is_link_at(link: Option<&LinkRow>, kept: &[Plain], k: u32) -> bool {
    for plain in kept {
        if count_before(kept, plain.name) == k {
            return is_link(link, plain);
        }
    }
    link.is_none()
}

fn is_span(span: &Span, part: Part) -> bool {
    span.start.places() == [1, 1, 0, 1, 0, part.document, 0, 1, part.first].as_slice()
        && span.width.places() == [0, 0, 0, 0, 0, 0, 0, 0, part.count].as_slice()
}

/// Asserts that the spans of an end that meet a part are the runs that a scan of the list meets, in order and each
/// once.
fn shows(rt: &impl Abort, alloc: Global, links: &Links, kept: &[Plain], end: u32, meeting: Part)
    requires { (end ≡ 1) ⊎ (end ≡ 2) ⊎ (end ≡ 3) }
{
    let sought = span(rt, alloc, meeting);
    let found = links.spans_of_end(alloc, end, &sought).expect(rt, "memory");
    let mut after = NOTHING;
    for span in found.as_slice() {
        let next = next_run(kept, end, meeting, after).expect(rt, "no further one");
        assert!(rt; is_span(span, next));
        after = next;
    }
    assert!(rt; next_run(kept, end, meeting, after).is_none());
}

/// Asks each look-up something, and asserts that it answers as the list does.
fn ask(rt: &impl Abort, alloc: Global, links: &Links, kept: &[Plain], random: &mut Random) {
    let asked = any_asked(rt, alloc, kept, random);
    finds(rt, alloc, links, kept, &asked);
    let name = any_name(kept, random);
    let sought = address(rt, alloc, name);
    assert!(rt; is_link_of(links.get(&sought), kept, name));
    let count = kept.len().min(1_000) as u32;
    let k = random.up_to(count.saturating_add(2)).saturating_sub(1);
    assert!(rt; is_link_at(links.nth(k), kept, k));
    let number = random.up_to(4);
    let home = document(rt, alloc, number);
    assert!(rt; links.count_of_home(&home) == count_of_home(kept, number));
    let meeting = any_part(random);
    shows(rt, alloc, links, kept, 1, meeting);
    shows(rt, alloc, links, kept, 2, meeting);
    shows(rt, alloc, links, kept, 3, meeting);
}

// ---- changes

/// What the link that came in last is taken back by.
#[derive(Drop)]
struct Last {
    id: Tumbler,
    marks: LinkMarks,
}

/// A link comes in, in both. Its number is the one that any other link had in this place of the list.
#[tactic(auto, using(links::proofs::Trials::goes_again))]
fn come(
    rt: &impl Abort,
    alloc: Global,
    links: &mut Links,
    kept: &mut List<Plain>,
    random: &mut Random,
) -> Last
    ensures below { (result.marks.from.root.0 < result.marks.from.count) × (result.marks.to.root.0 < result.marks.to.count) × (result.marks.three.root.0 < result.marks.three.count) }
    ensures counted { (result.marks.from.count ≤ length links.new.from.nodes) × (result.marks.to.count ≤ length links.new.to.nodes) × (result.marks.three.count ≤ length links.new.three.nodes) }
    ensures from { HoldsRuns 1 (removed links.new.links result.id) (at_mark result.marks.from links.new.from) }
    ensures to { HoldsRuns 2 (removed links.new.links result.id) (at_mark result.marks.to links.new.to) }
    ensures three { HoldsRuns 3 (removed links.new.links result.id) (at_mark result.marks.three links.new.three) }
{
    let plain = any_link(rt, alloc, random, kept.len());
    let link = link_of(rt, alloc, &plain);
    let id = link.id.copy();
    assert!(rt; is_new(links, &link.id));
    assert!(rt; has_room(links));
    let marks = marks(links);
    links.add(alloc, link).expect(rt, "memory");
    kept.push(plain).expect(rt, "memory");
    Last { id, marks }
}

/// The last link is taken back, in both.
fn go_back(links: &mut Links, kept: &mut List<Plain>, last: &Last)
    requires below { (last.now.marks.from.root.0 < last.now.marks.from.count) × (last.now.marks.to.root.0 < last.now.marks.to.count) × (last.now.marks.three.root.0 < last.now.marks.three.count) }
    requires counted { (last.now.marks.from.count ≤ length links.old.from.nodes) × (last.now.marks.to.count ≤ length links.old.to.nodes) × (last.now.marks.three.count ≤ length links.old.three.nodes) }
    requires from { HoldsRuns 1 (removed links.old.links last.now.id) (at_mark last.now.marks.from links.old.from) }
    requires to { HoldsRuns 2 (removed links.old.links last.now.id) (at_mark last.now.marks.to links.old.to) }
    requires three { HoldsRuns 3 (removed links.old.links last.now.id) (at_mark last.now.marks.three links.old.three) }
{
    links.back(&last.id, &last.marks);
    let count = kept.len().saturating_sub(1);
    kept.truncate(count);
}

/// One step of the balancer in the index of an end, after which the last link can still be taken back.
fn balance(rt: &impl Abort, links: &mut Links, end: u32, last: &Last)
    requires end { (end ≡ 1) ⊎ (end ≡ 2) ⊎ (end ≡ 3) }
    requires counted { (last.now.marks.from.count ≤ length links.old.from.nodes) × (last.now.marks.to.count ≤ length links.old.to.nodes) × (last.now.marks.three.count ≤ length links.old.three.nodes) }
    requires from { HoldsRuns 1 (removed links.old.links last.now.id) (at_mark last.now.marks.from links.old.from) }
    requires to { HoldsRuns 2 (removed links.old.links last.now.id) (at_mark last.now.marks.to links.old.to) }
    requires three { HoldsRuns 3 (removed links.old.links last.now.id) (at_mark last.now.marks.three links.old.three) }
    ensures counted { (last.now.marks.from.count ≤ length links.new.from.nodes) × (last.now.marks.to.count ≤ length links.new.to.nodes) × (last.now.marks.three.count ≤ length links.new.three.nodes) }
    ensures from { HoldsRuns 1 (removed links.new.links last.now.id) (at_mark last.now.marks.from links.new.from) }
    ensures to { HoldsRuns 2 (removed links.new.links last.now.id) (at_mark last.now.marks.to links.new.to) }
    ensures three { HoldsRuns 3 (removed links.new.links last.now.id) (at_mark last.now.marks.three links.new.three) }
{
    let _made = links.balance(end).expect(rt, "memory");
}

/// The same after a step of the balancer at each end.
fn balance_and_go_back(rt: &impl Abort, links: &mut Links, kept: &mut List<Plain>, last: &Last)
    requires below { (last.now.marks.from.root.0 < last.now.marks.from.count) × (last.now.marks.to.root.0 < last.now.marks.to.count) × (last.now.marks.three.root.0 < last.now.marks.three.count) }
    requires counted { (last.now.marks.from.count ≤ length links.old.from.nodes) × (last.now.marks.to.count ≤ length links.old.to.nodes) × (last.now.marks.three.count ≤ length links.old.three.nodes) }
    requires from { HoldsRuns 1 (removed links.old.links last.now.id) (at_mark last.now.marks.from links.old.from) }
    requires to { HoldsRuns 2 (removed links.old.links last.now.id) (at_mark last.now.marks.to links.old.to) }
    requires three { HoldsRuns 3 (removed links.old.links last.now.id) (at_mark last.now.marks.three links.old.three) }
{
    balance(rt, links, 1, last);
    balance(rt, links, 2, last);
    balance(rt, links, 3, last);
    go_back(links, kept, last);
}

fn balance_each(rt: &impl Abort, links: &mut Links) {
    let _from = links.balance(1).expect(rt, "memory");
    let _to = links.balance(2).expect(rt, "memory");
    let _three = links.balance(3).expect(rt, "memory");
}

/// Some steps of the balancer, after which the same is found as before.
fn balanced(
    rt: &impl Abort,
    alloc: Global,
    links: &mut Links,
    kept: &[Plain],
    random: &mut Random,
) {
    let asked = any_asked(rt, alloc, kept, random);
    finds(rt, alloc, links, kept, &asked);
    for _ in 0..random.up_to(8) {
        balance_each(rt, links);
    }
    finds(rt, alloc, links, kept, &asked);
}

/// Four hundred links come in, one after another. Before each the last one is taken back, the indexes are balanced,
/// both, or neither.
fn walk(rt: &impl Abort, alloc: Global, seed: u32) {
    let mut links = Links::new(alloc).expect(rt, "memory");
    let mut kept: List<Plain> = List::new(alloc);
    let mut random = Random { state: seed };
    ask(rt, alloc, &links, kept.as_slice(), &mut random);
    let mut last = come(rt, alloc, &mut links, &mut kept, &mut random);
    for _ in 0..400u32 {
        ask(rt, alloc, &links, kept.as_slice(), &mut random);
        match random.up_to(8) {
            1 | 2 => go_back(&mut links, &mut kept, &last),
            3 => balance_and_go_back(rt, &mut links, &mut kept, &last),
            4 | 5 => balanced(rt, alloc, &mut links, kept.as_slice(), &mut random),
            _ => {}
        }
        ask(rt, alloc, &links, kept.as_slice(), &mut random);
        last = come(rt, alloc, &mut links, &mut kept, &mut random);
    }
}

#[test]
fn links_at_random(rt: HostRuntime) -> Result<(), Fail> {
    walk(&rt, rt.alloc(), 14);
    Ok(())
}
