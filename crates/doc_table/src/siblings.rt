//! The addresses that counts are kept at.
ghost use Rattle.std.specs.Prelude.{◌≡◌, ◌<◌, ◌++◌, ◌∷◌, [], length};
ghost use Rattle.tumbler.specs.Places.{most_places};
ghost use Rattle.doc_table.specs.inside.Kept.{first_sibling};

use smallvec::SmallVec;
use std::alloc::Global;
use tumbler::Tumbler;

/// The address with 1 as its last place. Those of two documents are equal exactly if the documents differ in the last
/// place alone.
#[tactic(auto, using(crate::proofs::Counted::sibling_front))]
pub(crate) fn first_sibling(document: &Tumbler) -> Tumbler
    ensures { result ≡ first_sibling document.now }
{
    let places = document.places();
    if places.is_empty() {
        return document.copy();
    }
    let (front, _) = places.split_at(places.len() - 1);
    let sibling = with_one(document.allocator(), front);
    Tumbler::from_places(document.allocator(), sibling.as_slice()).unwrap()
}

/// The places and then 1.
fn with_one(alloc: Global, front: &[u32]) -> SmallVec<u32, 24>
    requires { length front.now < most_places }
    ensures items { result.items ≡ front.now ++ 1 ∷ [] }
    ensures inline { result.capacity ≡ most_places }
{
    let mut held = SmallVec::from_slice(alloc, front).unwrap();
    held.push_reserved(1);
    held
}
