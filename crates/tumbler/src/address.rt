//! The forms of accounts, documents, content bytes and links.
ghost use Rattle.std.specs.Prelude.{◌≡◌, ◌≢◌, ℕ, ◌+◌, ◌-◌, ◌<◌, ◌≤◌, ◌↔◌, ◌⊎◌, List, [], ◌∷◌, ◌++◌, length, take, All, IsTrue, IfSome, IfNone};
ghost use Rattle.tumbler.specs.Address.{IsField, IsAccount, IsDocument, IsDocumentOf, IsMadeIn};
ghost use Rattle.tumbler.specs.Places.{EndsWell};

/// The most places that an account's address has.
const MOST_ACCOUNT_PLACES: usize = 12;

/// The most places that a document's address has.
pub const MOST_DOCUMENT_PLACES: usize = 20;

/// The places before the first 0 and those after it, or nothing where there is no 0.
fn split_at_zero(places: &[u32]) -> Option<(&[u32], &[u32])>
    ensures parts { IfSome result (λ parts. places.now ≡ parts.0.now ++ 0 ∷ parts.1.now) }
    ensures full { IfSome result (λ parts. All (λ p. 0 < p) parts.0.now) }
    ensures none { IfNone result (All (λ p. 0 < p) places.now) }
{
    for (k, place) in places.iter().enumerate() {
        if *place == 0 {
            return Some((places.split_at(k).0, places.split_at(k + 1).1));
        }
    }
    None
}

fn is_field(places: &[u32]) -> bool
    ensures { IsTrue result ↔ IsField places.now }
{
    match split_at_zero(places) {
        Some(_) => false,
        None => !places.is_empty(),
    }
}

pub(crate) fn is_account(places: &[u32]) -> bool
    ensures { IsTrue result ↔ IsAccount places.now }
{
    let Some((node, user)) = split_at_zero(places) else {
        return false;
    };
    if places.len() > MOST_ACCOUNT_PLACES || node.is_empty() {
        return false;
    }
    is_field(user)
}

/// How many places the account of a document has, if the places are a document's.
pub(crate) fn account_len(places: &[u32]) -> Option<usize>
    ensures found { IfSome result (λ n. IsDocumentOf places.now (take n places.now)) }
    ensures none { IfNone result (¬ IsDocument places.now) }
{
    let Some((node, rest)) = split_at_zero(places) else {
        return None;
    };
    let Some((user, field)) = split_at_zero(rest) else {
        return None;
    };
    let n = node.len() + 1 + user.len();
    if places.len() > MOST_DOCUMENT_PLACES {
        return None;
    }
    if !is_account(places.split_at(n).0) {
        return None;
    }
    if !is_field(field) {
        return None;
    }
    Some(n)
}

/// Whether this is the part of content bytes, 1, or the part of links, 2.
fn is_part(place: u32) -> bool
    ensures { IsTrue result ↔ (place ≡ 1) ⊎ (place ≡ 2) }
{
    matches!(place, 1 | 2)
}

/// How many places the document of a content byte or a link has, if the places are the address of one.
pub(crate) fn document_len(places: &[u32]) -> Option<usize>
    requires { EndsWell places.now }
    ensures found { IfSome result (λ n. IsMadeIn places.now (take n places.now)) }
    ensures none { IfNone result ((document : List ℕ) → ¬ IsMadeIn places.now document) }
{
    if places.len() < 3 {
        return None;
    }
    let n = places.len() - 3;
    if places[n] != 0 {
        return None;
    }
    if !is_part(places[n + 1]) {
        return None;
    }
    match account_len(places.split_at(n).0) {
        Some(_) => Some(n),
        None => None,
    }
}
