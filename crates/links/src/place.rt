//! Where a link stands among others in order.
ghost use Rattle.std.specs.Prelude.{◌≡◌, IfSome, IfNone, false};
ghost use Rattle.std.specs.List.{prefix_len};
ghost use Rattle.links.specs.LinkLists.{ids_in, has_in};
ghost use Rattle.links.specs.inside.Kept.{unboxed, IsAscending, is_before, IsAt};

use crate::row::LinkRow;
use tumbler::Tumbler;

/// How many links have a lesser id.
pub(crate) fn place(links: &[Box<LinkRow>], id: &Tumbler) -> usize
    requires { IsAscending (ids_in (unboxed links.now)) }
    ensures { result ≡ prefix_len (is_before id.now) links.now }
{
    links.partition_point(|link| link.id.is_before(id))
}

/// Where the link of the id is, if it is there.
pub(crate) fn find(links: &[Box<LinkRow>], id: &Tumbler) -> Option<usize>
    requires { IsAscending (ids_in (unboxed links.now)) }
    ensures found { IfSome result (IsAt id.now links.now) }
    ensures none { IfNone result (has_in (unboxed links.now) id.now ≡ false) }
{
    let at = place(links, id);
    if at >= links.len() {
        return None;
    }
    let link = &links[at];
    if link.id != *id {
        return None;
    }
    Some(at)
}
