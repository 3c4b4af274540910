//! Whether rows of bytes stand apart.
ghost use Rattle.std.specs.Prelude.{◌≡◌, ◌↔◌, map, All, IsTrue};
ghost use Rattle.tumbler.specs.Places.{IsUpTo};
ghost use Rattle.enfilade_core.specs.Axes.{InOrder, IsWellFormedRow};
ghost use Rattle.enfilade_core.specs.Plain.{plain_row};
ghost use Rattle.enfilade_core.specs.Planes.{content_widths, plain_text};
ghost use Rattle.granfilade.specs.Puts.{end_of_row, Linked};

use enfilade_core::{ContentPlane, Plane, Row};
use tumbler::{Text, Tumbler};

/// The address after a row's last byte.
fn end_of(row: &Row<Text>) -> Tumbler
    requires { IsWellFormedRow content_widths (plain_row plain_text row.now) }
    ensures { result ≡ end_of_row (plain_row plain_text row.now) }
{
    row.first.add(&ContentPlane::first_width(row))
}

/// Whether all rows behind a row begin at its end or past it.
fn ends_before(row: &Row<Text>, behind: &[Row<Text>]) -> bool
    requires well_formed { IsWellFormedRow content_widths (plain_row plain_text row.now) }
    requires ordered { InOrder (map (plain_row plain_text) behind.now) }
    ensures { IsTrue result ↔ All (λ other. IsUpTo (end_of_row (plain_row plain_text row.now)) other.first) (map (plain_row plain_text) behind.now) }
{
    let Some((next, _)) = behind.split_first() else {
        return true;
    };
    !next.first.is_before(&end_of(row))
}

/// Whether each row begins at the ends of those in front of it or past them.
pub(crate) fn are_apart(rows: &[Row<Text>]) -> bool
    requires each { All (IsWellFormedRow content_widths) (map (plain_row plain_text) rows.now) }
    requires ordered { InOrder (map (plain_row plain_text) rows.now) }
    ensures { IsTrue result ↔ Linked end_of_row (map (plain_row plain_text) rows.now) }
{
    let mut rest = rows;
    while let Some((row, behind)) = rest.split_first() {
        if !ends_before(row, behind) {
            return false;
        }
        rest = behind;
    }
    true
}
