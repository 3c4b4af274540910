//! A law: contents have their bytes in one order alone. It is a function that does nothing, whose contract says the law.
ghost use Rattle.tree_compare.specs.Laws.{SameBytesInOrder};

/// Trees of contents that have the same bytes in whatever order have them in the same order, so that `same_bytes` tells
/// whether they stand for the same bytes of a world, which are known up to their order.
pub fn same_bytes_in_order()
    ensures { SameBytesInOrder }
{}
