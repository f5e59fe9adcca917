use crate::Item;

/// The lane was full, and the item comes back.
#[derive(Debug, Drop, PartialEq, Eq)]
pub struct Full<P> {
    pub item: Item<P>,
}
