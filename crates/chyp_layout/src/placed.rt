// Items with their spots.
use crate::item::Item;
use crate::spot::Spot;

/// An item, and where it stands.
#[derive(Clone, Copy, Debug)]
pub struct Placed {
    /// The item.
    pub item: Item,
    /// Where it stands.
    pub spot: Spot,
}
