// How far a search has come.

/// A component of a pattern that has an image.
#[derive(Clone, Copy, Debug)]
pub(crate) struct Level {
    /// The number of the edge or the wire that its anchor goes to.
    pub(crate) image: u32,
    /// The place behind that of the image, among those with which the component may begin.
    pub(crate) next: usize,
    /// The number of pairs before it.
    pub(crate) pairs: usize,
}
