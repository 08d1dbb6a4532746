// The trees of terms.
use sqlite_items::Items;

/// Terms, in order.
pub type TermAsts = Items<TermAst>;

/// Tokens, by their numbers within the chunk.
pub type Spots = Items<u32>;

/// Numbers that are written in the text.
pub type Numbers = Items<u64>;

/// A term as it is written. A `u32` is the number of a token within the chunk.
///
/// A chain or a tensor of one part is that part's tree, and parentheses leave no node of their own.
#[derive(Debug, Drop)]
pub enum TermAst {
    /// A name.
    Named(u32),
    /// `id`, one wire.
    Wire,
    /// `id0`, the empty diagram.
    Empty,
    /// `sw`, with its places where they are written.
    Swap { token: u32, places: Option<Numbers> },
    /// Terms with `;` between them, and the tokens of the `;`.
    Chain { parts: TermAsts, semis: Spots },
    /// Terms with `*` between them.
    Beside(TermAsts),
}
