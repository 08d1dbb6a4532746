// What no run may pass.

/// The most placements of a rule's left side in a graph.
pub const MOST_PLACEMENTS: u64 = 65_536;

/// The most rewrites of one run.
pub const MOST_REWRITES: u32 = 256;
