// What no term of a text may pass.

/// The most wires on one side of a generator.
pub const MOST_PORTS: u64 = 64;

/// The most generators in one term.
pub const MOST_GENERATORS: u64 = 1_024;

/// The greatest size of one term.
pub const MOST_SIZE: u64 = 200_000;

/// The greatest depth of one term.
pub const MOST_DEPTH: u64 = 256;
