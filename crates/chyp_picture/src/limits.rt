// What no whole picture may pass.

/// The most boxes and bends of a picture.
pub const MOST_POINTS: u64 = 65_536;

/// The most lines of a picture: 2^32.
pub const MOST_LINES: u64 = 4_294_967_296;

/// The most bytes of the name of a box: 2^32.
pub const LONGEST_NAME: u64 = 4_294_967_296;

/// The number below which those are from which heights are drawn: 2^40.
pub const HEIGHT_BOUND: u64 = 1_099_511_627_776;
