// Places of a text, as lines and columns.
ghost use Rattle.std.specs.Prelude.{◌≡◌, ◌+◌, ◌≤◌, ◌<◌, ◌++◌, ℕ, length, slice_index_or};
ghost use Rattle.chyp_session.specs.Place.{place_of};

/// A line and a column of a text, each counted from 1; a column counts bytes.
#[derive(Clone, Copy, Debug, PartialEq, Eq)]
pub struct Place {
    /// One more than the number of line ends in front of the place.
    pub line: u64,
    /// One more than the number of bytes between the last of these and the place.
    pub col: u64,
}

/// The place where a text begins.
pub const START: Place = Place { line: 1, col: 1 };

// The byte of the joined text at a place.
fn byte_at(first: &[u8], second: &[u8], at: usize) -> u8
    requires { at < length first.now + length second.now }
    ensures { (other : ℕ) → slice_index_or (first.now ++ second.now) at other ≡ result }
{
    if at < first.len() {
        first[at]
    } else {
        second[at - first.len()]
    }
}

/// The place of the byte `to` of both slices joined, from that of a byte in front of it. It goes over
/// the bytes between alone.
pub fn moved_on(first: &[u8], second: &[u8], place: Place, from: usize, to: usize) -> Place
    requires place { place ≡ place_of (first.now ++ second.now) from }
    requires order { from ≤ to }
    requires within { to ≤ length first.now + length second.now }
    ensures { result ≡ place_of (first.now ++ second.now) to }
{
    let mut place = place;
    for at in from..to {
        if byte_at(first, second, at) == b'\n' {
            place.line += 1;
            place.col = 1;
        } else {
            place.col += 1;
        }
    }
    place
}

/// The place of the byte `at` of both slices joined, or that behind their last byte.
pub fn line_col(first: &[u8], second: &[u8], at: u64) -> Place
    requires within { at ≤ length first.now + length second.now }
    ensures { result ≡ place_of (first.now ++ second.now) at }
{
    moved_on(first, second, START, 0, at as usize)
}
