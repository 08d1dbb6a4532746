// Pictures with their crossings.
ghost use Rattle.std.specs.Prelude.{◌≡◌, cond, nat_lt};

use chyp_picture::Picture;

/// A picture, and how many crossings it has.
#[derive(Debug, Drop)]
pub(crate) struct Drawn {
    /// The picture.
    pub(crate) picture: Picture,
    /// The number of its crossings.
    pub(crate) crossings: u128,
}

impl Drawn {
    /// The other picture, if it has fewer crossings, or else this one.
    pub(crate) fn or_better(self, other: Drawn) -> Drawn
        ensures { result ≡ cond (nat_lt other.crossings self.crossings) other self }
    {
        if other.crossings < self.crossings {
            other
        } else {
            self
        }
    }
}
