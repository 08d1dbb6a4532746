// What names stand for.
ghost use Rattle.std.specs.Prelude.{◌≡◌, IfOk};
ghost use Rattle.chyp_env.specs.Entry.{sense_of};
ghost use Rattle.chyp_term.specs.Equation.{equation_of};

use crate::KnownTerm;
use crate::known_term::share_shape;
use chyp_base::{Name, NoMemory};
use chyp_term::{Equation, Shape, copy};

/// What a name stands for. Contracts see it through `sense_of` of `specs/Entry.antt`.
#[derive(Debug, Drop)]
pub enum Meaning {
    /// A generator, by its name in terms and its type.
    Generator(Name, Shape),
    /// A term.
    Abbrev(KnownTerm),
    /// An equation, which leads from its left side to its right one: that of a `rule` or of a proved `rewrite`.
    Law(Equation),
    /// A rewrite that is not proved.
    Unproved,
    /// A `gen`, `let` or `rule` that was refused.
    Broken,
}

impl Meaning {
    /// The same meaning, which shares its terms with this one. It takes constant time.
    ///
    /// # Errors
    ///
    /// `NoMemory` where a part can't be shared once more.
    pub fn share(&self) -> Result<Meaning, NoMemory>
        ensures { IfOk result (λ meaning. sense_of meaning ≡ sense_of self.now) }
    {
        match self {
            Meaning::Generator(name, shape) => {
                Ok(Meaning::Generator(name.share()?, share_shape(shape)?))
            }
            Meaning::Abbrev(term) => Ok(Meaning::Abbrev(term.share()?)),
            Meaning::Law(law) => Ok(Meaning::Law(share_equation(law)?)),
            Meaning::Unproved => Ok(Meaning::Unproved),
            Meaning::Broken => Ok(Meaning::Broken),
        }
    }
}

// The same equation.
fn share_equation(equation: &Equation) -> Result<Equation, NoMemory>
    ensures { IfOk result (λ same. equation_of same ≡ equation_of equation.now) }
{
    Ok(Equation {
        left: copy(&equation.left)?,
        right: copy(&equation.right)?,
    })
}
