// Where names come from.
ghost use Rattle.std.specs.Prelude.{◌≡◌, IfOk};

use chyp_base::{Name, NoMemory};

/// The statement that bound a name.
#[derive(Debug, PartialEq, Eq, Drop)]
pub struct Origin {
    /// The name of its module, empty for the main text.
    pub module: Name,
    /// Its number in that module, from 0.
    pub index: u32,
}

impl Origin {
    /// The same statement.
    ///
    /// # Errors
    ///
    /// `NoMemory` where the name of its module can't be shared once more.
    pub fn share(&self) -> Result<Origin, NoMemory>
        ensures { IfOk result (λ origin. origin ≡ self.now) }
    {
        Ok(Origin {
            module: self.module.share()?,
            index: self.index,
        })
    }
}
