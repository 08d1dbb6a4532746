// Bytes by which a name is looked up.
ghost use Rattle.std.specs.Prelude.{◌≡◌, ◌↔◌, IsTrue};
ghost use Rattle.std.specs.Cmp.{on_equiv, partial_equiv_from_equiv};
ghost use Rattle.std.specs.Cmp.Lexicographic.{bytes_decides, nat_list_eq_equiv};
ghost use Rattle.std.specs.Hash as fed;
ghost use Rattle.std.specs.Str.{bytes_eq};
ghost use Rattle.std.proofs.Common.{ap};

use chyp_base::Name;
use indexmap::Equivalent;
use std::hash::{Hash, Hasher};

/// Bytes, which are hashed as the name is that has them: a name is looked up by the bytes of a text, and
/// nothing is copied.
#[derive(Clone, Copy)]
pub(crate) struct Spelling<'a> {
    /// The bytes.
    pub(crate) bytes: &'a [u8],
}

impl<'a> PartialEq for Spelling<'a> {
    ghost eq = { λ a b. bytes_eq a.bytes.now b.bytes.now };

    ghost laws = { partial_equiv_from_equiv (on_equiv (λ s. s.bytes.now) nat_list_eq_equiv) };

    fn eq(&self, other: &Spelling<'a>) -> bool {
        self.bytes == other.bytes
    }
}

impl<'a> Eq for Spelling<'a> {
    ghost laws = { on_equiv (λ s. s.bytes.now) nat_list_eq_equiv };
}

impl<'a> Hash for Spelling<'a> {
    ghost hash_input = { λ s. fed.str s.bytes.now };

    ghost respects_eq = { λ a b h. ap fed.str ((bytes_decides a.bytes.now b.bytes.now).0 h) };

    fn hash<H: Hasher>(&self, state: &mut H) {
        state.write(self.bytes);
        state.write_u8(255);
    }
}

impl<'a> Equivalent<Name> for Spelling<'a> {
    ghost equivalent = { λ s name. bytes_eq s.bytes.now name };

    ghost respects_hash = { λ s name h. ap fed.str ((bytes_decides s.bytes.now name).0 h) };

    ghost respects_eq = { λ s. nat_list_eq_equiv.congr s.bytes.now };

    fn equivalent(&self, key: &Name) -> bool {
        self.bytes == key.as_str().as_bytes()
    }
}
