// Statements with what names stand for in front of them.
ghost use Rattle.std.specs.Prelude.{◌≡◌, IfSome, IfNone, Some, None};
ghost use Rattle.chyp_env.specs.Entry.{entry_of};
ghost use Rattle.chyp_env.specs.Scope.{binding_at, is_declared};

use crate::{ChunkView, Entry, Env};
use std::marker::Model;

/// A statement, with what names stand for in front of it.
#[derive(Drop)]
pub struct Scope<'a> {
    chunk: &'a ChunkView<'a>,
    env: &'a Env,
}

impl<'a> Model for Scope<'a> {
    ghost use Rattle.chyp_env.specs.Coded.{scope_code};
    ghost use Rattle.chyp_env.specs.Scope.{Scope as the_scope};

    ghost Value = { the_scope };

    ghost coded = { scope_code };

    ghost view = { λ s. record { words = s.chunk.now; env = s.env.now } };
}

impl<'a> Scope<'a> {
    /// The statement in front of which names stand for what they do in this environment.
    pub fn new(chunk: &'a ChunkView<'a>, env: &'a Env) -> Scope<'a>
        ensures { result ≡ record { words = chunk.now; env = env.now } }
    {
        Scope { chunk, env }
    }

    /// The statement.
    pub fn chunk(&self) -> &'a ChunkView<'a>
        ensures { result.now ≡ self.now.words }
    {
        self.chunk
    }

    /// What names stand for in front of it.
    pub fn env(&self) -> &'a Env
        ensures { result.now ≡ self.now.env }
    {
        self.env
    }

    /// What the name stands for that the word of this number is, None where it is not bound.
    pub fn entry_at(&self, token: u32) -> Option<&'a Entry>
        ensures some { IfSome result (λ entry. binding_at self.now token ≡ Some (entry_of entry.now)) }
        ensures none { IfNone result (binding_at self.now token ≡ None) }
    {
        self.env.lookup(self.chunk.bytes_at(token))
    }

    /// Whether the statement would bind a name that is bound already.
    pub fn is_declared(&self) -> bool
        ensures { result ≡ is_declared self.now }
    {
        match self.chunk.declared_name() {
            Some(name) => self.env.lookup(name).is_some(),
            None => false,
        }
    }
}
