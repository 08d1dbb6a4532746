// What is wrong with imports, and what they bind.
ghost use Rattle.std.specs.Prelude.{◌≡◌, ℕ, List, None, Option, IfOk, OnOk, OnErr, option_copied, option_map};
ghost use Rattle.chyp_base.specs.declared.verdict.Verdict.TheVariants.{Accepted};
ghost use Rattle.chyp_syntax.specs.Sentence.{IsSentence};
ghost use Rattle.chyp_syntax.specs.Statement.{inclusion, statement_of};
ghost use Rattle.chyp_syntax.specs.Words.{bytes_at};
ghost use Rattle.chyp_env.specs.Import.{AgreeOnOrigins, all_passed_on, first_clash};
ghost use Rattle.chyp_env.specs.ImportState.{imported_of, site_of};
ghost use Rattle.chyp_env.specs.Site.{Imported, there};
ghost use Rattle.chyp_names.specs.Binding.{Binds};
ghost use Rattle.chyp_names.specs.Elaboration.{fault_of_module, import_fault};

use chyp_base::{NoMemory, Verdict};
use chyp_env::{ChunkView, Env, ImportState, Scope, first_clash};
use chyp_syntax::Ast;

// What is wrong with the import of a module in this state, whose names get this prefix, None where it is in
// order.
#[tactic(auto, unfolding(chyp_env::specs::ImportState::imported_of))]
fn fault_of_module(
    env: &Env,
    import: &ImportState<'_>,
    prefix: Option<&str>,
) -> Result<Option<Verdict>, NoMemory>
    ensures { IfOk result (λ fault. fault ≡ fault_of_module env.now (imported_of import.now) (option_copied prefix.entry)) }
{
    match import {
        ImportState::NotImport => Ok(None),
        ImportState::Absent => Ok(Some(Verdict::NoModule { token: 1 })),
        ImportState::OnCycle => Ok(Some(Verdict::Cycle { token: 1 })),
        ImportState::Module(imported) => {
            let clash = first_clash(env, imported, prefix)?;
            Ok(clash.map(|name| Verdict::Clash { name }))
        }
    }
}

// The number of the word that is the prefix of an import, None where it has none.
#[tactic(auto, using(crate::proofs::Made::prefix_fourth, crate::proofs::Made::prefix_absent))]
fn prefix_token(chunk: &ChunkView<'_>) -> Option<u32>
    ensures { (word : ℕ) (as_word : Option ℕ) → IsSentence chunk.now (inclusion word as_word) → result ≡ as_word }
{
    if chunk.count() == 4 { Some(3) } else { None }
}

// The prefix of an import, which is the word of this number.
fn prefix_at<'a>(chunk: &ChunkView<'a>, token: Option<u32>) -> Option<&'a str>
    requires { (word : ℕ) × IsSentence chunk.now (inclusion word token) }
    ensures { option_copied result ≡ option_map (bytes_at chunk.now) token }
{
    let token = token?;
    chunk.spelled();
    match str::from_utf8(chunk.bytes_at(token)) {
        Ok(prefix) => Some(prefix),
        Err(_) => unreachable!(),
    }
}

/// What is wrong with a statement as an import, None where it is in order as one, or is none.
pub(crate) fn import_fault(
    ast: &Ast,
    scope: &Scope<'_>,
    import: &ImportState<'_>,
) -> Result<Option<Verdict>, NoMemory>
    requires { IsSentence scope.now.words (statement_of ast.now) }
    ensures { (home : List ℕ) → IfOk result (λ fault. fault ≡ import_fault (site_of scope.now home import.now) (statement_of ast.now)) }
{
    match ast {
        Ast::ImportDecl { prefix, .. } => {
            let prefix = prefix_at(scope.chunk(), *prefix);
            fault_of_module(scope.env(), import, prefix)
        }
        _ => Ok(None),
    }
}

/// Binds the names of the module that an import takes in, behind its prefix, but for those that are bound
/// already. Nothing clashes, and what the module has from a statement means what the environment has from
/// it.
///
/// # Errors
///
/// `NoMemory` where they can't be kept; nothing is bound then.
pub(crate) fn bind_import(
    env: &mut Env,
    chunk: &ChunkView<'_>,
    imported: &Env,
) -> Result<(), NoMemory>
    requires import { (word : ℕ) × (as_word : Option ℕ) × IsSentence chunk.now (inclusion word as_word)
        × (first_clash env.old (all_passed_on (option_map (bytes_at chunk.now) as_word) imported.now) ≡ None) }
    requires origins { AgreeOnOrigins env.old (there imported.now) }
    ensures ok { (home : List ℕ) (import' : Imported) (number : ℕ) → import' ≡ there imported.now → OnOk result
        (Binds (record { scope = record { words = chunk.now; env = env.old }; home = home; imported = import' }) number Accepted env.new) }
    ensures err { OnErr result (env.new ≡ env.old) }
{
    chunk.named();
    let prefix = prefix_at(chunk, prefix_token(chunk));
    env.import(imported, prefix)
}
