// Terms as texts, with the names of an environment.
ghost use Rattle.std.specs.Prelude.{◌≡◌, IfOk};
ghost use Rattle.chyp_term.specs.Term.{morphism_of};
ghost use Rattle.chyp_graph.specs.PlainGraph.{PlainGraph};
ghost use Rattle.chyp_extract.specs.Extraction.{extracted};
ghost use Rattle.chyp_extract.specs.Rehalving.{rehalved};
ghost use Rattle.chyp_print.specs.Environments.{CanBePrintedIn, meaning_in, printed};
ghost use Rattle.chyp_print.specs.Reading.{ReadsAs};

use crate::first_names::FirstNames;
use crate::laws::printed_terms_are_read_back;
use crate::printer::print;
use chyp_base::{NoMemory, Text};
use chyp_env::Env;
use chyp_term::Term;
use std::alloc::Global;

/// The text of a term, with each generator by the first name that stands for it in an environment. The term
/// is typed, its permutations are of plain wires, each of its generators has an entry, and it is at most 256
/// deep. It takes time in proportion to the text and to the environment, which it goes through once, and goes by
/// recursion as deep as the term.
///
/// # Errors
///
/// `NoMemory` where the text, or what is kept of the environment meanwhile, can't be kept.
pub fn print_term(alloc: Global, term: &Term, env: &Env) -> Result<Text, NoMemory>
    requires { CanBePrintedIn env.now (morphism_of term.now) }
    ensures text { IfOk result (λ text. text ≡ printed env.now (morphism_of term.now)) }
    ensures back { IfOk result (λ text. ReadsAs (meaning_in env.now) text (rehalved (morphism_of term.now))) }
    ensures itself { IfOk result (λ text. (g : PlainGraph) → morphism_of term.now ≡ extracted g
        → ReadsAs (meaning_in env.now) text (morphism_of term.now)) }
{
    env.sound();
    env.closed();
    printed_terms_are_read_back();
    let names = FirstNames::of(alloc, env)?;
    print(alloc, term, &names)
}
