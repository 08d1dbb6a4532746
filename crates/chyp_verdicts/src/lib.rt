//! The verdicts of statements, as definitions and laws: law functions, whose bodies only call those of the
//! crates below.
//!
//! `specs/` says which verdict a statement gets where it stands (`Judged`), and by the steps of a rewrite
//! (`Steps`). Each statement has exactly one, which names no token but its own (`Sites`). `Rules` says on
//! which `rule` statements a statement rests, whichever stand where (`Standing`); `Explained` what the
//! verdicts say: a rewrite that is proved has a derivation from rules that stand before it, and a step
//! that is refused has none of its kind.
#![tactic(auto)]

ghost use Rattle.chyp_verdicts.specs.Rules.{ProvedRewritesFollow};
ghost use Rattle.chyp_verdicts.specs.Sites.{EachStatementHasOneVerdict, EachStatementMakesOneEnvironment, EachVerdictNamesAToken};

use chyp_laws::{graphs_decide_the_laws, rewrites_are_graphs};
use chyp_lex::every_text_has_one_token_list;
use chyp_syntax::{
    each_beginning_of_a_prefix_is_one, each_chunk_is_a_sentence_or_fails,
    each_sentence_has_one_tree, each_text_has_one_list_of_chunks,
};
use chyp_theory::types_are_decided;

/// Each statement has exactly one verdict, in whatever module it stands, behind whatever sound
/// environment, and whatever is known of its import; and with that verdict it makes exactly one
/// environment.
pub fn each_statement_has_one_verdict()
    ensures verdict { EachStatementHasOneVerdict }
    ensures environment { EachStatementMakesOneEnvironment }
{
    every_text_has_one_token_list();
    each_text_has_one_list_of_chunks();
    each_chunk_is_a_sentence_or_fails();
    each_beginning_of_a_prefix_is_one();
    each_sentence_has_one_tree();
    types_are_decided();
    graphs_decide_the_laws();
    rewrites_are_graphs();
}

/// A rewrite that is proved, wherever it stands, follows from the equations that it cites.
pub fn proved_rewrites_follow()
    ensures { ProvedRewritesFollow }
{
    every_text_has_one_token_list();
    each_text_has_one_list_of_chunks();
    each_chunk_is_a_sentence_or_fails();
    each_beginning_of_a_prefix_is_one();
    each_sentence_has_one_tree();
    types_are_decided();
    graphs_decide_the_laws();
    rewrites_are_graphs();
}

/// A verdict that names a token names one of its statement, or the place behind the last one, where the
/// end shows that it is no sentence.
pub fn each_verdict_names_a_token()
    ensures { EachVerdictNamesAToken }
{}
