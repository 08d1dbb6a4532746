//! The modules of a library: their environments, their verdicts and what these say, the names that their
//! texts declare, and the rules that their equations rest on.
//!
//! These are law functions, whose bodies only call those of the crates below.
#![tactic(auto)]

ghost use Rattle.chyp_modules.specs.Checking.{TextsHaveOneResult};
ghost use Rattle.chyp_modules.specs.Explained.{VerdictsAreExplained};
ghost use Rattle.chyp_modules.specs.Laws.{DeclarationsAreDetermined, GeneratorsAreBound, ModulesAreDetermined, NamesComeFromTexts, OriginsDetermineSenses, ProvedRewritesAreDerived, TextsAreDetermined};

use chyp_laws::{graphs_decide_the_laws, rewrites_are_graphs};
use chyp_lex::every_text_has_one_token_list;
use chyp_syntax::{
    each_beginning_of_a_prefix_is_one, each_chunk_is_a_sentence_or_fails,
    each_sentence_has_one_tree, each_text_has_one_list_of_chunks,
};
use chyp_theory::types_are_decided;

/// Each module that is there, and reaches finitely many, has exactly one environment and one list of
/// verdicts; so has each main text over finitely many modules; and each text gives exactly one result. A
/// rewrite that is proved has a derivation from rules that are permitted to it. What the verdicts of a
/// module or of a main text say is so: those rules stand before the rewrite, and where a step is refused,
/// the laws don't derive its equation, no context rewrites its term to its goal, or there are too many
/// placements. Entries of one origin have one meaning in all environments of a library, and each
/// generator of an entry's terms has an entry of its own.
pub fn modules_are_determined()
    ensures modules { ModulesAreDetermined }
    ensures texts { TextsAreDetermined }
    ensures results { TextsHaveOneResult }
    ensures derived { ProvedRewritesAreDerived }
    ensures explained { VerdictsAreExplained }
    ensures senses { OriginsDetermineSenses }
    ensures generators { GeneratorsAreBound }
{
    every_text_has_one_token_list();
    each_text_has_one_list_of_chunks();
    each_chunk_is_a_sentence_or_fails();
    each_beginning_of_a_prefix_is_one();
    each_sentence_has_one_tree();
    types_are_decided();
    graphs_decide_the_laws();
    rewrites_are_graphs();
}

/// What names the statements of a module bind, and from which statement each comes, is told by the texts
/// alone: those that they declare are bound, and no others, in the same order, whatever the verdicts are.
/// What the names stand for comes with the verdicts. Each module that is there, and reaches finitely many,
/// declares exactly one list of names.
pub fn names_come_from_texts()
    ensures bound { NamesComeFromTexts }
    ensures determined { DeclarationsAreDetermined }
{
    every_text_has_one_token_list();
    each_text_has_one_list_of_chunks();
    each_chunk_is_a_sentence_or_fails();
    each_beginning_of_a_prefix_is_one();
    each_sentence_has_one_tree();
    types_are_decided();
    graphs_decide_the_laws();
    rewrites_are_graphs();
}
