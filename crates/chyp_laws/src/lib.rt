//! What graphs say of the laws of symmetric monoidal categories: law functions, whose bodies are
//! empty.
//!
//! `derivation_gives_same` says that two terms which the laws derive have isomorphic graphs, and
//! `same_gives_derivation` that two typed terms with isomorphic graphs have a derivation; each is
//! called for two given terms. `graphs_decide_the_laws` says both over all terms, that the graph of a
//! typed term is valid, and that of two typed terms there is a derivation or there is none. A
//! derivation is that of `chyp_term`, which names no graph; the graph of a term and isomorphism are
//! those of `chyp_graph`.
#![tactic(auto)]

ghost use Rattle.std.specs.Prelude.{[]};
ghost use Rattle.chyp_term.specs.Derivation.{Derives, IsEquation};
ghost use Rattle.chyp_term.specs.Morphism.{IsTyped};
ghost use Rattle.chyp_term.specs.Rewriting.{RewritesInContext};
ghost use Rattle.chyp_term.specs.Term.{morphism_of};
ghost use Rattle.chyp_graph.specs.GraphOf.{graph_of};
ghost use Rattle.chyp_graph.specs.Isomorphism.{Isomorphic};
ghost use Rattle.chyp_pattern.specs.Occurrence.{IsOccurrence};
ghost use Rattle.chyp_laws.specs.Laws.{DerivationsAreIsomorphisms, GraphsOfTermsAreValid, IsomorphismsAreDerivations, LawsAreDecided};
ghost use Rattle.chyp_laws.specs.Rewriting.{GivesContext, IsRewritten, RewritesAreDecided, RewritesAreGraphs};

use chyp_pattern::Occurrence;
use chyp_term::Term;

/// Terms with a derivation by the monoidal laws have isomorphic graphs.
pub fn derivation_gives_same(s: &Term, t: &Term)
    requires { Derives [] (morphism_of s.now) (morphism_of t.now) }
    ensures { Isomorphic (graph_of (morphism_of s.now)) (graph_of (morphism_of t.now)) }
{}

/// Typed terms with isomorphic graphs have a derivation by the monoidal laws.
pub fn same_gives_derivation(s: &Term, t: &Term)
    requires left { IsTyped (morphism_of s.now) }
    requires right { IsTyped (morphism_of t.now) }
    requires same { Isomorphic (graph_of (morphism_of s.now)) (graph_of (morphism_of t.now)) }
    ensures { Derives [] (morphism_of s.now) (morphism_of t.now) }
{}

/// Over all terms: typed terms have a derivation by the monoidal laws exactly where their graphs are
/// isomorphic, these graphs are valid, and so either there is a derivation or there is none. It is the
/// theorem on symmetric monoidal categories of Bonchi, Gadducci, Kissinger, Sobociński and Zanasi,
/// String Diagram Rewrite Theory II, for graphs with numbered wires.
pub fn graphs_decide_the_laws()
    ensures sound { DerivationsAreIsomorphisms }
    ensures complete { IsomorphismsAreDerivations }
    ensures valid { GraphsOfTermsAreValid }
    ensures decided { LawsAreDecided }
{}

/// An occurrence of the graph of l in that of t gives a context: by the monoidal laws t is the context
/// of l, and each term whose graph is the replaced one is the context of r.
pub fn occurrence_gives_context(t: &Term, l: &Term, r: &Term, at: &Occurrence)
    requires typed { IsTyped (morphism_of t.now) }
    requires rule { IsEquation (morphism_of l.now) (morphism_of r.now) }
    requires occurs { IsOccurrence (graph_of (morphism_of l.now)) (graph_of (morphism_of t.now)) at.now.edges at.now.wires }
    ensures { GivesContext (morphism_of l.now) (morphism_of r.now) (morphism_of t.now) at.now.edges at.now.wires }
{}

/// A rewrite of t to u by l = r in a context is one at some occurrence of the graph of l in that of t.
pub fn context_gives_occurrence(t: &Term, l: &Term, r: &Term, u: &Term)
    requires rule { IsEquation (morphism_of l.now) (morphism_of r.now) }
    requires rewrites { RewritesInContext (morphism_of l.now) (morphism_of r.now) (morphism_of t.now) (morphism_of u.now) }
    ensures { IsRewritten (morphism_of l.now) (morphism_of r.now) (morphism_of t.now) (morphism_of u.now) }
{}

/// Over all terms: rewriting in a context is rewriting of graphs at convex occurrences, and so it is
/// decided. It is the theorem of Bonchi, Gadducci, Kissinger, Sobociński and Zanasi, String Diagram
/// Rewrite Theory II, for graphs with numbered wires.
pub fn rewrites_are_graphs()
    ensures exact { RewritesAreGraphs }
    ensures decided { RewritesAreDecided }
{}
