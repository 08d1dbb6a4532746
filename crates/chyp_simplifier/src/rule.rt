// Rules of graphs.
ghost use Rattle.std.specs.Prelude.{◌≡◌, All, IfOk, map};
ghost use Rattle.chyp_term.specs.Equation.{equation_of, equations_of};
ghost use Rattle.chyp_simp.specs.Laws.{AreUsable, IsUsable};
ghost use Rattle.chyp_simp.specs.Run as run;
ghost use Rattle.chyp_simplifier.specs.Rule.{IsRule, graphs_of};

use chyp_base::NoMemory;
use chyp_graph::Graph;
use chyp_pattern::Pattern;
use chyp_term::Equation;
use std::alloc::Global;

/// An equation between two terms as a rule, from the left to the right, by their graphs.
#[derive(Debug, Drop)]
pub struct Rule {
    /// The graph of the left side.
    pub left: Pattern,
    /// The graph of the right side.
    pub right: Graph,
}

impl Rule {
    /// The graphs of the two sides of an equation of terms within the limits on one term, in time and
    /// memory in proportion to the terms.
    ///
    /// # Errors
    ///
    /// `NoMemory` where the graphs can't be kept.
    pub fn of(alloc: Global, equation: &Equation) -> Result<Rule, NoMemory>
        requires { IsUsable (equation_of equation.now) }
        ensures graphs { IfOk result (λ rule. graphs_of rule ≡ run.rule_of (equation_of equation.now)) }
        ensures rule { IfOk result IsRule }
    {
        let left = Pattern::of(Graph::of_term(alloc, &equation.left)?)?;
        let right = Graph::of_term(alloc, &equation.right)?;
        Ok(Rule { left, right })
    }
}

/// The rules of equations of terms within the limits on one term, in their order.
///
/// # Errors
///
/// `NoMemory` where they can't be kept.
pub fn rules_of(alloc: Global, equations: &[Equation]) -> Result<Vec<Rule>, NoMemory>
    requires { AreUsable (equations_of equations.now) }
    ensures graphs { IfOk result (λ rules. map graphs_of rules.items ≡ run.rules_of (equations_of equations.now)) }
    ensures rules { IfOk result (λ rules. All IsRule rules.items) }
{
    let mut rules = Vec::with_capacity(alloc, equations.len())?;
    for equation in equations {
        rules.push(Rule::of(alloc, equation)?)?;
    }
    Ok(rules)
}
