// Runs of rules.
ghost use Rattle.std.specs.Prelude.{All, IfOk, map};
ghost use Rattle.chyp_simp.specs.Run.{Ends};
ghost use Rattle.chyp_simplifier.specs.Rule.{IsRule, IsSmall, graphs_of, most_size};

use crate::Rule;
use crate::round::{Round, apply_first};
use chyp_base::NoMemory;
use chyp_graph::Graph;
use chyp_simp::{Ending, MOST_REWRITES};

/// Rewrites the graph by the rules as far as they go: again and again the first rule that has an
/// occurrence is applied at its least one. It ends in a normal form, in which no rule has an
/// occurrence; at a rule with more than 65,536 placements, where none before it has an occurrence; or
/// at the limit, where one more rewrite would follow on 256.
///
/// # Errors
///
/// `NoMemory` where a graph can't be kept or searched.
pub fn run(rules: &[Rule], graph: Graph) -> Result<Ending, NoMemory>
    requires rules { All IsRule rules.now }
    requires small { IsSmall most_size graph }
    ensures { IfOk result (Ends (map graphs_of rules.now) graph) }
{
    let mut form = graph;
    let mut rewrites = 0;
    loop {
        match apply_first(rules, &form)? {
            Round::Idle => return Ok(Ending::NormalForm(form)),
            Round::TooWide { placements } => return Ok(Ending::TooWide { placements }),
            Round::Rewritten(next) => {
                if rewrites == MOST_REWRITES {
                    return Ok(Ending::AtLimit);
                }
                rewrites += 1;
                form = next;
            }
        }
    }
}
