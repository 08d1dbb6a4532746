// Where a graph that is rewritten differs from the one that is to come out.
ghost use Rattle.std.specs.Prelude.{IfOk, IfSome, length, ⊤};
ghost use Rattle.std.specs.Bool.{MatchBool};
ghost use Rattle.chyp_graph.specs.Validity.{IsValid};
ghost use Rattle.chyp_pattern.specs.Occurrence.{IsOccurrence};
ghost use Rattle.chyp_judge.specs.Rewrite.{IsRewrite, Reaches};
ghost use Rattle.chyp_judge.specs.Differences.{AreDifferences};
ghost use Rattle.chyp_judge.specs.Walk.{IsDifference};

use crate::difference::Difference;
use crate::rewrite::Rewrite;
use chyp_base::NoMemory;
use chyp_pattern::Occurrence;
use std::alloc::Global;

/// The first differences from the inputs and from the outputs of a graph that is rewritten, where
/// there are such.
#[derive(Drop)]
pub(crate) struct Differences {
    pub(crate) inputs: Option<Difference>,
    pub(crate) outputs: Option<Difference>,
}

/// No differences are known.
pub(crate) fn none_known() -> Differences
    ensures known { (s : _) → AreDifferences s result }
{
    Differences {
        inputs: None,
        outputs: None,
    }
}

/// The first difference from the inputs.
fn from_inputs(alloc: Global, rewrite: &Rewrite) -> Result<Option<Difference>, NoMemory>
    requires { IsRewrite rewrite.now }
    ensures { IfOk result (λ found. IfSome found (λ difference. IsDifference rewrite.now difference.path.items)) }
{
    Difference::from_ends(alloc, rewrite, rewrite.from.inputs(), rewrite.to.inputs())
}

/// The first difference from the outputs.
fn from_outputs(alloc: Global, rewrite: &Rewrite) -> Result<Option<Difference>, NoMemory>
    requires { IsRewrite rewrite.now }
    ensures { IfOk result (λ found. IfSome found (λ difference. IsDifference rewrite.now difference.path.items)) }
{
    Difference::from_ends(alloc, rewrite, rewrite.from.outputs(), rewrite.to.outputs())
}

/// The differences of the graph that is rewritten and the one that is to come out. It takes time and
/// memory in proportion to the graph that is rewritten.
pub(crate) fn find_differences(alloc: Global, rewrite: &Rewrite) -> Result<Differences, NoMemory>
    requires { IsRewrite rewrite.now }
    ensures { IfOk result (AreDifferences rewrite.now) }
{
    Ok(Differences {
        inputs: from_inputs(alloc, rewrite)?,
        outputs: from_outputs(alloc, rewrite)?,
    })
}

/// Whether the occurrence leaves a difference where it is.
fn leaves(rewrite: &Rewrite, difference: &Option<Difference>, at: &Occurrence) -> bool
    requires known { IfSome difference.now (λ known. IsDifference rewrite.now known.path.items) }
    requires occurs { IsOccurrence rewrite.now.left.graph rewrite.now.from at.now.edges at.now.wires }
    ensures { MatchBool result (Reaches rewrite.now at.now → ⊥) ⊤ }
{
    match difference {
        Some(known) => known.is_spared_by(at),
        None => false,
    }
}

/// Whether the occurrence leaves one of the differences where it is, so that it doesn't reach the
/// graph that is to come out.
pub(crate) fn is_ruled_out(rewrite: &Rewrite, known: &Differences, at: &Occurrence) -> bool
    requires known { AreDifferences rewrite.now known.now }
    requires occurs { IsOccurrence rewrite.now.left.graph rewrite.now.from at.now.edges at.now.wires }
    ensures { MatchBool result (Reaches rewrite.now at.now → ⊥) ⊤ }
{
    leaves(rewrite, &known.inputs, at) || leaves(rewrite, &known.outputs, at)
}
