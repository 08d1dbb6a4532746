//! The term that is read back from a graph: its definition, and the law that its graph is isomorphic
//! to the graph that it is read from.
#![tactic(auto)]

ghost use Rattle.chyp_extract.specs.Replacing.{ReplacedAreValid, ReplacedKeepTypes};
ghost use Rattle.chyp_extract.specs.Laws.{ExtractedDecideGraphs, TermsAreReadBack, ExtractedAreHalved, ExtractedAreIsomorphic, ExtractedAreMeasured, ExtractedAreTyped, ExtractedHaveEdges, ExtractedHaveTypes};

/// Over all valid graphs: the term that is read back has a type, which goes from the sorts of the
/// inputs to those of the outputs, and its graph is isomorphic to the graph that it is read from.
pub fn extracted_is_isomorphic()
    ensures typed { ExtractedAreTyped }
    ensures types { ExtractedHaveTypes }
    ensures isomorphic { ExtractedAreIsomorphic }
{}

/// Over all valid graphs: the term that is read back is as big as its rounds say, which is told
/// without making it, and it has one generator for each edge.
pub fn extracted_is_measured()
    ensures measures { ExtractedAreMeasured }
    ensures generators { ExtractedHaveEdges }
{}

/// Over all graphs: a term that is read back stays the same where its chains are halved anew, as
/// they are where its text is read.
pub fn extracted_is_halved()
    ensures { ExtractedAreHalved }
{}

/// Over all valid graphs: the terms that are read back are equal by the monoidal laws exactly where
/// the graphs are isomorphic. A typed term is equal by the laws to what is read back from its graph.
pub fn extracted_decides_graphs()
    ensures graphs { ExtractedDecideGraphs }
    ensures terms { TermsAreReadBack }
{}

/// Over all valid graphs: a graph with an occurrence replaced by a graph of the same type is valid, and
/// has the type that it had.
pub fn replaced_are_valid()
    ensures valid { ReplacedAreValid }
    ensures types { ReplacedKeepTypes }
{}
