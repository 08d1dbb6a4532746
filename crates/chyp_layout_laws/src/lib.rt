//! What the picture of a graph promises: laws on the definition that `layout` of `chyp_layout` follows;
//! no command draws yet.
//!
//! Boxes stand in layers by longest paths, and no two overlap; lines pass each column between their
//! ends; the picture is whole, has at most the crossings of the first order, and read back it is the
//! graph. All but `picture_is_whole` have empty bodies and speak of all graphs; that one is called for
//! a given graph.
#![tactic(auto)]

ghost use Rattle.std.specs.Prelude.{◌≤◌, All, length};
ghost use Rattle.chyp_picture.specs.Limits.{longest_name, most_points};
ghost use Rattle.chyp_picture.specs.Picture.{IsWhole};
ghost use Rattle.chyp_layout.specs.PictureOf.{picture_of, points_of};
ghost use Rattle.chyp_layout_laws.specs.Laws.{BoxesAreApart, BoxesFollowTheirSources, BoxesStandInColumns, CrossingsAreFew, LinesPassAllColumns, PicturesAreReadBack, PicturesAreWhole, PicturesTellGraphsApart, PointsAreCounted};

use chyp_graph::Graph;

/// Over all graphs: the picture has at most the crossings that the first order has, before any sweep.
pub fn crossings_are_few()
    ensures { CrossingsAreFew }
{}

/// Over all valid graphs: each box of the picture stands one column after the last of the boxes that
/// make its sources, which are the layers by longest paths of Sugiyama, Tagawa and Toda.
pub fn boxes_follow_their_sources()
    ensures columns { BoxesStandInColumns }
    ensures follow { BoxesFollowTheirSources }
{}

/// Over all graphs: no two boxes of the picture overlap. Of two boxes in one column, one stands below
/// the other with at least 20 between them.
pub fn boxes_are_apart()
    ensures { BoxesAreApart }
{}

/// Over all valid graphs: each line of the picture leads to the right, from an input or a box to a box
/// or an output, and bends once in each column between. The picture of any graph has as many boxes and
/// bends as are counted before it is made.
pub fn lines_pass_all_columns()
    ensures lines { LinesPassAllColumns }
    ensures points { PointsAreCounted }
{}

/// Over all valid graphs with at most `MOST_POINTS` boxes and bends, fewer than 2^31 wires and names of at
/// most `LONGEST_NAME` bytes: the picture is whole, as `chyp_picture` and what draws it want it.
pub fn pictures_are_whole()
    ensures { PicturesAreWhole }
{}

/// What `layout` gives is whole where no name of the graph has more than `LONGEST_NAME` bytes.
pub fn picture_is_whole(graph: &Graph)
    requires few { points_of graph.now ≤ most_points }
    requires names { All (λ e. length e.name ≤ longest_name) graph.now.edges }
    ensures { IsWhole (picture_of graph.now) }
{
    let _ = graph.inputs();
    let _ = graph.wire_count();
}

/// Over all valid graphs: read back, the picture is the graph, whose edges are the boxes and whose wires
/// are the lines, with their ends. So graphs with the same picture are the same.
pub fn pictures_are_read_back()
    ensures back { PicturesAreReadBack }
    ensures apart { PicturesTellGraphsApart }
{}
