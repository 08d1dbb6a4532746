//! Graphs of string diagrams: hypergraphs with sorts on their wires and with inputs and outputs.
//!
//! A [`Graph`] is always valid, monogamous and acyclic, and contracts see it as its plain graph, four
//! lists of wires, edges, inputs and outputs. [`Graph::of_term`] is the graph of a term, with exactly
//! the numbers of its wires that the definition gives them, in time and memory in proportion to the
//! term; [`Graph::of_parts`] is the graph of four given lists. [`Graph::then`] and [`Graph::beside`]
//! are the graphs of a composite and of a tensor. The readers take constant time and no memory:
//! [`Graph::edge`], [`Graph::wire_sort`], [`Graph::inputs`], [`Graph::outputs`], the counts, and
//! [`Graph::producer`] and [`Graph::consumer`], which answer None exactly for an input and for an
//! output. [`Graph::rounds`] gives the round in which each edge is taken away, where each round takes
//! away the edges whose sources are live by then, in time and memory in proportion to the graph. The
//! definitions of validity, of the graph of a term and of isomorphism stand in `specs/`, and `proofs/`
//! shows that the graph of a typed term is valid.
#![tactic(auto)]

mod draft;
mod edge_id;
mod edge_ids;
mod edge_part;
mod edge_parts;
mod edge_view;
mod graph;
mod levels;
mod port_list;
mod port_table;
mod removal;
mod renumber;
mod side;
mod wire_id;
mod wire_ids;

pub use edge_id::EdgeId;
pub use edge_ids::EdgeIds;
pub use edge_part::EdgePart;
pub use edge_parts::EdgeParts;
pub use edge_view::EdgeView;
pub use graph::Graph;
pub use port_list::PortList;
pub use wire_id::WireId;
pub use wire_ids::WireIds;
