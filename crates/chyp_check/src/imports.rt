// Which texts import which, and which reach which.
ghost use Rattle.std.specs.Prelude.{◌≡◌, ◌≢◌, ◌<◌, ◌↔◌, ℕ, Contains, true, false, IfOk, length};
ghost use Rattle.chyp_load.specs.Imports.{IsImportedBy};
ghost use Rattle.chyp_reach.specs.Relation.{relates};
ghost use Rattle.chyp_check.specs.Project.{HaveDistinctNames, Reflects, name_at, text_at};

use crate::node::{Node, place_of};
use chyp_base::{Name, NoMemory};
use chyp_reach::Relation;
use std::alloc::Global;

// Adds that a node, which leads to none yet, leads to those of these names.
fn add_imports(nodes: &[Node<'_>], from: usize, names: &[Name], relation: &mut Relation)
    requires many { length relation.old ≡ length nodes.now }
    requires within { from < length nodes.now }
    requires distinct { HaveDistinctNames nodes.now }
    requires none { (j : ℕ) → relates relation.old from j ≡ false }
    ensures many { length relation.new ≡ length nodes.now }
    ensures others { (i j : ℕ) → i ≢ from → relates relation.new i j ≡ relates relation.old i j }
    ensures names { (j : ℕ) → j < length nodes.now → relates relation.new from j ≡ true ↔ Contains names.now (name_at nodes.now j) }
{
    for name in names {
        if let Some(to) = place_of(nodes, name) {
            relation.add(from, to);
        }
    }
}

// Which nodes import which.
fn imports(alloc: Global, nodes: &[Node<'_>]) -> Result<Relation, NoMemory>
    requires { HaveDistinctNames nodes.now }
    ensures many { IfOk result (λ relation. length relation ≡ length nodes.now) }
    ensures imports { IfOk result (λ relation. (i j : ℕ) → i < length nodes.now → j < length nodes.now →
        relates relation i j ≡ true ↔ IsImportedBy (text_at nodes.now i) (name_at nodes.now j)) }
{
    let mut relation = Relation::new(alloc, nodes.len())?;
    for from in 0..nodes.len() {
        let node = &nodes[from];
        add_imports(nodes, from, node.imports(), &mut relation);
    }
    Ok(relation)
}

/// Which nodes reach which, by one import or more.
pub(crate) fn reach(alloc: Global, nodes: &[Node<'_>]) -> Result<Relation, NoMemory>
    requires { HaveDistinctNames nodes.now }
    ensures many { IfOk result (λ relation. length relation ≡ length nodes.now) }
    ensures reflects { IfOk result (Reflects nodes.now) }
{
    let mut relation = imports(alloc, nodes)?;
    relation.square();
    relation.close(alloc)?;
    Ok(relation)
}
