// Texts with their names.
ghost use Rattle.std.specs.Prelude.{◌≡◌, ◌≢◌, ◌<◌, ℕ, ◌∷◌, IfOk, IfSome, IfNone, length};
ghost use Rattle.std.specs.List.{filter_map};
ghost use Rattle.chyp_load.specs.Imports.{AreImports};
ghost use Rattle.chyp_check.specs.Project.{name_at, node_of};

use chyp_base::{Name, NoMemory};
use chyp_load::{MainText, ModuleText, ReadModules};
use std::alloc::Global;
use std::marker::Model;

/// A text with the name of its module, which is empty for the main text, and with the names of the modules
/// that it imports. Contracts see it as the pair of its name and its text.
#[derive(Drop)]
pub(crate) struct Node<'a> {
    name: &'a Name,
    text: &'a [u8],
    imports: &'a [Name],
}

impl<'a> Model for Node<'a> {
    ghost use Rattle.std.specs.Prelude.{List, ℕ};
    ghost use Rattle.chyp_load.specs.Imports.{AreImports};

    ghost Value = { List ℕ × List ℕ };

    ghost view = { λ n. (n.name.now, n.text.now) };

    ghost invariant = { λ n. AreImports n.text.now n.imports.now };
}

impl<'a> Node<'a> {
    /// The name of its module.
    pub(crate) fn name(&self) -> &'a Name
        ensures { result.now ≡ self.now.0 }
    {
        self.name
    }

    /// Its text.
    pub(crate) fn text(&self) -> &'a [u8]
        ensures { result.now ≡ self.now.1 }
    {
        self.text
    }

    /// The names of the modules that it imports.
    pub(crate) fn imports(&self) -> &'a [Name]
        ensures { AreImports self.now.1 result.now }
    {
        self.imports
    }
}

// The node of a module that is there.
fn node_of<'a>(entry: &'a (Name, Option<ModuleText>)) -> Option<Node<'a>>
    ensures { result ≡ node_of entry.now }
{
    let (name, text) = entry;
    if name.as_str().is_empty() {
        return None;
    }
    let module = text.as_ref()?;
    Some(Node {
        name,
        text: module.as_slice(),
        imports: module.imports(),
    })
}

// The node of the main text.
fn main_node<'a>(home: &'a Name, main: &'a MainText<'a>) -> Node<'a>
    ensures { result ≡ (home.now, main.now.text) }
{
    Node {
        name: home,
        text: main.statements().text(),
        imports: main.imports(),
    }
}

/// The main text, and each module that is there.
pub(crate) fn nodes<'a>(
    alloc: Global,
    home: &'a Name,
    main: &'a MainText<'a>,
    modules: &'a ReadModules,
) -> Result<Vec<Node<'a>>, NoMemory>
    ensures { IfOk result (λ nodes. nodes.items ≡ (home.now, main.now.text) ∷ filter_map node_of modules.now) }
{
    let mut nodes = Vec::new(alloc);
    nodes.push(main_node(home, main))?;
    for entry in modules.as_slice() {
        if let Some(node) = node_of(entry) {
            nodes.push(node)?;
        }
    }
    Ok(nodes)
}

/// The number of the node with this name.
pub(crate) fn place_of(nodes: &[Node<'_>], name: &Name) -> Option<usize>
    ensures some { IfSome result (λ place. place < length nodes.now) }
    ensures named { IfSome result (λ place. name_at nodes.now place ≡ name.now) }
    ensures none { IfNone result ((i : ℕ) → i < length nodes.now → name_at nodes.now i ≢ name.now) }
{
    nodes.iter().position(|node| node.name == name)
}
