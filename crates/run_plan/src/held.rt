// Pieces of a program that a run holds on to.
ghost use Rattle.std.specs.Prelude.{◌≡◌, [], ◌∷◌, List, Option, Some, None, map, IfOk};
ghost use Rattle.js_syntax.specs.Node.{row};
ghost use Rattle.js_meaning.specs.Statement.{has_label};
ghost use Rattle.run_plan.specs.Held.{texts_of};

use js_tree::Node;
use std::alloc::{AllocError, Global};
use std::marker::Model;
use std::rc::Rc;

/// A node of the program.
#[derive(Drop)]
pub struct NodeRef<'a> {
    node: &'a Node,
}

impl<'a> Model for NodeRef<'a> {
    ghost use Rattle.js_syntax.specs.Node.{Tree};
    ghost use Rattle.js_syntax.specs.Code.{tree_code};

    ghost Value = { Tree };

    ghost coded = { tree_code };

    ghost view = { λ n. n.node.now };
}

impl<'a> NodeRef<'a> {
    pub fn new(node: &'a Node) -> NodeRef<'a>
        ensures { result ≡ node.now }
    {
        NodeRef { node }
    }

    /// The node itself.
    pub fn node(&self) -> &'a Node
        ensures { result.now ≡ self.now }
    {
        self.node
    }
}

/// Nodes of the program that stand side by side.
#[derive(Drop)]
pub struct Nodes<'a> {
    nodes: &'a [Option<Node>],
}

impl<'a> Model for Nodes<'a> {
    ghost use Rattle.js_syntax.specs.Node.{Forest, row};
    ghost use Rattle.js_syntax.specs.Code.{forest_code};

    ghost Value = { Forest };

    ghost coded = { forest_code };

    ghost view = { λ n. row n.nodes.now };
}

impl<'a> Nodes<'a> {
    pub fn new(nodes: &'a [Option<Node>]) -> Nodes<'a>
        ensures { result ≡ row nodes.now }
    {
        Nodes { nodes }
    }

    /// The nodes themselves.
    pub fn nodes(&self) -> &'a [Option<Node>]
        ensures { row result.now ≡ self.now }
    {
        self.nodes
    }
}

/// The labels under which a statement stands, the innermost first.
pub struct Labels<'a> {
    names: Option<Rc<Vec<&'a str>>>,
}

impl<'a> Drop for Labels<'a> {
    fn drop(self) {
        let Labels { names: _ } = self;
    }
}

impl<'a> Model for Labels<'a> {
    ghost use Rattle.std.specs.Prelude.{List, ℕ};
    ghost use Rattle.std.specs.Coded.{coded_list, coded_ℕ};

    ghost Value = { List (List ℕ) };

    ghost coded = { coded_list (coded_list coded_ℕ) };

    ghost use Rattle.run_plan.specs.Held.{names_in};

    ghost view = { λ l. names_in l.names };
}

fn in_front<'a>(
    alloc: Global,
    first: &'a str,
    names: &[&'a str],
) -> Result<Vec<&'a str>, AllocError>
    ensures { IfOk result (λ v. texts_of v.items ≡ first.now ∷ texts_of names.now) }
{
    let mut all = Vec::new(alloc);
    all.push(first)?;
    for name in names {
        all.push(*name)?;
    }
    Ok(all)
}

fn has_label(names: &[&str], label: &str) -> bool
    ensures { result ≡ has_label (texts_of names.now) label.now }
{
    for name in names {
        if *name == label {
            return true;
        }
    }
    false
}

impl<'a> Labels<'a> {
    /// No labels.
    pub fn none() -> Labels<'a>
        ensures { result ≡ [] }
    {
        Labels { names: None }
    }

    /// The same once more.
    pub fn copy(&self) -> Result<Labels<'a>, AllocError>
        ensures { IfOk result (λ l. l ≡ self.now) }
    {
        match &self.names {
            Some(names) => {
                let names = names.clone()?;
                Ok(Labels { names: Some(names) })
            }
            None => Ok(Labels { names: None }),
        }
    }

    fn names(&self) -> &[&'a str]
        ensures { texts_of result.now ≡ self.now }
    {
        match &self.names {
            Some(names) => names.as_slice(),
            None => &[],
        }
    }

    /// These with one more, which is the innermost.
    pub fn with(&self, alloc: Global, label: &'a str) -> Result<Labels<'a>, AllocError>
        ensures { IfOk result (λ l. l ≡ label.now ∷ self.now) }
    {
        let names = in_front(alloc, label, self.names())?;
        let names = Rc::new(alloc, names)?;
        Ok(Labels { names: Some(names) })
    }

    /// Whether this is one of them.
    pub fn contains(&self, label: &str) -> bool
        ensures { result ≡ has_label self.now label.now }
    {
        has_label(self.names(), label)
    }
}
