// A declaration of the names that stay.
ghost use Rattle.std.specs.Prelude.{◌≡◌, ◌++◌, [], ◌∷◌, Some, None, IfOk, map};
ghost use Rattle.js_syntax.specs.Node.{forest_of};
ghost use Rattle.kept_names.specs.Kept.{kept, declarator_of, declaration_with, declaration_of};

use crate::find::kept_names;
use js_syntax::{NodeKind, SPAN, VariableKind};
use js_tree::Node;
use js_tree_copy::clone_node;
use std::alloc::{AllocError, Global};

fn one_field(alloc: Global, node: Node) -> Result<Vec<Option<Node>>, AllocError>
    ensures { IfOk result (λ v. v.items ≡ Some node ∷ []) }
{
    let mut fields = Vec::new(alloc);
    fields.push(Some(node))?;
    Ok(fields)
}

fn two_fields(alloc: Global, name: Node) -> Result<Vec<Option<Node>>, AllocError>
    ensures { IfOk result (λ v. v.items ≡ Some name ∷ None ∷ []) }
{
    let mut fields = one_field(alloc, name)?;
    fields.push(None)?;
    Ok(fields)
}

fn declarator(alloc: Global, name: &Node) -> Result<Node, AllocError>
    ensures { IfOk result (λ n. Some n ≡ declarator_of name.now) }
{
    let fields = two_fields(alloc, clone_node(alloc, name)?)?;
    Ok(Node::new(NodeKind::VariableDeclarator, name.span(), fields))
}

fn declaration(alloc: Global, declarators: Vec<Option<Node>>) -> Result<Option<Node>, AllocError>
    ensures { IfOk result (λ n. n ≡ Some (declaration_with declarators.items)) }
{
    let list = Node::new(NodeKind::Declarators, SPAN, declarators);
    let fields = one_field(alloc, list)?;
    Ok(Some(Node::new(
        NodeKind::VariableDeclaration(VariableKind::Var),
        SPAN,
        fields,
    )))
}

/// Collects the names that `var` declares in statements, and makes a declaration of them.
#[derive(Drop)]
pub struct KeepVar {
    alloc: Global,
    declarators: Vec<Option<Node>>,
}

impl KeepVar {
    /// Without a name yet.
    pub fn new(alloc: Global) -> KeepVar
        ensures none { result.declarators.items ≡ [] }
    {
        KeepVar {
            alloc,
            declarators: Vec::new(alloc),
        }
    }

    fn keep_all(&mut self, names: &[&Node]) -> Result<(), AllocError>
        ensures { IfOk result (λ u. self.new.declarators.items ≡ self.old.declarators.items ++ map (λ n. declarator_of n.now) names.now) }
    {
        let mut rest = names;
        while let [name, others @ ..] = rest {
            self.declarators.push(Some(declarator(self.alloc, name)?))?;
            rest = others;
        }
        Ok(())
    }

    /// Keeps the names that a statement declares, behind those that are kept: each has its span and its symbol. The only error
    /// is want of memory.
    pub fn visit_statement(&mut self, statement: &Node) -> Result<(), AllocError>
        ensures kept { IfOk result (λ u. self.new.declarators.items ≡ self.old.declarators.items ++ map declarator_of (kept (forest_of statement.now))) }
    {
        let names = kept_names(self.alloc, statement)?;
        self.keep_all(names.as_slice())
    }

    /// A `var` declaration of the names that are kept, without initialisers; none where no name is. The only error is want of
    /// memory.
    pub fn get_variable_declaration(self) -> Result<Option<Node>, AllocError>
        ensures declaration { IfOk result (λ n. n ≡ declaration_of self.declarators.items) }
    {
        let KeepVar { alloc, declarators } = self;
        if declarators.is_empty() {
            return Ok(None);
        }
        declaration(alloc, declarators)
    }

    /// The same, as a statement, which a declaration is.
    pub fn get_variable_declaration_statement(self) -> Result<Option<Node>, AllocError>
        ensures declaration { IfOk result (λ n. n ≡ declaration_of self.declarators.items) }
    {
        self.get_variable_declaration()
    }
}
