// Nodes that are made into others by closures.
ghost use Rattle.std.specs.Prelude.{◌≡◌, [], None, IfOk, IfErr};
ghost use Rattle.js_syntax.specs.declared.node_kind.NodeKind.{NodeKind as Kind};
ghost use Rattle.js_syntax.specs.declared.value.LiteralValue.TheVariants as value;
ghost use Rattle.js_syntax.specs.Node.{nowhere, nothing};
ghost use Rattle.min_context.specs.Replacing.{Makes, Refuses, null_node, empty_node};

use crate::context::MinifierTraverseCtx;
use js_syntax::{LiteralValue, NodeKind, SPAN};
use js_tree::{Node, put};
use std::alloc::{AllocError, Global};
use std::mem::replace;

fn null_node(alloc: Global) -> Node
    ensures { result ≡ null_node }
{
    Node::new(NodeKind::Literal(LiteralValue::Null), SPAN, Vec::new(alloc))
}

fn empty_node(alloc: Global) -> Node
    ensures { result ≡ empty_node }
{
    Node::new(NodeKind::EmptyStatement, SPAN, Vec::new(alloc))
}

impl MinifierTraverseCtx {
    /// Makes another expression of the one that stands there, and asks for another pass. What leaves is marked by what
    /// makes it. After an error, which is its own, the literal `null` stands there.
    pub fn replace_expression_with<F>(&mut self, slot: &mut Node, make: F) -> Result<(), AllocError>
    where
        F: FnOnce(Node, &mut MinifierTraverseCtx) -> Result<Node, AllocError>,
        requires { F.IsAlwaysCallable make }
        ensures made { IfOk result (λ _. Makes F.FnOnce make slot.old self.old slot.new self.new) }
        ensures refused { IfErr result (λ e. Refuses F.FnOnce make slot.old self.old e self.new × (slot.new ≡ null_node)) }
    {
        let old = replace(slot, null_node(self.alloc));
        match make(old, self) {
            Ok(made) => {
                put(slot, made);
                self.notice_change();
                Ok(())
            }
            Err(error) => Err(error),
        }
    }

    /// The same of a statement. After an error an empty statement stands there.
    pub fn replace_statement_with<F>(&mut self, slot: &mut Node, make: F) -> Result<(), AllocError>
    where
        F: FnOnce(Node, &mut MinifierTraverseCtx) -> Result<Node, AllocError>,
        requires { F.IsAlwaysCallable make }
        ensures made { IfOk result (λ _. Makes F.FnOnce make slot.old self.old slot.new self.new) }
        ensures refused { IfErr result (λ e. Refuses F.FnOnce make slot.old self.old e self.new × (slot.new ≡ empty_node)) }
    {
        let old = replace(slot, empty_node(self.alloc));
        match make(old, self) {
            Ok(made) => {
                put(slot, made);
                self.notice_change();
                Ok(())
            }
            Err(error) => Err(error),
        }
    }
}
