// A silent statement becomes empty, and so does one that does nothing as a branch or a body.
ghost use Rattle.std.specs.Prelude.{◌≡◌, true};
ghost use Rattle.js_syntax.specs.declared.node_kind.NodeKind.TheVariants.{EmptyStatement as empty_statement};
ghost use Rattle.js_syntax.specs.Node.{nothing};
ghost use Rattle.min_context.specs.Edited.{Edited};
ghost use Rattle.min_pass.specs.Pass.{unmarked};
ghost use Rattle.min_traverse.specs.Lawful.{Does};
ghost use Rattle.steps.specs.Allowed.EmptyBlock.{holds_nothing};
ghost use Rattle.rules.specs.DeadCode.Rules.{where_of, is_silent_statement, is_body_under, is_idle_body, becomes_empty};
ghost use Rattle.min_statements.specs.Acts as acts;
ghost use Rattle.min_statements.specs.Statement.{is_expression};
ghost use Rattle.min_statements.specs.Walker.{facts_of};

use crate::blocks::idles;
use crate::facts::Where;
use crate::goes::is_silent_statement;
use crate::idle::does_nothing;
use crate::inside::declares_no_name;
use crate::statements::Statements;
use js_syntax::NodeKind;
use js_tree::Node;
use min_context::{Ancestor, MinifierTraverseCtx, Parent};

// An empty statement comes in the place of a node. The context is told of what leaves.
pub(crate) fn put_empty(node: &mut Node, ctx: &mut MinifierTraverseCtx)
    ensures put { node.new ≡ record { kind = empty_statement; note = unmarked node.old.note; below = nothing } }
    ensures edited { Edited ctx.old node.old node.new true ctx.new }
{
    let statement = Node::new(NodeKind::EmptyStatement, node.span(), Vec::new(ctx.alloc()));
    ctx.replace_statement(node, statement);
}

// ---- branches and bodies

// The place right below a statement that has another as its part.
fn is_body_under(above: Ancestor) -> bool
    ensures { result ≡ is_body_under above }
{
    match above {
        Ancestor::Field(parent, _) => matches!(
            parent,
            Parent::IfStatement
                | Parent::WithStatement
                | Parent::WhileStatement
                | Parent::DoWhileStatement
                | Parent::ForStatement
                | Parent::ForInStatement
                | Parent::ForOfStatement
        ),
        Ancestor::None => false,
    }
}

// A block or a label around nothing.
fn holds_nothing(node: &Node) -> bool
    ensures { result ≡ holds_nothing node.now.kind node.now.below }
{
    match node.kind() {
        NodeKind::BlockStatement => idles(node.children()),
        NodeKind::LabeledStatement(_) => idles(node.children()),
        _ => false,
    }
}

// A branch or a body that does nothing, and declares no name around it.
fn is_idle_body(node: &Node, ctx: &MinifierTraverseCtx) -> bool
    ensures { result ≡ is_idle_body ctx.now.place node.now.kind node.now.below }
{
    is_body_under(ctx.parent())
        && ((holds_nothing(node) || does_nothing(node, ctx.alloc())) && declares_no_name(node))
}

// ---- silent statements

// Few statements are expressions alone, so the kind is asked before what is known of the place.
fn is_expression(kind: &NodeKind) -> bool
    ensures { result ≡ is_expression kind.now }
{
    matches!(kind, NodeKind::ExpressionStatement)
}

fn is_silent_there(names: &Statements, node: &Node, ctx: &MinifierTraverseCtx) -> bool
    ensures { result ≡ is_silent_statement (facts_of names.now ctx.now) (where_of ctx.now.place) node.now.kind node.now.below }
{
    if !is_expression(node.kind()) {
        return false;
    }
    is_silent_statement(&names.facts(ctx), Where::of(ctx), node)
}

// ---- either

fn becomes_empty(names: &Statements, node: &Node, ctx: &MinifierTraverseCtx) -> bool
    ensures { result ≡ becomes_empty (facts_of names.now ctx.now) ctx.now.place node.now.kind node.now.below }
{
    is_silent_there(names, node, ctx) || is_idle_body(node, ctx)
}

/// A silent expression statement becomes empty, wherever it stands, and so does a statement that does nothing and declares no name around
/// it, as a branch or a body. The context is told.
pub fn empty_statement(names: &Statements, node: &mut Node, ctx: &mut MinifierTraverseCtx) -> bool
    ensures does { Does (acts.empty names.now) ctx.old node.old result ctx.new node.new }
{
    if !becomes_empty(names, node, ctx) {
        return false;
    }
    put_empty(node, ctx);
    true
}
