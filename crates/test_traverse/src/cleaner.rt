// The walker.
ghost use Rattle.std.specs.Prelude.{◌≡◌};
ghost use Rattle.min_traverse.specs.Lawful.{Does};
ghost use Rattle.test_traverse.specs.Bodies as bodies;
ghost use Rattle.test_traverse.specs.Cleaning as cleaning;

use crate::list::{has_empty, keep_others};
use js_syntax::NodeKind;
use js_tree::Node;
use min_context::{Ancestor, MinifierTraverseCtx, Parent};
use min_traverse::{Hook, Traverse};
use std::alloc::AllocError;

fn is_body(above: Ancestor) -> bool
    ensures { result ≡ cleaning.is_body_above above }
{
    matches!(above, Ancestor::Field(Parent::FunctionBody, _))
}

fn is_list(node: &Node) -> bool
    ensures { result ≡ bodies.is_list node.now.kind }
{
    matches!(node.kind(), NodeKind::Statements)
}

fn is_cleaned(node: &Node, ctx: &MinifierTraverseCtx) -> bool
    ensures { result ≡ cleaning.is_cleaned ctx.now node.now }
{
    is_body(ctx.parent()) && (is_list(node) && has_empty(node.children()))
}

// The rule's call. No reference stands in an empty statement, so that nothing is to be marked.
fn clean(node: &mut Node, ctx: &mut MinifierTraverseCtx) -> bool
    ensures { Does cleaning.cleaned ctx.old node.old result ctx.new node.new }
{
    if !is_cleaned(node, ctx) {
        return false;
    }
    let mut statements = node.replace_children(Vec::new(ctx.alloc()));
    keep_others(&mut statements);
    node.replace_children(statements);
    ctx.notice_change();
    true
}

/// Takes the empty statements out of the bodies of functions.
#[derive(Drop)]
pub(crate) struct BodyCleaner {}

impl Traverse for BodyCleaner {
    ghost use Rattle.test_traverse.specs.Cleaning.{BodyEdit, LeftAlone, is_written};

    ghost edit = { λ o. BodyEdit };

    ghost own = { λ s c t. Unit {0} };

    ghost written = { is_written };

    ghost visits = { λ h s c x s' d. LeftAlone c x d };

    fn has(hook: Hook) -> bool {
        matches!(hook, Hook::ExitStatements)
    }

    fn exit_statements(
        &mut self,
        node: &mut Node,
        ctx: &mut MinifierTraverseCtx,
    ) -> Result<(), AllocError> {
        clean(node, ctx);
        Ok(())
    }
}
