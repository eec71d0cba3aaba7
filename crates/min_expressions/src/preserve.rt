// What stands behind a zero, and what is left of arguments.
ghost use Rattle.std.specs.Prelude.{◌≡◌, length, false, IfOk, OnOk, OnErr, if◌then◌else◌};
ghost use Rattle.js_syntax.specs.Node.{row};
ghost use Rattle.scope_counts.specs.Counts.{ids};
ghost use Rattle.min_context.specs.Edited.{evals, Leaves};
ghost use Rattle.steps.specs.Allowed.UnusedList as unused;
ghost use Rattle.rules.specs.Expressions.Uses.{spot_of};
ghost use Rattle.min_expressions.specs.Indirect.{put_behind};
ghost use Rattle.min_expressions.specs.Kept.{matters_at};
ghost use Rattle.min_expressions.specs.Lists.{idle};

use crate::fold::PeepholeOptimizations;
use crate::indirect::{behind_zero, one_field, zero};
use crate::list::{keep_acting, mark_all_idle};
use js_tree::Node;
use min_context::MinifierTraverseCtx;
use std::alloc::{AllocError, Global};
use std::mem::replace;

// The row of two parts, with nothing in it yet.
fn two_fields(alloc: Global) -> Result<Vec<Option<Node>>, AllocError>
    ensures { IfOk result (λ fields. length fields.items ≡ 2) }
{
    let mut fields = one_field(alloc)?;
    fields.push(None)?;
    Ok(fields)
}

// The node comes to stand in these rows.
fn put_behind_zero(
    node: &mut Node,
    field: Vec<Option<Node>>,
    parts: Vec<Option<Node>>,
    alloc: Global,
)
    requires field { length field.items ≡ 1 }
    requires parts { length parts.items ≡ 2 }
    ensures { node.new ≡ put_behind node.old.note node.old }
{
    let span = node.span();
    let part = replace(node, zero(alloc, span));
    *node = behind_zero(alloc, span, field, parts, part);
}

impl PeepholeOptimizations {
    /// An expression comes to stand behind a zero, as `(0, o.f)`, which gives its value alone (ECMA-262 13.16.1). It fails only for
    /// want of memory; then it is as it was.
    pub fn preserve_indirect_access(
        node: &mut Node,
        ctx: &MinifierTraverseCtx,
    ) -> Result<(), AllocError>
        ensures behind { OnOk result (node.new ≡ put_behind node.old.note node.old) }
        ensures refused { OnErr result (node.new ≡ node.old) }
    {
        let field = one_field(ctx.alloc())?;
        let parts = two_fields(ctx.alloc())?;
        put_behind_zero(node, field, parts, ctx.alloc());
        Ok(())
    }

    /// So where it matters that it doesn't stand itself where the walk is; else it stays. It fails only for want of memory; then it
    /// is as it was.
    pub fn preserve_indirect_access_if_needed(
        node: &mut Node,
        ctx: &MinifierTraverseCtx,
    ) -> Result<(), AllocError>
        ensures behind { OnOk result (node.new ≡ (if matters_at (spot_of ctx.now.place) node.old then put_behind node.old.note node.old else node.old)) }
        ensures refused { OnErr result (node.new ≡ node.old) }
    {
        if PeepholeOptimizations::should_keep_indirect_access(node, ctx) {
            PeepholeOptimizations::preserve_indirect_access(node, ctx)
        } else {
            Ok(())
        }
    }

    /// Of arguments of which nobody takes the values those stay that act, in order. The context is told of the others. None may be
    /// spread, since that asks for an iterator (ECMA-262 13.3.8.1).
    pub fn fold_arguments_into_needed_expressions(
        arguments: &mut Vec<Option<Node>>,
        ctx: &mut MinifierTraverseCtx,
    )
        requires plain { unused.has_spread (row arguments.old.items) ≡ false }
        ensures kept { row arguments.new.items ≡ unused.acting (row arguments.old.items) }
        ensures left { Leaves ctx.old (λ r. ids r (idle (row arguments.old.items))) (evals (idle (row arguments.old.items))) ctx.new }
    {
        mark_all_idle(arguments.as_slice(), ctx);
        keep_acting(arguments);
    }
}
