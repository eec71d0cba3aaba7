// The walk.
ghost use Rattle.std.specs.Prelude.{◌≡◌, ◌+◌, ◌<◌, ◌≤◌, ◌||◌, length, nat_lt, OnOk, IfOk, ℕ, true, false, Some};
ghost use Rattle.js_syntax.specs.Facts.{weight};
ghost use Rattle.js_syntax.specs.Node.{row, forest_of, total};
ghost use Rattle.scope_counts.specs.Counts.{ids};
ghost use Rattle.symbol_sets.specs.Numbers.{has};
ghost use Rattle.min_context.specs.Above.{above_of};
ghost use Rattle.min_context.specs.Edited.{Markable};
ghost use Rattle.min_context.specs.Place.{outside, below, top};
ghost use Rattle.min_context.specs.Seen.{still};
ghost use Rattle.min_traverse.specs.Edits.{Edits};
ghost use Rattle.min_traverse.specs.Moves.{Holds, IsFirst, NodeMoves, NodeMovesAt, RowMoves, busy};
ghost use Rattle.min_traverse.specs.Visits.{above_place, NodeVisit, Visits, VisitsFront};

use crate::dispatch::{enter_node, exit_node};
use crate::traverse::Traverse;
use js_tree::Node;
use min_context::{Above, MinifierTraverseCtx};
use std::alloc::AllocError;

// No list of fields is longer than numbers are.
fn number(at: usize) -> Result<u32, AllocError>
    ensures { IfOk result (λ n. n ≡ at) }
{
    match u32::try_from(at) {
        Ok(at) => Ok(at),
        Err(_) => Err(AllocError),
    }
}

#[cycle(walk)]
fn walk_node<T: Traverse>(
    traverse: &mut T,
    node: &mut Node,
    ctx: &mut MinifierTraverseCtx,
) -> Result<(), AllocError>
    requires markable { Markable ctx.old (forest_of node.old) }
    ensures moves { OnOk result (NodeMoves T T.edit (Holds T.own) traverse.old ctx.old node.old traverse.new ctx.new node.new) }
    ensures visited { OnOk result (ctx.new.requested ≡ false → NodeVisit T.visits T.written (Visits T.visits T.written (below ctx.old.place (above_of node.old.kind node.old.note)) node.old.below) (above_place ctx.old.place) traverse.old ctx.old node.old traverse.new ctx.new) }
{
    enter_node(traverse, node, ctx)?;
    if node.children().is_empty() {
        exit_node(traverse, node, ctx)?;
        return Ok(());
    }
    let above = Above::of(node);
    let mut children = node.replace_children(Vec::new(ctx.alloc()));
    walk_children(traverse, children.as_mut_slice(), above, ctx)?;
    node.replace_children(children);
    exit_node(traverse, node, ctx)?;
    Ok(())
}

// A child: the walk goes to its place, and back to that of its parent.
#[cycle(walk)]
fn walk_child<T: Traverse>(
    traverse: &mut T,
    node: &mut Node,
    above: Above,
    at: usize,
    previous: bool,
    more: bool,
    ctx: &mut MinifierTraverseCtx,
) -> Result<(), AllocError>
    requires markable { Markable ctx.old (forest_of node.old) }
    ensures moves { OnOk result (NodeMovesAt T T.edit (Holds T.own) (IsFirst (record { outer = ctx.old.place; above = Some above; at = at; previous = previous }) more) traverse.old ctx.old node.old traverse.new ctx.new node.new) }
    ensures visited { OnOk result (ctx.new.requested ≡ false → VisitsFront T.visits T.written (record { outer = ctx.old.place; above = Some above; at = at; previous = previous }) more (forest_of node.old) traverse.old ctx.old traverse.new ctx.new) }
{
    let scopes = ctx.current_scopes();
    ctx.enter(above, number(at)?, previous, more)?;
    walk_node(traverse, node, ctx)?;
    ctx.leave(scopes);
    Ok(())
}

#[cycle(walk)]
fn walk_children<T: Traverse>(
    traverse: &mut T,
    children: &mut [Option<Node>],
    above: Above,
    ctx: &mut MinifierTraverseCtx,
) -> Result<(), AllocError>
    requires markable { Markable ctx.old (row children.old) }
    ensures moves { OnOk result (RowMoves T T.edit (Holds T.own) (below ctx.old.place above) traverse.old ctx.old (row children.old) traverse.new ctx.new (row children.new)) }
    ensures visited { OnOk result (ctx.new.requested ≡ false → Visits T.visits T.written (below ctx.old.place above) (row children.old) traverse.old ctx.old traverse.new ctx.new) }
{
    let count = children.len();
    let mut previous = false;
    for (at, child) in children.iter_mut().enumerate() {
        match child {
            Some(node) => {
                walk_child(traverse, node, above, at, previous, at + 1 < count, ctx)?;
                previous = true;
            }
            None => previous = false,
        }
    }
    Ok(())
}

/// Walks over a whole program, given by its root, and changes it in place. What became of it is a list of the walker's edits,
/// the condition holds again, and exactly what left is marked. If no other pass is asked for then, the program is as it was,
/// and the walk was a visit of each node.
///
/// It fails where memory is wanting, or where a hook does. Then the program, the walker and the context may be dropped,
/// and nothing else is known of them.
pub fn traverse_root<T: Traverse>(
    traverse: &mut T,
    root: &mut Node,
    ctx: &mut MinifierTraverseCtx,
) -> Result<(), AllocError>
    requires holds { Holds T.own traverse.old (still ctx.old) (forest_of root.old) }
    requires outside { ctx.old.place ≡ outside }
    ensures edits { OnOk result (Edits (T.edit ctx.old.options) (forest_of root.old) (forest_of root.new)) }
    ensures holds { OnOk result (Holds T.own traverse.new (still ctx.new) (forest_of root.new)) }
    ensures options { OnOk result (ctx.new.options ≡ ctx.old.options) }
    ensures room { OnOk result (length ctx.new.marked ≡ length ctx.old.marked) }
    ensures marks { OnOk result ((r : ℕ) → r < length ctx.old.marked → has ctx.new.marked r ≡ (has ctx.old.marked r || nat_lt (ids r (forest_of root.new)) (ids r (forest_of root.old)))) }
    ensures lighter { OnOk result (total weight (forest_of root.new) + busy ctx.new ≤ total weight (forest_of root.old) + busy ctx.old) }
    ensures quiet { OnOk result (ctx.new.requested ≡ false → root.new ≡ root.old) }
    ensures visited { OnOk result (ctx.new.requested ≡ false → Visits T.visits T.written top (forest_of root.old) traverse.old ctx.old traverse.new ctx.new) }
    ensures outside { OnOk result (ctx.new.place ≡ outside) }
{
    walk_node(traverse, root, ctx)?;
    Ok(())
}
