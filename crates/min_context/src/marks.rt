// Marks of what leaves the tree.
ghost use Rattle.std.specs.Prelude.{◌≡◌, ℕ, cond, is_some};
ghost use Rattle.js_syntax.specs.Node.{Note, row, forest_of};
ghost use Rattle.js_tree.specs.Names.{eval_of_call};
ghost use Rattle.scope_counts.specs.Counts.{ids, by_id, own, is_id};
ghost use Rattle.min_context.specs.Edited.{evals};
ghost use Rattle.min_context.specs.Left.{Left};

use js_syntax::{NodeKind, ReferenceId};
use js_tree::{Node, as_direct_eval_call};
use min_symbols::PassChanges;

fn mark_id(changes: &mut PassChanges, id: Option<u32>)
    ensures left { Left changes.old (λ r. is_id r id) 0 changes.new }
{
    if let Some(id) = id {
        changes.mark(ReferenceId(id));
    }
}

fn is_reference(kind: &NodeKind) -> bool
    ensures { (r : ℕ) (n : Note) → own (by_id r) n kind.now ≡ cond result (is_id r n.id) 0 }
{
    matches!(kind, NodeKind::ReferenceName(_) | NodeKind::TargetName(_))
}

fn mark_reference(changes: &mut PassChanges, node: &Node)
    ensures left { Left changes.old (λ r. own (by_id r) node.now.note node.now.kind) 0 changes.new }
{
    if is_reference(node.kind()) {
        mark_id(changes, node.id());
    }
}

fn mark_eval(changes: &mut PassChanges, node: &Node)
    ensures left { Left changes.old (λ r. 0) (cond (is_some (eval_of_call node.now.kind node.now.below)) 1 0) changes.new }
{
    if as_direct_eval_call(node).is_some() {
        changes.drop_eval();
    }
}

/// Marks what a node is, without what lies below it: a reference, or a direct call of `eval`.
pub(crate) fn mark_own(changes: &mut PassChanges, node: &Node)
    ensures left { Left changes.old (λ r. own (by_id r) node.now.note node.now.kind) (cond (is_some (eval_of_call node.now.kind node.now.below)) 1 0) changes.new }
{
    mark_reference(changes, node);
    mark_eval(changes, node);
}

/// Marks each reference of a tree, and notes whether a direct call of `eval` stands in it.
#[cycle(mark)]
pub(crate) fn mark_node(changes: &mut PassChanges, node: &Node)
    ensures left { Left changes.old (λ r. ids r (forest_of node.now)) (evals (forest_of node.now)) changes.new }
{
    mark_own(changes, node);
    mark_row(changes, node.children());
}

/// The same of a row.
#[cycle(mark)]
pub(crate) fn mark_row(changes: &mut PassChanges, children: &[Option<Node>])
    ensures left { Left changes.old (λ r. ids r (row children.now)) (evals (row children.now)) changes.new }
{
    for child in children {
        if let Some(node) = child {
            mark_node(changes, node);
        }
    }
}
