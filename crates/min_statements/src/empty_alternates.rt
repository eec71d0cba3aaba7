// What becomes of an `if` with an alternate that is empty.
ghost use Rattle.std.specs.Prelude.{◌≡◌, Some, true, false, ◌&&◌};
ghost use Rattle.js_syntax.specs.Node.{row};
ghost use Rattle.min_context.specs.Edited.{Edited};
ghost use Rattle.min_traverse.specs.Lawful.{Does};
ghost use Rattle.rules.specs.Expressions.EmptyAlternates.{last_under, last_in, last_from, alternate_left, fold_empty_alternate};
ghost use Rattle.min_statements.specs.Alternates.{drops_alternate, has_empty_alternate, cleared_at};
ghost use Rattle.min_statements.specs.Ifs.{told_branches};

use crate::empty_ifs::is_empty;
use crate::ifs::{Branches, branches_of};
use js_syntax::NodeKind;
use js_tree::{Node, clear};
use min_context::{Ancestor, MinifierTraverseCtx, Parent};

// ---- where it stands

fn last_under(last: bool, parent: Parent, at: u32) -> bool
    ensures { result ≡ last_under last parent at }
{
    match parent {
        Parent::Statements => true,
        Parent::IfStatement => last && at == 2,
        _ => false,
    }
}

fn last_in(last: bool, ancestor: Ancestor) -> bool
    ensures { result ≡ last_in last ancestor }
{
    match ancestor {
        Ancestor::Field(parent, at) => last_under(last, parent, at),
        Ancestor::None => false,
    }
}

// Whether no alternate may follow, by the nodes above, the outermost first.
fn last_from(above: &[Ancestor]) -> bool
    ensures { result ≡ last_from false above.now }
{
    let mut last = false;
    for ancestor in above {
        last = last_in(last, *ancestor);
    }
    last
}

// ---- whether it has one

fn drops_alternate(branches: Branches) -> bool
    ensures { result ≡ drops_alternate (told_branches branches.entry) }
{
    match branches {
        Branches::Both(_, _, alternate) => is_empty(alternate),
        Branches::One(_, _) => false,
        Branches::Last(_, _) => false,
        Branches::Others => false,
    }
}

fn has_empty_alternate(node: &Node) -> bool
    ensures { result ≡ has_empty_alternate node.now.kind node.now.below }
{
    match node.kind() {
        NodeKind::IfStatement => drops_alternate(branches_of(node.children())),
        _ => false,
    }
}

// ---- and the change

fn clear_at(parts: &mut [Option<Node>], at: usize)
    ensures { row parts.new ≡ cleared_at at (row parts.old) }
{
    if at < parts.len() {
        clear(&mut parts[at]);
    }
}

fn drop_alternate(node: &mut Node, ctx: &mut MinifierTraverseCtx)
    requires empty { has_empty_alternate node.old.kind node.old.below ≡ true }
    ensures left { alternate_left true node.old.note node.old.kind node.old.below ≡ Some node.new }
    ensures edited { Edited ctx.old node.old node.new true ctx.new }
{
    ctx.notice_change();
    let mut parts = node.replace_children(Vec::new(ctx.alloc()));
    clear_at(parts.as_mut_slice(), 2);
    node.replace_children(parts);
}

/// An `if` loses an alternate that is empty, where none of an `if` around may follow. The context is told.
pub(crate) fn fold_empty_alternate(node: &mut Node, ctx: &mut MinifierTraverseCtx) -> bool
    ensures does { Does fold_empty_alternate ctx.old node.old result ctx.new node.new }
{
    if !has_empty_alternate(node) {
        return false;
    }
    if !last_from(ctx.ancestors_above()) {
        return false;
    }
    drop_alternate(node, ctx);
    true
}
