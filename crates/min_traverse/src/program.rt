// A walk over a program with a context that other walks use.
ghost use Rattle.std.specs.Prelude.{◌≡◌, ◌<◌, ◌≤◌, ◌+◌, ◌||◌, ℕ, length, nat_lt, false, OnOk};
ghost use Rattle.js_syntax.specs.Facts.{weight};
ghost use Rattle.js_syntax.specs.Node.{forest_of, total};
ghost use Rattle.scope_counts.specs.Counts.{ids};
ghost use Rattle.symbol_sets.specs.Numbers.{has};
ghost use Rattle.min_context.specs.Place.{outside, top};
ghost use Rattle.min_context.specs.Seen.{still};
ghost use Rattle.min_traverse.specs.Edits.{Edits};
ghost use Rattle.min_traverse.specs.Moves.{Holds, busy};
ghost use Rattle.min_traverse.specs.Visits.{Visits};

use crate::traverse::Traverse;
use crate::walk::traverse_root;
use js_syntax::{NodeKind, SPAN, SourceType};
use js_tree::{Node, Program};
use min_context::ReusableMinifierTraverseCtx;
use std::alloc::{AllocError, Global};
use std::mem::replace;

fn empty_program(alloc: Global) -> Program {
    Program::new(Node::new(NodeKind::Program(SourceType::Module), SPAN, Vec::new(alloc)))
}

/// Walks over a whole program, and changes it in place: as `traverse_root`, with a context that one walk after another uses.
/// After a failure the program and the context may be dropped, and nothing else is known of them.
pub fn traverse_mut_with_ctx<T: Traverse>(
    traverse: &mut T,
    program: &mut Program,
    ctx: &mut ReusableMinifierTraverseCtx,
) -> Result<(), AllocError>
    requires holds { Holds T.own traverse.old (still ctx.old) (forest_of program.old) }
    requires outside { ctx.old.place ≡ outside }
    ensures edits { OnOk result (Edits (T.edit ctx.old.options) (forest_of program.old) (forest_of program.new)) }
    ensures holds { OnOk result (Holds T.own traverse.new (still ctx.new) (forest_of program.new)) }
    ensures options { OnOk result (ctx.new.options ≡ ctx.old.options) }
    ensures room { OnOk result (length ctx.new.marked ≡ length ctx.old.marked) }
    ensures marks { OnOk result ((r : ℕ) → r < length ctx.old.marked → has ctx.new.marked r ≡ (has ctx.old.marked r || nat_lt (ids r (forest_of program.new)) (ids r (forest_of program.old)))) }
    ensures lighter { OnOk result (total weight (forest_of program.new) + busy ctx.new ≤ total weight (forest_of program.old) + busy ctx.old) }
    ensures quiet { OnOk result (ctx.new.requested ≡ false → program.new ≡ program.old) }
    ensures visited { OnOk result (ctx.new.requested ≡ false → Visits T.visits T.written top (forest_of program.old) traverse.old ctx.old traverse.new ctx.new) }
    ensures outside { OnOk result (ctx.new.place ≡ outside) }
{
    let empty = empty_program(ctx.get().alloc());
    let mut root = replace(program, empty).into_root();
    traverse_root(traverse, &mut root, ctx.get_mut())?;
    *program = Program::new(root);
    Ok(())
}
