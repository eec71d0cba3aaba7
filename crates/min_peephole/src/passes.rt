// Passes, until one asks for no other.
ghost use Rattle.std.specs.Prelude.{◌≡◌, ◌+◌, ◌≤◌, ◌<◌, ◌^◌, OnOk, IfOk, true, false};
ghost use Rattle.js_syntax.specs.Facts.{weight};
ghost use Rattle.js_syntax.specs.Node.{forest_of, total};
ghost use Rattle.steps.specs.Allowed.Edits.{TreeEdits};
ghost use Rattle.scope_laws.specs.Exact.{Exact};
ghost use Rattle.min_peephole.specs.CleanBy.{CleanBy};
ghost use Rattle.min_peephole.specs.Between.{BetweenPasses};
ghost use Rattle.min_peephole.specs.Walked.{Walked};

use js_syntax::{NodeKind, SPAN, SourceType};
use js_tree::{Node, Program};
use min_context::ReusableMinifierTraverseCtx;
use min_statements::{Statements, walk_statements};
use std::alloc::{AllocError, Global};
use std::mem::replace;

/// What a pass asks for.
#[derive(Clone, Copy)]
pub struct PassOutcome {
    pub needs_another_pass: bool,
}

fn empty_program(alloc: Global) -> Program {
    Program::new(Node::new(NodeKind::Program(SourceType::Module), SPAN, Vec::new(alloc)))
}

// The walk of a pass.
fn walk(
    statements: &mut Statements,
    program: &mut Program,
    ctx: &mut ReusableMinifierTraverseCtx,
) -> Result<(), AllocError>
    requires between { BetweenPasses statements.old ctx.old (forest_of program.old) }
    ensures walked { OnOk result (Walked statements.old ctx.old (forest_of program.old) statements.new ctx.new (forest_of program.new)) }
    ensures options { OnOk result (ctx.new.options ≡ ctx.old.options) }
    ensures quiet { OnOk result (ctx.new.requested ≡ false → program.new ≡ program.old) }
{
    let empty = empty_program(ctx.get().alloc());
    let mut root = replace(program, empty).into_root();
    walk_statements(statements, &mut root, ctx.get_mut())?;
    *program = Program::new(root);
    Ok(())
}

/// One walk that takes dead code out, and its completion. It asks for another pass exactly if it changed the program. It fails only
/// for want of memory; then the program, the walker and the context may be dropped, and nothing else is known of them.
pub fn run_peephole_pass(
    statements: &mut Statements,
    program: &mut Program,
    ctx: &mut ReusableMinifierTraverseCtx,
) -> Result<PassOutcome, AllocError>
    requires between { BetweenPasses statements.old ctx.old (forest_of program.old) }
    ensures edits { OnOk result (TreeEdits (forest_of program.old) (forest_of program.new)) }
    ensures between { OnOk result (BetweenPasses statements.new ctx.new (forest_of program.new)) }
    ensures exact { OnOk result (Exact ctx.new.scoping (forest_of program.new)) }
    ensures lighter { IfOk result (λ o. o.needs_another_pass ≡ true → total weight (forest_of program.new) < total weight (forest_of program.old)) }
    ensures quiet { IfOk result (λ o. o.needs_another_pass ≡ false → program.new ≡ program.old) }
    ensures same { IfOk result (λ o. o.needs_another_pass ≡ false → ctx.new ≡ ctx.old) }
    ensures options { OnOk result (ctx.new.options ≡ ctx.old.options) }
    ensures clean { IfOk result (λ o. o.needs_another_pass ≡ false → CleanBy ctx.old.options (forest_of program.new)) }
{
    walk(statements, program, ctx)?;
    let needs_another_pass = ctx.get().revisit_requested();
    if needs_another_pass {
        ctx.get_mut().complete_pass(program);
    }
    Ok(PassOutcome { needs_another_pass })
}

/// Passes, one after another until one asks for no other: how many were followed by another. Each of these made the program lighter.
pub fn run_passes(
    statements: &mut Statements,
    program: &mut Program,
    ctx: &mut ReusableMinifierTraverseCtx,
) -> Result<u64, AllocError>
    requires between { BetweenPasses statements.old ctx.old (forest_of program.old) }
    requires small { total weight (forest_of program.old) < 2 ^ 64 }
    ensures edits { OnOk result (TreeEdits (forest_of program.old) (forest_of program.new)) }
    ensures between { OnOk result (BetweenPasses statements.new ctx.new (forest_of program.new)) }
    ensures few { IfOk result (λ n. n + total weight (forest_of program.new) ≤ total weight (forest_of program.old)) }
    ensures none { IfOk result (λ n. n ≡ 0 → program.new ≡ program.old) }
    ensures same { IfOk result (λ n. n ≡ 0 → ctx.new ≡ ctx.old) }
    ensures options { OnOk result (ctx.new.options ≡ ctx.old.options) }
    ensures clean { OnOk result (CleanBy ctx.old.options (forest_of program.new)) }
{
    let mut iterations: u64 = 0;
    while run_peephole_pass(statements, program, ctx)?.needs_another_pass {
        iterations += 1;
    }
    Ok(iterations)
}
