// A walk over a program.
ghost use Rattle.std.specs.Prelude.{◌≡◌, ◌+◌, ◌<◌, ◌≤◌, ◌||◌, OnOk, ℕ, length, nat_lt, false};
ghost use Rattle.js_syntax.specs.Facts.{weight};
ghost use Rattle.js_syntax.specs.Node.{forest_of, total};
ghost use Rattle.scope_counts.specs.Counts.{ids};
ghost use Rattle.symbol_sets.specs.Numbers.{has};
ghost use Rattle.steps.specs.Allowed.Edits.{TreeEdits};
ghost use Rattle.min_context.specs.IsTrue.{IsTrue};
ghost use Rattle.min_context.specs.Place.{outside};
ghost use Rattle.min_context.specs.Seen.{still};
ghost use Rattle.min_traverse.specs.Moves.{busy};
ghost use Rattle.rules.specs.DeadCode.Knows.{Knows};
ghost use Rattle.rules.specs.DeadCode.Quiet.{IsQuiet};
ghost use Rattle.rules.specs.Expressions.Settled.{IsSettled};
ghost use Rattle.rules.specs.Imports.Quiet.{ImportsUsed};
ghost use Rattle.min_statements.specs.Own.{ExportedOnly, IsToldOnly};
ghost use Rattle.min_statements.specs.Walker.{facts_of};

use crate::statements::Statements;
use js_tree::Node;
use min_context::MinifierTraverseCtx;
use min_traverse::traverse_root;
use std::alloc::AllocError;

/// Takes dead code out of the lists of statements and unused names out of the imports of a whole program, given by its root, empties
/// silent statements elsewhere and branches and bodies that do nothing, makes statements of the values of names that nothing uses, and lets
/// expressions and `if`s that known tests decide come to the
/// part that counts, alone or behind a zero, operations, arrays, objects and sequences of which nobody takes the value to what of them acts, and operations that don't act to
/// their values: one pass. What is left comes by edits that a dead code remover may make, exactly what left is marked, and what was known
/// of the program is known of what is left. If no other pass is asked for then, the program, the walker and the context are as they were,
/// nothing of the program goes by what is known, each name of an import is used, and none of its expressions comes to its parts or its
/// value.
///
/// It fails where memory is wanting. Then the program, the walker and the context may be dropped, and nothing else is known of them.
pub fn walk_statements(
    walker: &mut Statements,
    root: &mut Node,
    ctx: &mut MinifierTraverseCtx,
) -> Result<(), AllocError>
    requires is_true { IsTrue (still ctx.old) (forest_of root.old) }
    requires known { Knows (facts_of walker.old ctx.old) (has ctx.old.marked) (forest_of root.old) }
    requires only { IsToldOnly ctx.old.scoping ctx.old.eval_dropped (forest_of root.old) }
    requires exported_only { ExportedOnly walker.old (forest_of root.old) }
    requires outside { ctx.old.place ≡ outside }
    ensures edits { OnOk result (TreeEdits (forest_of root.old) (forest_of root.new)) }
    ensures is_true { OnOk result (IsTrue (still ctx.new) (forest_of root.new)) }
    ensures known { OnOk result (Knows (facts_of walker.new ctx.new) (has ctx.new.marked) (forest_of root.new)) }
    ensures only { OnOk result (IsToldOnly ctx.new.scoping ctx.new.eval_dropped (forest_of root.new)) }
    ensures exported_only { OnOk result (ExportedOnly walker.new (forest_of root.new)) }
    ensures options { OnOk result (ctx.new.options ≡ ctx.old.options) }
    ensures room { OnOk result (length ctx.new.marked ≡ length ctx.old.marked) }
    ensures marks { OnOk result ((r : ℕ) → r < length ctx.old.marked → has ctx.new.marked r ≡ (has ctx.old.marked r || nat_lt (ids r (forest_of root.new)) (ids r (forest_of root.old)))) }
    ensures lighter { OnOk result (total weight (forest_of root.new) + busy ctx.new ≤ total weight (forest_of root.old) + busy ctx.old) }
    ensures quiet { OnOk result (ctx.new.requested ≡ false → root.new ≡ root.old) }
    ensures nothing_goes { OnOk result (ctx.new.requested ≡ false → IsQuiet (facts_of walker.new ctx.new) (forest_of root.new)) }
    ensures uses_imports { OnOk result (ctx.new.requested ≡ false → ImportsUsed (facts_of walker.new ctx.new) (forest_of root.new)) }
    ensures settled { OnOk result (ctx.new.requested ≡ false → IsSettled (forest_of root.new)) }
    ensures names { OnOk result (ctx.new.requested ≡ false → walker.new ≡ walker.old) }
    ensures context { OnOk result (ctx.new.requested ≡ false → ctx.new ≡ ctx.old) }
    ensures outside { OnOk result (ctx.new.place ≡ outside) }
{
    traverse_root(walker, root, ctx)?;
    Ok(())
}
