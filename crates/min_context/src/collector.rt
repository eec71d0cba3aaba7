// A visitor that marks what leaves.
ghost use Rattle.std.specs.Prelude.{◌≡◌};
ghost use Rattle.js_syntax.specs.Node.{Forest};
ghost use Rattle.js_tree.specs.Walk.{Walks};
ghost use Rattle.scope_counts.specs.Counts.{ids};
ghost use Rattle.min_context.specs.Collecting.{Collects};
ghost use Rattle.min_context.specs.Edited.{evals};
ghost use Rattle.min_context.specs.Left.{Left};
ghost use Rattle.min_context.specs.declared.collector.DroppedSubtreeCollector.{DroppedSubtreeCollector};

use crate::marks::mark_own;
use js_tree::{Node, Visit};
use min_symbols::PassChanges;

/// Marks each reference that it meets, and notes each direct call of `eval`. It takes no memory.
pub struct DroppedSubtreeCollector<'a> {
    changes: &'a mut PassChanges,
}

impl<'a> DroppedSubtreeCollector<'a> {
    /// What it meets is noted in these changes.
    pub fn new(changes: &'a mut PassChanges) -> DroppedSubtreeCollector<'a>
        ensures same_reference { result.changes.ghost_name ≡ changes.entry.ghost_name }
        ensures changes { result.changes.now ≡ changes.old }
    {
        DroppedSubtreeCollector { changes }
    }
}

impl<'a> Visit for DroppedSubtreeCollector<'a> {
    ghost visits = { Collects };

    fn visit(&mut self, node: &Node) -> bool {
        mark_own(self.changes, node);
        true
    }
}

/// Law: a walk over a tree marks each of its references, and notes each of its direct calls of `eval`.
pub fn a_walk_marks_what_it_meets()
    ensures { (t : Forest) (c d : DroppedSubtreeCollector) → Walks Collects t c d → Left c.changes.now (λ r. ids r t) (evals t) d.changes.now }
{}
