// Behind a walk, before the next.
ghost use Rattle.std.specs.Prelude.{◌≡◌};
ghost use Rattle.js_syntax.specs.Node.{forest_of};
ghost use Rattle.min_context.specs.Completing.{completed};

use crate::context::MinifierTraverseCtx;
use js_tree::Program;

impl MinifierTraverseCtx {
    /// Completes a pass: of what is left of the program it is read anew in which scopes direct calls of `eval` stand, if such a call
    /// left, and the references that left go out of the lists of symbols. Then nothing is noted of the next pass yet. It takes no
    /// memory.
    pub fn complete_pass(&mut self, program: &Program)
        ensures completed { self.new ≡ completed (forest_of program.now) self.old }
    {
        let table = self.scoping.scoping_mut();
        if self.state.pass_changes.direct_eval_dropped() {
            table.refresh_direct_eval_flags(program);
        }
        table.retain_resolved_references_excluding(self.state.pass_changes.removed_references());
        self.state.pass_changes.clear();
    }
}
