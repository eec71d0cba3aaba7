// The bit of direct eval, as a program has it.
ghost use Rattle.std.specs.Prelude.{◌≡◌, map};
ghost use Rattle.js_syntax.specs.Node.{forest_of, row};
ghost use Rattle.scope_table.specs.Reading.{ancestors};
ghost use Rattle.scope_table.specs.Editing.{with_scope_as};
ghost use Rattle.scope_table.specs.Refreshing.{own_eval, eval_scopes, with_eval, without_eval, refreshed, marked, marked_around, cleared};

use crate::scope::Scope;
use crate::scoping::Scoping;
use js_tree::{Node, Program};
use scope_context::{has_eval_inside, opens};

fn clear_all(scopes: &mut [Scope])
    ensures { scopes.new ≡ map without_eval scopes.old }
{
    for scope in scopes.iter_mut() {
        scope.clear_eval();
    }
}

impl Scoping {
    fn clear_eval(&mut self)
        ensures { self.new ≡ cleared self.old }
    {
        clear_all(&mut self.scopes);
    }

    fn mark_eval(&mut self, scope: u32)
        ensures { self.new ≡ with_scope_as scope with_eval self.old }
    {
        let at = scope as usize;
        if at < self.scopes.len() {
            let scope = &mut self.scopes[at];
            scope.mark_eval();
        }
    }

    // Marks a scope and those around it.
    fn mark_around(&mut self, scope: u32)
        ensures { self.new ≡ marked (ancestors self.old scope) self.old }
    {
        let mut next = Some(scope);
        let most = self.scopes_len();
        for _i in 0..most {
            let Some(at) = next else {
                return;
            };
            self.mark_eval(at);
            next = self.parent_of(at);
        }
    }

    fn mark_node(&mut self, node: &Node)
        ensures { self.new ≡ marked_around (own_eval node.now.kind node.now.note node.now.below) self.old }
    {
        if opens(node) && has_eval_inside(node) {
            if let Some(scope) = node.id() {
                self.mark_around(scope);
            }
        }
    }

    // The recursion goes as deep as the tree.
    fn mark_in(&mut self, nodes: &[Option<Node>])
        ensures { self.new ≡ marked_around (eval_scopes (row nodes.now)) self.old }
    {
        for child in nodes {
            if let Some(node) = child {
                self.mark_node(node);
                self.mark_in(node.children());
            }
        }
    }

    /// Gives the bit `DirectEval` to the scopes of a program in which a direct call of `eval` stands, and to
    /// those around them, and takes it from all others. It takes no memory; the recursion goes as deep as the
    /// tree.
    pub fn refresh_direct_eval_flags(&mut self, program: &Program)
        ensures refreshed { self.new ≡ refreshed (forest_of program.now) self.old }
    {
        self.clear_eval();
        self.mark_node(program.root());
        self.mark_in(program.root().children());
    }
}
