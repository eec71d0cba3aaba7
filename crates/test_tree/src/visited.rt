// A walk that counts.
ghost use Rattle.std.specs.Prelude.{ℕ, Bool};
ghost use Rattle.js_syntax.specs.Node.{Tree};

use js_tree::{Node, NodeKind, Program, Visit, walk_program};
use std::alloc::{AllocError, Global};

// Counts what it visits, and walks into all but blocks.
#[derive(Drop)]
struct Counter {
    visited: u64,
}

impl Visit for Counter {
    ghost visits = { λ _ _ _ _. Unit {0} };

    fn visit(&mut self, node: &Node) -> bool {
        self.visited = self.visited.saturating_add(1);
        !matches!(node.kind(), NodeKind::BlockStatement)
    }
}

/// How many nodes a walk visits that passes by what lies below blocks.
pub(crate) fn visited(alloc: Global, program: &Program) -> Result<String, AllocError> {
    let mut counter = Counter { visited: 0 };
    walk_program(&mut counter, program);
    let visited = counter.visited;
    format!(in alloc; "visits {visited}")
}
