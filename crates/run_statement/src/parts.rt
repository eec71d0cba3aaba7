// The first node of a row, if it is there.
ghost use Rattle.std.specs.Prelude.{IfOk, ◌≡◌};
ghost use Rattle.js_syntax.specs.Node.{row};
ghost use Rattle.js_meaning.specs.Node.{may, ask_maybe};
ghost use Rattle.js_meaning.specs.Meaning.{eval};
ghost use Rattle.js_meaning.specs.Host.{Enter};
ghost use Rattle.run_plan.specs.Ask.{ask_of};
ghost use Rattle.run_plan.specs.Frame.{plans};

use js_tree::Node;
use run_plan::{Ask, Front, Plan, asks, completes, discard_ask, first_field, uncovered};
use run_value::Env;
use run_world::Completion;
use std::alloc::{AllocError, Global};

/// The first node of a row is asked this, if it is there.
#[tactic(auto, unfolding(js_meaning::specs::Node::may, js_meaning::specs::Meaning::eval))]
pub(crate) fn asks_first_maybe<'a>(
    alloc: Global,
    nodes: &'a [Option<Node>],
    ask: Ask<'a>,
    env: Env<'a>,
) -> Result<Plan<'a>, AllocError>
    ensures { IfOk result (λ p. (E : Enter) → plans E p ≡ may (eval E (row nodes.now)) (λ m r. ask_maybe m (ask_of ask.entry) env.entry)) }
{
    match first_field(nodes) {
        Front::Node(node, _) => asks(alloc, node, ask, env),
        Front::Absent(_) => {
            discard_ask(ask);
            completes(alloc, Completion::Normal)
        }
        Front::End => {
            discard_ask(ask);
            uncovered(alloc)
        }
    }
}
