// What stands first in a row, and what it is asked.
ghost use Rattle.std.specs.Prelude.{IfOk, ◌≡◌};
ghost use Rattle.js_syntax.specs.Node.{row};
ghost use Rattle.js_meaning.specs.Node.{is_statement, first_ask, need};
ghost use Rattle.js_meaning.specs.Meaning.{eval};
ghost use Rattle.js_meaning.specs.Host.{Enter};
ghost use Rattle.run_plan.specs.Ask.{ask_of};
ghost use Rattle.run_plan.specs.Frame.{plans};
ghost use Rattle.run_plan.specs.Front.{front_of};

use crate::{Ask, Labels, Plan, Wanted, asks, discard_ask, uncovered};
use js_syntax::NodeKind;
use js_tree::Node;
use run_value::Env;
use std::alloc::{AllocError, Global};

/// What a row begins with: a node, a field that is not there, or nothing.
pub enum Front<'a> {
    Node(&'a Node, &'a [Option<Node>]),
    Absent(&'a [Option<Node>]),
    End,
}

/// What a row begins with.
pub fn first_field<'a>(nodes: &'a [Option<Node>]) -> Front<'a>
    ensures { front_of result ≡ row nodes.now }
{
    match nodes {
        [Some(node), others @ ..] => Front::Node(node, others),
        [None, others @ ..] => Front::Absent(others),
        [] => Front::End,
    }
}

fn is_statement(kind: &NodeKind) -> bool
    ensures { result ≡ is_statement kind.now }
{
    match kind {
        NodeKind::VariableDeclaration(_) => true,
        NodeKind::FunctionBody => true,
        _ => false,
    }
}

/// What the first node of a row is asked for, where it may be a statement or an expression.
pub fn first_ask<'a>(nodes: &'a [Option<Node>]) -> Ask<'a>
    ensures { ask_of result ≡ first_ask (row nodes.now) }
{
    match nodes {
        [Some(node), ..] => {
            if is_statement(node.kind()) {
                Ask::Run(Labels::none())
            } else {
                Ask::Value(Wanted::Itself)
            }
        }
        _ => Ask::Value(Wanted::Itself),
    }
}

/// The first node of a row, which has to be there, is asked this.
#[tactic(auto, unfolding(js_meaning::specs::Node::need, js_meaning::specs::Meaning::eval))]
pub fn asks_first<'a>(
    alloc: Global,
    nodes: &'a [Option<Node>],
    ask: Ask<'a>,
    env: Env<'a>,
) -> Result<Plan<'a>, AllocError>
    ensures { IfOk result (λ p. (E : Enter) → plans E p ≡ need (eval E (row nodes.now)) (λ m r. m (ask_of ask.entry) env.entry)) }
{
    match first_field(nodes) {
        Front::Node(node, _) => asks(alloc, node, ask, env),
        Front::Absent(_) => {
            discard_ask(ask);
            uncovered(alloc)
        }
        Front::End => {
            discard_ask(ask);
            uncovered(alloc)
        }
    }
}
