// Nodes that have to stand first in a row.
ghost use Rattle.std.specs.Prelude.{◌≡◌};
ghost use Rattle.js_syntax.specs.Node.{row};
ghost use Rattle.js_meaning.specs.State.{M};
ghost use Rattle.js_meaning.specs.Node.{Meaning, need};
ghost use Rattle.js_meaning.specs.Meaning.{eval};
ghost use Rattle.js_meaning.specs.Host.{Enter};
ghost use Rattle.run_plan.specs.Frame.{meaning};
ghost use Rattle.run_expression.specs.Fields.{both, all_three};

use js_tree::Node;
use run_plan::{Front, first_field};

/// The first two nodes of a row, or fewer.
pub(crate) enum Pair<'a> {
    Both(&'a Node, &'a Node),
    Fewer,
}

/// The first three nodes of a row, or fewer.
pub(crate) enum Triple<'a> {
    All(&'a Node, &'a Node, &'a Node),
    Fewer,
}

// The first node of these fields, behind another.
#[tactic(auto, unfolding(js_meaning::specs::Node::need, js_meaning::specs::Meaning::eval))]
fn pair_with<'a>(first: &'a Node, others: &'a [Option<Node>]) -> Pair<'a>
    ensures { (E : Enter) (k : Meaning → Meaning → M) → need (eval E (row others.now)) (λ n r. k (meaning E first.now) n) ≡ both E result k }
{
    match first_field(others) {
        Front::Node(second, _) => Pair::Both(first, second),
        Front::Absent(_) => Pair::Fewer,
        Front::End => Pair::Fewer,
    }
}

/// The first two nodes of a row.
#[tactic(auto, unfolding(js_meaning::specs::Node::need, js_meaning::specs::Meaning::eval))]
pub(crate) fn first_two<'a>(nodes: &'a [Option<Node>]) -> Pair<'a>
    ensures { (E : Enter) (k : Meaning → Meaning → M) → need (eval E (row nodes.now)) (λ m r. need r (λ n r. k m n)) ≡ both E result k }
{
    match first_field(nodes) {
        Front::Node(first, others) => pair_with(first, others),
        Front::Absent(_) => Pair::Fewer,
        Front::End => Pair::Fewer,
    }
}

fn with_pair<'a>(first: &'a Node, pair: Pair<'a>) -> Triple<'a>
    ensures { (E : Enter) (k : Meaning → Meaning → Meaning → M) → both E pair.entry (k (meaning E first.now)) ≡ all_three E result k }
{
    match pair {
        Pair::Both(second, third) => Triple::All(first, second, third),
        Pair::Fewer => Triple::Fewer,
    }
}

/// The first three nodes of a row.
#[tactic(auto, unfolding(js_meaning::specs::Node::need, js_meaning::specs::Meaning::eval))]
pub(crate) fn first_three<'a>(nodes: &'a [Option<Node>]) -> Triple<'a>
    ensures { (E : Enter) (k : Meaning → Meaning → Meaning → M) → need (eval E (row nodes.now)) (λ l r. need r (λ m r. need r (λ n r. k l m n))) ≡ all_three E result k }
{
    match first_field(nodes) {
        Front::Node(first, others) => with_pair(first, first_two(others)),
        Front::Absent(_) => Triple::Fewer,
        Front::End => Triple::Fewer,
    }
}
