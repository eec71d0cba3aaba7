// Places of nodes that stand side by side.
ghost use Rattle.std.specs.Prelude.{◌≡◌, ◌+◌, ◌^◌, ◌<◌};
ghost use Rattle.js_syntax.specs.Node.{forest_of};
ghost use Rattle.js_tree.specs.Count.{node_count};

use js_tree::{Node, count_of_kind, place_behind};

/// The place behind a node that stands at `place`.
pub(crate) fn behind_node(place: u32, node: &Node) -> u32
    requires fits { place + node_count (forest_of node.now) < 2 ^ 32 }
    ensures behind { result ≡ place + node_count (forest_of node.now) }
{
    place_behind(place + count_of_kind(node.kind()), node.children())
}
