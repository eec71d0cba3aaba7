// The places of nodes. A node is let go in many ways, one for each kind that it may be; so what takes a node
// away or puts one in its place stands here once, and is one call elsewhere.
ghost use Rattle.std.specs.Prelude.{◌≡◌, Some, None};

use crate::node::Node;

/// Puts a node where another stands, which is let go.
pub fn put(place: &mut Node, node: Node)
    ensures { place.new ≡ node }
{
    *place = node;
}

/// Puts a node in a field of a row; what stood there is let go.
pub fn put_child(place: &mut Option<Node>, node: Node)
    ensures { place.new ≡ Some node }
{
    *place = Some(node);
}

/// Takes what stands in a field of a row, which holds nothing then.
pub fn take(place: &mut Option<Node>) -> Option<Node>
    ensures taken { result ≡ place.old }
    ensures left { place.new ≡ None }
{
    place.take()
}

/// Lets go of what stands in a field of a row, which holds nothing then.
pub fn clear(place: &mut Option<Node>)
    ensures { place.new ≡ None }
{
    *place = None;
}

/// Lets go of a node.
pub fn discard(node: Node) {
    let _ = node;
}
