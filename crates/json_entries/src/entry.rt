// What stands behind a key.
use js_syntax::NodeType;
use json_table::Hint;

/// What stands behind a key. The number of a scalar or node is its place among those of the node, in
/// reading order.
#[derive(Clone, Copy)]
pub enum Content {
    Type(NodeType),
    Scalar(u8),
    /// Written where the scalar is true alone.
    Mark(u8),
    Child(usize),
    /// A scalar, or, where that says so, a node.
    Key(u8, usize),
    Flag(Hint),
    No,
    Yes,
    Nothing,
    /// An object without a field.
    Empty,
    Word(&'static str),
    /// An Identifier of this name.
    Name(&'static str),
}

/// A key, and what stands behind it.
#[derive(Clone, Copy)]
pub struct Entry(pub &'static str, pub Content);
