// Parts of rows of nodes.
ghost use Rattle.std.specs.Prelude.{◌≡◌};
ghost use Rattle.js_syntax.specs.Node.{row};
ghost use Rattle.form_rules.specs.Context.{is_absent};
ghost use Rattle.form_rules.specs.Rules.{first_below, behind};

use js_tree::Node;

/// What lies below the first of these nodes.
pub fn first_below<'a>(nodes: &'a [Option<Node>]) -> &'a [Option<Node>]
    ensures below { row result.now ≡ first_below (row nodes.now) }
{
    match nodes {
        [Some(first), ..] => first.children(),
        _ => &[],
    }
}

/// The nodes behind the first.
pub fn behind<'a>(nodes: &'a [Option<Node>]) -> &'a [Option<Node>]
    ensures behind { row result.now ≡ behind (row nodes.now) }
{
    match nodes {
        [_, rest @ ..] => rest,
        [] => nodes,
    }
}

/// Whether the first of these fields is there to be absent.
pub fn is_absent(nodes: &[Option<Node>]) -> bool
    ensures absent { result ≡ is_absent (row nodes.now) }
{
    match nodes {
        [None, ..] => true,
        _ => false,
    }
}
