// What is asked of the place where a node stands.
ghost use Rattle.std.specs.Prelude.{◌≡◌};
ghost use Rattle.min_pass.specs.Around.{row_below};

use js_syntax::NodeKind;

/// Which row a node stands in.
#[derive(Clone, Copy)]
pub enum Row {
    /// The items of a list of statements.
    Items,
    /// What lies below a declaration that is such an item.
    OfItem,
    /// Its declarators.
    Declarators,
    /// Any other.
    Other,
}

/// What is asked of the place where a node stands.
#[derive(Clone, Copy)]
pub struct Around {
    /// The row that it stands in.
    pub row: Row,
    /// Whether a `with` statement stands around.
    pub in_with: bool,
    /// Whether a class does.
    pub in_class: bool,
    /// Whether it is asked what is known of names.
    pub knows_names: bool,
}

pub(crate) fn row_below(row: Row, kind: &NodeKind) -> Row
    ensures { result ≡ row_below row kind.now }
{
    match kind {
        NodeKind::Statements => Row::Items,
        NodeKind::VariableDeclaration(_) => match row {
            Row::Items => Row::OfItem,
            Row::OfItem | Row::Declarators | Row::Other => Row::Other,
        },
        NodeKind::Declarators => match row {
            Row::OfItem => Row::Declarators,
            Row::Items | Row::Declarators | Row::Other => Row::Other,
        },
        _ => Row::Other,
    }
}
