// Where a fault is.
ghost use Rattle.std.specs.Prelude.{◌≡◌};
ghost use Rattle.json_text.specs.Fault.{fault_of};
ghost use Rattle.json_scan.specs.Place.{fault_at};

use js_syntax::NodeType;
use json_text::TreeError;

/// A field of a type of node.
#[derive(Clone, Copy)]
pub struct Place {
    pub kind: &'static str,
    pub field: &'static str,
}

impl Place {
    /// The fault of this field.
    pub fn fault(self) -> TreeError
        ensures { result ≡ TreeError.BadField self.kind self.field }
    {
        TreeError::BadField {
            kind: self.kind,
            field: self.field,
        }
    }
}

/// The place of a field of a node of this type.
pub fn place_of(kind: NodeType, field: &'static str) -> Place
    ensures fault { fault_at result ≡ fault_of kind field.now }
    ensures field { result.field.now ≡ field.now }
{
    Place {
        kind: kind.name(),
        field,
    }
}
