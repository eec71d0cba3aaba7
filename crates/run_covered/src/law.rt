// What holds of the definitions themselves.
ghost use Rattle.std.specs.Prelude.{◌≡◌, ℕ, Some, None, false};
ghost use Rattle.js_syntax.specs.declared.node_kind.NodeKind.{NodeKind};
ghost use Rattle.js_syntax.specs.Facts.{is_core};
ghost use Rattle.js_syntax.specs.Node.{Forest};
ghost use Rattle.run_covered.specs.Covered.{first_in, Stands, IsLeast};

/// Law: the node that is found first stands at the least place of all that are not of the core.
pub fn the_first_is_the_least()
    ensures { (t : Forest) (place : ℕ) → first_in 0 t ≡ Some place → IsLeast t place }
{}

/// Law: where none is found, none stands anywhere.
pub fn none_is_left_out()
    ensures { (t : Forest) (k : NodeKind) (place : ℕ) → first_in 0 t ≡ None → is_core k ≡ false → Stands k place 0 t → ⊥ }
{}
