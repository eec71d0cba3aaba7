// The laws. Each is a contract, so that the check proves it.
ghost use Rattle.js_syntax.specs.Node.{Forest};
ghost use Rattle.steps.specs.Allowed.Edits.{TreeEdits, Edits};

/// Edits of a tree after others are edits of the tree.
pub fn edits_of_a_tree_compose()
    ensures { (t u v : Forest) → TreeEdits t u → TreeEdits u v → TreeEdits t v }
{}

/// Edits after edits are edits.
pub fn edits_compose()
    ensures { (t u v : Forest) → Edits t u → Edits u v → Edits t v }
{}

/// Edits of a tree are edits of its program.
pub fn edits_of_a_tree_are_edits()
    ensures { (t u : Forest) → TreeEdits t u → Edits t u }
{}
