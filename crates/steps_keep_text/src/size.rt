// How large what edits leave is. The law is a contract, so that the check proves it.
ghost use Rattle.std.specs.Prelude.{◌≤◌};
ghost use Rattle.js_syntax.specs.Class.{root};
ghost use Rattle.js_syntax.specs.Node.{Forest};
ghost use Rattle.js_tree.specs.Count.{node_count, levels};
ghost use Rattle.json_shape.specs.Shape.{Fits};
ghost use Rattle.steps.specs.Allowed.Edits.{TreeEdits, Edits};

/// Law: what edits leave of a program that fits the table of node types has no more nodes, and no more levels; edits of its tree,
/// and edits of a program, whose spans and ids don't matter.
pub fn edits_leave_no_larger()
    ensures nodes_of_tree { (t u : Forest) → TreeEdits t u → Fits root t → node_count u ≤ node_count t }
    ensures levels_of_tree { (t u : Forest) → TreeEdits t u → Fits root t → levels u ≤ levels t }
    ensures nodes { (t u : Forest) → Edits t u → Fits root t → node_count u ≤ node_count t }
    ensures levels { (t u : Forest) → Edits t u → Fits root t → levels u ≤ levels t }
{}
