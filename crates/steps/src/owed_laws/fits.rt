// What edits owe the table of node types.
ghost use Rattle.js_syntax.specs.Class.{root};
ghost use Rattle.js_syntax.specs.Node.{Forest};
ghost use Rattle.json_shape.specs.Shape.{Fits};
ghost use Rattle.steps.specs.Allowed.Edits.{Edit, Edits};

/// Law: an edit of a tree that fits the table of node types leads to one that fits.
pub fn edits_keep_the_table()
    ensures { (t u : Forest) → Edit t u → Fits root t → Fits root u }
{}

/// Law: so do edits of a program one after the other, whatever spans and ids its trees have.
pub fn edits_of_a_program_keep_the_table()
    ensures { (t u : Forest) → Edits t u → Fits root t → Fits root u }
{}
