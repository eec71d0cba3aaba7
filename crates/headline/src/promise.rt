// The law. It is a contract, so that the check proves it.
ghost use Rattle.js_syntax.specs.Class.{root};
ghost use Rattle.js_syntax.specs.Node.{Forest};
ghost use Rattle.form_rules.specs.Form.{IsWellFormed};
ghost use Rattle.json_shape.specs.Shape.{Fits};
ghost use Rattle.steps.specs.Allowed.Edits.{Edits};
ghost use Rattle.headline.specs.Clean.{Clean};
ghost use Rattle.headline.specs.Headline.{Headline};

/// Law: where edits lead from a program to one without dead code, this is the program without its dead code, whatever made the
/// edits.
pub fn edits_that_leave_no_dead_code()
    ensures { (t u : Forest) → Fits root t → IsWellFormed t → Edits t u → Clean u → Headline t u }
{}
