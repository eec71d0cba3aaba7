// What the text of what edits leave promises. The law is a contract, so that the check proves it.
ghost use Rattle.std.specs.Prelude.{ℕ, List, Ok, IsUtf8};
ghost use Rattle.js_syntax.specs.Node.{Forest};
ghost use Rattle.form_rules.specs.Form.{IsWellFormed};
ghost use Rattle.json_text.specs.Answer.{IsReadAs};
ghost use Rattle.json_text.specs.Text.{text_of};
ghost use Rattle.steps.specs.Allowed.Edits.{Edits};
ghost use Rattle.headline_text.specs.Written.{TextHeadline};

/// Law: where edits lead from a program that was read and breaks no rule of form, the text of what they leave is read as that if
/// it keeps JSON's limit of nesting, and keeps the runs of a core module. Names are asked of the tree that was read alone, and the
/// nesting of what is left alone: edits may leave a text that nests deeper than the one that was read.
pub fn texts_of_edits_keep_runs()
    ensures { (bytes : List ℕ) (t u : Forest) → IsReadAs bytes (Ok t) → IsWellFormed t → Edits t u → IsUtf8 (text_of u) → TextHeadline t u }
{}
