// What holds of what is left of a program.
ghost use Rattle.js_syntax.specs.Node.{Forest};
ghost use Rattle.form_rules.specs.Form.{IsWellFormed};
ghost use Rattle.steps.specs.KeepForm.Sheds.{Sheds, outermost};

/// Law: what a program sheds leaves a program that breaks no rule of form, if it broke none before.
pub fn form_stays()
    ensures { (t u : Forest) → Sheds outermost t u → IsWellFormed t → IsWellFormed u }
{}
