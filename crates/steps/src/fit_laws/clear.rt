// The laws. Each is a contract, so that the check proves it.
ghost use Rattle.std.specs.Prelude.{◌≡◌, true};
ghost use Rattle.js_syntax.specs.Node.{Note, Forest, nothing, node};
ghost use Rattle.form_rules.specs.Form.{IsWellFormed};
ghost use Rattle.js_meaning_near.specs.Near.{module_of};
ghost use Rattle.steps.specs.Naming.Placed.{is_well_placed};
ghost use Rattle.steps.specs.Fit.Catches.{has_blocks_in_catches};
ghost use Rattle.steps.specs.Fit.Clear.{Clear};
ghost use Rattle.steps.specs.Fit.Hoisted.{has_variables_in_place};

/// The scopes of a module that breaks no rule of form are clear, where declarations stand where the table of
/// nodes lets them stand.
pub fn modules_are_clear()
    ensures { (n m : Note) (a : Forest) → is_well_placed (module_of n m a) ≡ true → has_variables_in_place (module_of n m a) ≡ true
        → has_blocks_in_catches (module_of n m a) ≡ true → IsWellFormed (module_of n m a) → Clear (module_of n m a) }
{}
