// Steps of core modules. Each law is a contract, so that the check proves it.
ghost use Rattle.std.specs.Prelude.{◌≡◌, true};
ghost use Rattle.js_syntax.specs.Node.{Note, Forest};
ghost use Rattle.js_meaning.specs.Kept.{Refined};
ghost use Rattle.js_meaning_near.specs.Near.{module_of};
ghost use Rattle.steps.specs.Steps.{Step, outermost};
ghost use Rattle.steps.specs.KeepRuns.Formed.{is_formed};
ghost use Rattle.steps.specs.KeepRuns.Once.{Once};
ghost use Rattle.steps.specs.Naming.Placed.{is_well_placed};
ghost use Rattle.steps.specs.Fit.Clear.{Clear};
ghost use Rattle.steps.specs.Fit.Sensible.{IsSensible, IsSensibleModule};

/// Law: where the scopes of a module are clear, a name whose declaration a step takes away stands in its scope no
/// more, or what still declares it there has cells.
pub fn a_step_is_once()
    ensures { (n m : Note) (a u : Forest) (s : Step outermost (module_of n m a) u) → is_formed (module_of n m a) ≡ true → is_well_placed u ≡ true
        → Clear (module_of n m a) → Once s }
{}

/// Law: so a step from a core module that fits the table of node types and breaks no rule of form leads to a program that
/// refines it, if that fits the table and breaks none.
pub fn a_step_refines()
    ensures { (t u : Forest) → Step outermost t u → IsSensibleModule t → IsSensible u → Refined t u }
{}
