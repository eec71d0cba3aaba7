// What an edit at one place of a core module does to its runs. Each law is a contract, so that the check proves it.
ghost use Rattle.std.specs.Prelude.{◌≡◌, true, Some};
ghost use Rattle.js_syntax.specs.Class.{root};
ghost use Rattle.js_syntax.specs.Node.{Note, Forest, Tree};
ghost use Rattle.js_meaning.specs.Kept.{Refined};
ghost use Rattle.js_meaning_near.specs.Near.{module_of};
ghost use Rattle.json_shape.specs.Shape.{Fits};
ghost use Rattle.form_rules.specs.Form.{IsWellFormed};
ghost use Rattle.scope_laws.specs.Place.{Around, plug};
ghost use Rattle.steps.specs.Steps.{all_core};
ghost use Rattle.steps.specs.Owed.Comes.{Comes};

/// Law: where a node of a core module becomes a part that it comes to, the new module refines the old one, and is core.
pub fn parts_refine()
    ensures refined { (n m : Note) (b : Forest) (a : Around) (x y : Tree) → Comes a x y → plug a (Some x) ≡ module_of n m b
        → Fits root (module_of n m b) → all_core (module_of n m b) ≡ true
        → Fits root (plug a (Some y)) → IsWellFormed (plug a (Some y)) → Refined (module_of n m b) (plug a (Some y)) }
    ensures core { (a : Around) (x y : Tree) → Comes a x y → all_core (plug a (Some x)) ≡ true → all_core (plug a (Some y)) ≡ true }
{}
