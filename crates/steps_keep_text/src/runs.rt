// What the text of what edits leave does. The law is a contract, so that the check proves it.
ghost use Rattle.std.specs.Prelude.{◌≡◌, ℕ, List, Ok};
ghost use Rattle.js_syntax.specs.Node.{Forest, bare, total};
ghost use Rattle.js_meaning.specs.Kept.{Refined};
ghost use Rattle.js_meaning_near.specs.Signed.{signed};
ghost use Rattle.json_text.specs.Answer.{IsReadAs};
ghost use Rattle.json_kept.specs.Respelled.{misnamed};
ghost use Rattle.steps.specs.Allowed.Edits.{Edits};
ghost use Rattle.steps.specs.Fit.Sensible.{IsSensibleModule};

/// Law: what the text is read as of a core module that edits leave of a program that was read refines the module: each run is the
/// same, but that behind what isn't covered it may go on as it likes. So whatever the module refines, its text does. Of the program
/// it is asked that each name of it is one.
pub fn texts_of_edits_refine()
    ensures of_module { (bytes : List ℕ) (t u : Forest) → IsReadAs bytes (Ok t) → Edits t u → total misnamed t ≡ 0 → IsSensibleModule u → Refined u (bare (signed u)) }
    ensures of_program { (bytes : List ℕ) (t u : Forest) → IsReadAs bytes (Ok t) → Edits t u → total misnamed t ≡ 0 → IsSensibleModule u → Refined t u → Refined t (bare (signed u)) }
{}
