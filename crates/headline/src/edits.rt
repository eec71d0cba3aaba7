// Edits of core modules. Each law is a contract, so that the check proves it.
ghost use Rattle.js_syntax.specs.Node.{Forest};
ghost use Rattle.js_meaning.specs.Kept.{Kept, KeptBack};
ghost use Rattle.steps.specs.Allowed.Edits.{Edits};
ghost use Rattle.steps.specs.Fit.Sensible.{IsSensibleModule};

/// Law: edits lead from a core module that fits the table of node types and breaks no rule of form to no other. Every run is
/// kept, and where the new run ends or is stopped by the host, the old one was the same within the same bound, unless
/// it was uncovered.
pub fn edits_keep_runs()
    ensures stays { (t u : Forest) → Edits t u → IsSensibleModule t → IsSensibleModule u }
    ensures kept { (t u : Forest) → Edits t u → IsSensibleModule t → Kept t u }
    ensures back { (t u : Forest) → Edits t u → IsSensibleModule t → KeptBack t u }
{}
