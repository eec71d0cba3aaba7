// Small expressions that the definition of silent forms is tried on.
ghost use Rattle.std.specs.Prelude.{false, true};
ghost use Rattle.js_effects_quiet.specs.Rows.{Are, silent, acting};

/// `this`, `typeof` of any name, comparisons, and arithmetic on what is primitive are silent.
pub fn silent_forms()
    ensures { Are false silent }
{}

/// A name without binding isn't, nor is a call, nor arithmetic on what may be an object, nor what asks the host.
pub fn other_forms()
    ensures { Are true acting }
{}
