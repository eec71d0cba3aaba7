//! What does a step of a dead code remover change in a run? Nothing that anybody could see.
//!
//! `laws::a_step_of_a_core_module_refines`: a core module after a step (steps) refines the module before it
//! (js_meaning), so it keeps its runs; and so it does after several. The form that is asked of the tree stands
//! in `specs/KeepRuns/Formed.antt`; what is asked of a name whose declaration goes, in `specs/KeepRuns/Once.antt`, or more weakly
//! in `specs/KeepRuns/Tidy.antt`. It stands on the law of silence (js_effects_quiet) and the law of contexts (js_meaning_near): the
//! step leaves a module that is near.
//!
//! The code is empty: each function's contract is a law.
pub mod laws;
