// Small programs, by computing.
ghost use Rattle.std.specs.Prelude.{◌≡◌, [], ◌∷◌, true, Some, codes};
ghost use Rattle.js_syntax.specs.declared.node_kind.NodeKind.{NodeKind as Kind};
ghost use Rattle.js_syntax.specs.declared.value.ModuleName.TheVariants as module_name;
ghost use Rattle.js_syntax.specs.Node.{bare, joined};
ghost use Rattle.form_rules.specs.Samples.{leaf, a_module, a, let_, reads, does, exports};
ghost use Rattle.scope_rules.specs.Samples.{b, imports};
ghost use Rattle.steps.specs.Allowed.Rows.{call_of_eval, takes_from, takes_from_other, default_name, namespace_name, name_as, text_as, shows, shown_as, passes_from, passed_as, passes_namespace};
ghost use Rattle.rules.specs.Imports.Samples.{once, come_of, passed_of, passed_whole, left, left_kept, imports_both, imports_none};

/// A name that nothing refers to leaves its import, which stays without any.
pub fn unused_names()
    ensures some { left [] (a_module (imports_both ∷ does (reads a) ∷ [])) ≡ imports a }
    ensures all { left [] (a_module (imports_both ∷ [])) ≡ imports_none }
{}

/// One that is used stays: where it is read, exported, or a call of `eval` may use it; and so does any where names are kept.
pub fn used_names()
    ensures read { left [] (a_module (imports a ∷ does (reads a) ∷ [])) ≡ imports a }
    ensures exported_by_list { left [] (a_module (imports a ∷ exports a b ∷ [])) ≡ imports a }
    ensures exported { left (true ∷ []) (a_module (imports a ∷ [])) ≡ imports a }
    ensures evaluating { left [] (a_module (imports a ∷ does call_of_eval ∷ [])) ≡ imports a }
    ensures kept { left_kept (a_module (imports a ∷ [])) ≡ imports a }
{}

/// An import without names goes behind a request of its module, whether that has names or not, and not before it.
pub fn repeated_imports()
    ensures bare { once (a_module (imports_none ∷ imports_none ∷ [])) ≡ once (a_module (imports_none ∷ [])) }
    ensures behind_names { once (a_module (imports a ∷ imports_none ∷ [])) ≡ once (a_module (imports a ∷ [])) }
    ensures before { once (a_module (imports_none ∷ imports a ∷ [])) ≡ bare (joined imports_none (imports a)) }
    ensures amid { once (a_module (imports_none ∷ does (reads a) ∷ imports_none ∷ [])) ≡ bare (joined imports_none (does (reads a))) }
{}

/// Names of an import come into the first import of its module that can take them, whatever stands between, and not into one of another
/// module. Nothing comes beside a namespace but one default.
pub fn imports_of_one_module()
    ensures all { come_of (takes_from (name_as a a ∷ []) ∷ does (reads a) ∷ takes_from (default_name b ∷ []) ∷ imports_none ∷ []) ≡ joined (takes_from (default_name b ∷ name_as a a ∷ [])) (does (reads a)) }
    ensures first_that_can { come_of (takes_from (name_as a a ∷ []) ∷ imports b ∷ takes_from (namespace_name a ∷ []) ∷ imports b ∷ []) ≡ joined (takes_from (default_name b ∷ name_as a a ∷ name_as (codes "default") b ∷ [])) (takes_from (namespace_name a ∷ [])) }
    ensures none_that_can { come_of (imports_both ∷ takes_from (namespace_name a ∷ []) ∷ takes_from (namespace_name b ∷ []) ∷ []) ≡ joined imports_both (joined (takes_from (namespace_name a ∷ [])) (takes_from (namespace_name b ∷ []))) }
    ensures other { come_of (imports a ∷ takes_from_other (default_name b ∷ []) ∷ []) ≡ joined (imports a) (takes_from_other (default_name b ∷ [])) }
{}

/// An import that a later export of names alone lists, and nothing else refers to, becomes an export from its module, in its place; the
/// other export goes. A name may be listed more than once.
pub fn imports_that_are_exported()
    ensures one { passed_of [] (takes_from (name_as a b ∷ []) ∷ imports_none ∷ shows (shown_as b (codes "c") ∷ []) ∷ []) ≡ joined (passes_from (passed_as (module_name.Name a) (codes "c") ∷ [])) imports_none }
    ensures several { passed_of [] (takes_from (name_as a a ∷ default_name b ∷ []) ∷ shows (shown_as b b ∷ shown_as a a ∷ shown_as b (codes "c") ∷ []) ∷ [])
        ≡ passes_from (passed_as (module_name.Name (codes "default")) b ∷ passed_as (module_name.Name a) a ∷ passed_as (module_name.Name (codes "default")) (codes "c") ∷ []) }
    ensures namespace { passed_of [] (takes_from (namespace_name a ∷ []) ∷ shows (shown_as a b ∷ []) ∷ []) ≡ passes_namespace b }
    ensures quoted { passed_of [] (takes_from (text_as (codes "a b") a ∷ []) ∷ shows (shown_as a b ∷ []) ∷ []) ≡ passes_from (passed_as (module_name.Text (codes "a b")) b ∷ []) }
    ensures two { passed_of [] (takes_from (name_as a a ∷ []) ∷ takes_from_other (namespace_name b ∷ []) ∷ shows (shown_as b b ∷ []) ∷ shows (shown_as a a ∷ []) ∷ [])
        ≡ joined (passes_from (passed_as (module_name.Name a) a ∷ [])) (leaf (Kind.ExportAllDeclaration (Some (module_name.Name b)) (codes "n"))) }
    ensures whole { passed_whole (imports a ∷ shows (shown_as a a ∷ []) ∷ []) ≡ bare (a_module (passes_from (passed_as (module_name.Name (codes "default")) a ∷ []) ∷ [])) }
{}

/// It stays where the export lists more or less, or stands before it; where something else refers to a name, or a call of `eval` may; and a
/// default beside a namespace.
pub fn imports_that_are_used_besides()
    ensures further { passed_of [] (takes_from (name_as a a ∷ []) ∷ let_ b ∷ shows (shown_as a a ∷ shown_as b b ∷ []) ∷ []) ≡ bare (joined (takes_from (name_as a a ∷ [])) (joined (let_ b) (shows (shown_as a a ∷ shown_as b b ∷ [])))) }
    ensures unlisted { passed_of [] (takes_from (name_as a a ∷ name_as b b ∷ []) ∷ shows (shown_as a a ∷ []) ∷ []) ≡ bare (joined (takes_from (name_as a a ∷ name_as b b ∷ [])) (shows (shown_as a a ∷ []))) }
    ensures in_front { passed_of [] (shows (shown_as a a ∷ []) ∷ imports a ∷ []) ≡ bare (joined (shows (shown_as a a ∷ [])) (imports a)) }
    ensures twice { passed_of [] (imports a ∷ shows (shown_as a a ∷ []) ∷ shows (shown_as a b ∷ []) ∷ []) ≡ bare (joined (imports a) (joined (shows (shown_as a a ∷ [])) (shows (shown_as a b ∷ [])))) }
    ensures read { passed_of [] (imports a ∷ shows (shown_as a a ∷ []) ∷ does (reads a) ∷ []) ≡ bare (joined (imports a) (joined (shows (shown_as a a ∷ [])) (does (reads a)))) }
    ensures beside_default { passed_of [] (takes_from (default_name a ∷ namespace_name b ∷ []) ∷ shows (shown_as a a ∷ shown_as b b ∷ []) ∷ []) ≡ bare (joined (takes_from (default_name a ∷ namespace_name b ∷ [])) (shows (shown_as a a ∷ shown_as b b ∷ []))) }
    ensures exported { passed_of (true ∷ []) (imports a ∷ shows (shown_as a a ∷ []) ∷ []) ≡ bare (joined (imports a) (shows (shown_as a a ∷ []))) }
    ensures evaluating { passed_whole (imports a ∷ shows (shown_as a a ∷ []) ∷ does call_of_eval ∷ []) ≡ bare (a_module (imports a ∷ shows (shown_as a a ∷ []) ∷ does call_of_eval ∷ [])) }
{}
