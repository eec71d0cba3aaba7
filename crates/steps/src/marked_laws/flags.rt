// What the flags of a table's scopes tell of a program that is edited while its table stays. Each law is a contract, so that the
// check proves it.
ghost use Rattle.std.specs.Prelude.{◌≡◌, ℕ, ◌==◌, Bool, true, false, ◌&&◌, Option, Some};
ghost use Rattle.js_syntax.specs.Class.{root};
ghost use Rattle.js_syntax.specs.declared.kind.VariableKind.{VariableKind};
ghost use Rattle.js_syntax.specs.Node.{Forest, Tree};
ghost use Rattle.json_shape.specs.Shape.{Fits};
ghost use Rattle.scope_rules.specs.ScopeFlags as scope_flag;
ghost use Rattle.scope_rules.specs.Site.{sites_of, found_in};
ghost use Rattle.scope_rules.specs.Table.{Scoping, scoping_of, symbols_declared};
ghost use Rattle.scope_rules.specs.Mark.{marked, first_marks};
ghost use Rattle.scope_table.specs.Reading.{scope_at};
ghost use Rattle.scope_laws.specs.Place.{Around, plug};
ghost use Rattle.steps.specs.Allowed.Edits.{TreeEdits};
ghost use Rattle.steps.specs.Allowed.Exposure.{exposure, is_script, evaluates_somewhere, IsOwnFunction, IsOwnDeclarator, IsOwnDeclaration};
ghost use Rattle.steps.specs.Marked.Flags.{scope_has, is_sloppy_block, first_mark, declares_in, stand, Tells, FlagsTell};

/// Law: the flags of the table that is made of a program tell of the program once it is marked.
pub fn flags_tell_of_new_tables()
    ensures { (t : Forest) → Fits root t → let f = found_in (sites_of t) in FlagsTell (scoping_of f) (marked (first_marks (symbols_declared f.bindings)) t) }
{}

/// Law: what the flags of a table's scopes tell of a program, they tell of what edits leave of it.
pub fn edits_keep_what_flags_tell()
    ensures { (t u : Forest) → TreeEdits t u → Fits root t → (s : Scoping) → FlagsTell s t → FlagsTell s u }
{}

/// Law: nothing of the table but its scopes' flags is asked: another with the same flags tells as much.
pub fn flags_alone_tell()
    ensures { (t : Forest) (s now : Scoping) → ((n : ℕ) → (scope_at now n).flags ≡ (scope_at s n).flags) → FlagsTell s t → FlagsTell now t }
{}

/// Law: they tell of each place what is exposed there.
pub fn flags_tell_of_places()
    ensures told { (a : Around) (x : Tree) → (s : Scoping) → FlagsTell s (plug a (Some x)) → Tells s (is_script (plug a (Some x))) (stand a (Some x)) }
    ensures exposure { (a : Around) (x : Option Tree) → (stand a x).exposure ≡ exposure a x }
{}

/// Law: so a function's name is its own where its scope is not a script's, has no direct call of `eval` and is no block of code that
/// is not strict; a variable's, where the scope in which it declares is not a script's and the program has no such call; and it has
/// none where its scope has none.
pub fn flags_tell_what_is_hidden()
    ensures functions { (a : Around) (x : Tree) → (s : Scoping) → FlagsTell s (plug a (Some x)) → (n : ℕ) → (stand a (Some x)).scope ≡ Some n
        → is_script (plug a (Some x)) && n == 0 ≡ false → scope_has s n scope_flag.direct_eval ≡ false → is_sloppy_block s n ≡ false → IsOwnFunction a (Some x) }
    ensures declarators { (a : Around) (x : Tree) → (s : Scoping) → FlagsTell s (plug a (Some x)) → (n : ℕ) → (stand a (Some x)).declaring ≡ Some n
        → is_script (plug a (Some x)) && n == 0 ≡ false → evaluates_somewhere (plug a (Some x)) ≡ false → IsOwnDeclarator a (Some x) }
    ensures declarations { (how : VariableKind) (a : Around) (x : Tree) → (s : Scoping) → FlagsTell s (plug a (Some x)) → (n : ℕ) → declares_in (stand a (Some x)) how ≡ Some n
        → is_script (plug a (Some x)) && n == 0 ≡ false → evaluates_somewhere (plug a (Some x)) ≡ false → IsOwnDeclaration how a (Some x) }
    ensures calls_of_eval { (t : Forest) → Fits root t → (s : Scoping) → FlagsTell s t → (n : ℕ) → first_mark t ≡ Some n → scope_has s n scope_flag.direct_eval ≡ false → evaluates_somewhere t ≡ false }
{}
