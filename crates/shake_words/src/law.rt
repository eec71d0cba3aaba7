// What holds of the definitions themselves.
ghost use Rattle.std.specs.Prelude.{◌≡◌, ℕ, List, [], ◌∷◌, Some, codes, false, not, true};
ghost use Rattle.std.specs.List.{list_all};
ghost use Rattle.shake_words.specs.Meaning.{accepts, command_of, help_words};
ghost use Rattle.shake_words.specs.declared.answer.Command.TheVariants.{Dce, Run};

/// Law: the program's name, whatever it is, and `dce` are accepted, and ask for the tree and the
/// line of counts.
pub fn takes_dce()
    ensures accepted { (name : List ℕ) → accepts (name ∷ codes "dce" ∷ []) ≡ true }
    ensures meaning { (name : List ℕ) → command_of (name ∷ codes "dce" ∷ []) ≡ Some (Dce false) }
{}

/// Law: the program's name, whatever it is, `dce` and `--tree-only` are accepted, and ask for the
/// tree alone.
pub fn takes_dce_with_tree_only()
    ensures accepted { (name : List ℕ) → accepts (name ∷ codes "dce" ∷ codes "--tree-only" ∷ []) ≡ true }
    ensures meaning { (name : List ℕ) → command_of (name ∷ codes "dce" ∷ codes "--tree-only" ∷ []) ≡ Some (Dce true) }
{}

/// Law: the program's name, whatever it is, and `run` are accepted, and ask for a run.
pub fn takes_run()
    ensures accepted { (name : List ℕ) → accepts (name ∷ codes "run" ∷ []) ≡ true }
    ensures meaning { (name : List ℕ) → command_of (name ∷ codes "run" ∷ []) ≡ Some Run }
{}

/// Law: a call for help or for the version is refused, in place of a command with whatever follows
/// it, and behind each command.
pub fn refuses_help()
    ensures alone { (name : List ℕ) (rest : List (List ℕ)) → list_all (λ word. not (accepts (name ∷ word ∷ rest))) help_words ≡ true }
    ensures behind { (name : List ℕ) → list_all (λ word. not (accepts (name ∷ codes "dce" ∷ word ∷ []))) help_words ≡ true }
    ensures behind_run { (name : List ℕ) → list_all (λ word. not (accepts (name ∷ codes "run" ∷ word ∷ []))) help_words ≡ true }
{}
