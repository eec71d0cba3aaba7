// Of which statements in a branch that isn't taken a declaration of names is left. The laws are contracts, so that the check proves them.
ghost use Rattle.std.specs.Prelude.{◌≡◌, Some, None};
ghost use Rattle.js_syntax.specs.Node.{Forest, Tree, node};
ghost use Rattle.scope_counts.specs.Edits.{Around, plug};
ghost use Rattle.scope_laws.specs.Place as places;
ghost use Rattle.steps.specs.Allowed.Edits.{Edit, TreeEdits};
ghost use Rattle.steps.specs.Allowed.KeptNames.{KeptNames};
ghost use Rattle.min_options.specs.declared.options.CompressOptions.{CompressOptions};
ghost use Rattle.min_traverse.specs.Lawful.{Lawful};
ghost use Rattle.rules.specs.Expressions.LeftNames.{if_named, name_if};

use min_traverse::Traverse;

/// Law: what the rule on names answers an `if` becomes by edits, and where it answers nothing in a program none of them applies there; and the
/// other way round.
pub fn names_are_left()
    ensures edits { (a : Around) (x y : Tree) (rest : Forest) → if_named x.note x.kind x.below ≡ Some y → TreeEdits (plug a (node x.kind x.note x.below rest)) (plug a (node y.kind y.note y.below rest)) }
    ensures settled { (t : Forest) → ((a : Around) (x : Tree) (rest : Forest) → t ≡ plug a (node x.kind x.note x.below rest) → if_named x.note x.kind x.below ≡ None)
        → (a : places.Around) (x y : Tree) → t ≡ places.plug a (Some x) → KeptNames a x y → ⊥ }
    ensures unsettled { (t : Forest) → ((a : places.Around) (x y : Tree) → t ≡ places.plug a (Some x) → KeptNames a x y → ⊥)
        → (a : Around) (x : Tree) (rest : Forest) → t ≡ plug a (node x.kind x.note x.below rest) → if_named x.note x.kind x.below ≡ None }
{}

/// Law: the rule is lawful for a walker that may make the edits of a dead code remover.
pub fn the_rule_on_names_is_lawful<T: Traverse>()
    ensures names { ((o : CompressOptions) (t u : Forest) → Edit t u → T.edit o t u) → Lawful T.edit name_if }
{}
