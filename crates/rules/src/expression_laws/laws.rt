// Why the rules may do what they do. Each law is a contract, so that the check proves it.
ghost use Rattle.std.specs.Prelude.{◌≡◌, ◌⊎◌, Some, true};
ghost use Rattle.js_syntax.specs.Node.{Forest, Tree, node, bare, forest_of};
ghost use Rattle.min_context.specs.Place.{place_at, goes_on};
ghost use Rattle.min_pass.specs.Around.{outermost};
ghost use Rattle.scope_laws.specs.Place as places;
ghost use Rattle.scope_counts.specs.Edits.{Around, plug};
ghost use Rattle.steps.specs.Allowed.KnownConditional.{KnownConditional};
ghost use Rattle.steps.specs.Allowed.KnownSide.{KnownSide};
ghost use Rattle.steps.specs.Allowed.Places.{asked_at};
ghost use Rattle.steps.specs.Allowed.Unused.{is_unused_at};
ghost use Rattle.steps.specs.Allowed.UnusedOperation.{UnusedOperation};
ghost use Rattle.steps.specs.Allowed.UnusedList.{UnusedList};
ghost use Rattle.steps.specs.Allowed.IndirectChoice.{IndirectChoice};
ghost use Rattle.steps.specs.Allowed.OneSidedChoice.{OneSidedChoice};
ghost use Rattle.steps.specs.Allowed.IdleParts.{IdleParts};
ghost use Rattle.steps.specs.Allowed.TwoSides.{TwoSides};
ghost use Rattle.steps.specs.Allowed.UnusedObject.{UnusedObject};
ghost use Rattle.steps.specs.Allowed.KnownOperation.{KnownOperation};
ghost use Rattle.steps.specs.Allowed.KnownIf.{KnownIf};
ghost use Rattle.steps.specs.Allowed.DeadIf.{DeadIf};
ghost use Rattle.steps.specs.Allowed.EmptyIf.{EmptyIf};
ghost use Rattle.steps.specs.Allowed.EmptyAlternate.{EmptyAlternate};
ghost use Rattle.steps.specs.Allowed.KeptNames.{KeptNames};
ghost use Rattle.steps.specs.Allowed.Unreached.{Unreached};
ghost use Rattle.steps.specs.Allowed.Untaken.{Untaken};
ghost use Rattle.steps.specs.Allowed.IdleStatement.{IdleStatement};
ghost use Rattle.steps.specs.Allowed.IdleTry.{IdleTry};
ghost use Rattle.steps.specs.Allowed.UnrunValue.{UnrunValue};
ghost use Rattle.steps.specs.Allowed.Edits.{TreeEdits};
ghost use Rattle.steps.specs.Allowed.Uses.{use_at};
ghost use Rattle.rules.specs.DeadCode.Before.{before};
ghost use Rattle.rules.specs.Expressions.Uses.{spot_of};
ghost use Rattle.rules.specs.Expressions.Known.{conditional_becomes, logical_becomes};
ghost use Rattle.rules.specs.Expressions.Unused.{unused_becomes, UnusedOperations};
ghost use Rattle.rules.specs.Expressions.Lists.{unused_list_becomes};
ghost use Rattle.rules.specs.Expressions.Indirect.{indirect_becomes};
ghost use Rattle.rules.specs.Expressions.OneSided.{one_sided_becomes};
ghost use Rattle.rules.specs.Expressions.Sequences.{sequence_left};
ghost use Rattle.rules.specs.Expressions.TwoSides.{two_sides_become};
ghost use Rattle.rules.specs.Expressions.Objects.{object_left};
ghost use Rattle.rules.specs.Expressions.Operations.{known_becomes};
ghost use Rattle.rules.specs.Expressions.Ifs.{if_becomes, IfEdit};
ghost use Rattle.rules.specs.Expressions.EmptyIfs.{test_left};
ghost use Rattle.rules.specs.Expressions.EmptyAlternates.{is_last, alternate_left};
ghost use Rattle.rules.specs.Expressions.Jumps.{list_reached};
ghost use Rattle.rules.specs.Expressions.Untaken.{if_left};
ghost use Rattle.rules.specs.Expressions.Settled.{IsSettled};

/// Law: the context of a walk tells what an expression is used for, whether a `with` statement is around, and whether nobody takes
/// the value.
pub fn places_tell_the_use()
    ensures used_as { (a : Around) (rest : Forest) → (spot_of (place_at a (goes_on rest))).used_as ≡ use_at (before a rest) }
    ensures in_with { (a : Around) (rest : Forest) → (spot_of (place_at a (goes_on rest))).in_with ≡ (asked_at (outermost true) (before a rest)).in_with }
    ensures is_unused { (a : Around) (rest : Forest) → (spot_of (place_at a (goes_on rest))).is_unused ≡ is_unused_at (before a rest) }
{}

/// Law: what a rule answers at a place of a walk a node may become there by an edit, or by several one after the other, which leave
/// nothing more to do there.
pub fn answers_are_edits()
    ensures conditional { (a : Around) (x y : Tree) (rest : Forest) → conditional_becomes (spot_of (place_at a (goes_on rest))) x.kind x.below ≡ Some y → KnownConditional (before a rest) x y }
    ensures logical { (a : Around) (x y : Tree) (rest : Forest) → logical_becomes (spot_of (place_at a (goes_on rest))) x.kind x.below ≡ Some y → KnownSide (before a rest) x y }
    ensures unused { (a : Around) (x y : Tree) (rest : Forest) → unused_becomes (spot_of (place_at a (goes_on rest))) x.kind x.below ≡ Some y → UnusedOperations (before a rest) x y }
    ensures none_left { (a : Around) (x y z : Tree) (rest : Forest) → unused_becomes (spot_of (place_at a (goes_on rest))) x.kind x.below ≡ Some y → UnusedOperation (before a rest) y z → ⊥ }
    ensures list { (a : Around) (x y : Tree) (rest : Forest) → unused_list_becomes (spot_of (place_at a (goes_on rest))) x.note x.kind x.below ≡ Some y → UnusedList (before a rest) x y }
    ensures indirect { (a : Around) (x y : Tree) (rest : Forest) → indirect_becomes (spot_of (place_at a (goes_on rest))) x.note x.kind x.below ≡ Some y → IndirectChoice (before a rest) x y }
    ensures one_sided { (a : Around) (x y : Tree) (rest : Forest) → one_sided_becomes (spot_of (place_at a (goes_on rest))) x.note x.kind x.below ≡ Some y → OneSidedChoice (before a rest) x y }
    ensures sequence { (a : Around) (x y : Tree) (rest : Forest) → sequence_left (spot_of (place_at a (goes_on rest))) x.note x.kind x.below ≡ Some y → IdleParts (before a rest) x y }
    ensures two_sides { (a : Around) (x y : Tree) (rest : Forest) → two_sides_become (spot_of (place_at a (goes_on rest))) x.note x.kind x.below ≡ Some y → TwoSides (before a rest) x y }
    ensures object { (a : Around) (x y : Tree) (rest : Forest) → object_left (spot_of (place_at a (goes_on rest))) x.note x.kind x.below ≡ Some y → UnusedObject (before a rest) x y }
    ensures known { (a : Around) (x y : Tree) (rest : Forest) → known_becomes x.note x.kind x.below ≡ Some y → KnownOperation (before a rest) x y }
    ensures statement { (x y : Tree) → if_becomes x.note x.kind x.below ≡ Some y → IfEdit x y }
    ensures test { (x y : Tree) → test_left x.note x.kind x.below ≡ Some y → EmptyIf x y }
    ensures alternate { (a : Around) (x y : Tree) (rest : Forest) → alternate_left (is_last (place_at a (goes_on rest))) x.note x.kind x.below ≡ Some y → EmptyAlternate (before a rest) x y }
    ensures untaken { (a : Around) (x y : Tree) (rest : Forest) → if_left x.note x.kind x.below ≡ Some y → TreeEdits (plug a (node x.kind x.note x.below rest)) (plug a (node y.kind y.note y.below rest)) }
    ensures items { (a : Around) (x y : Tree) (rest : Forest) → list_reached x.note x.kind x.below ≡ Some y → TreeEdits (plug a (node x.kind x.note x.below rest)) (plug a (node y.kind y.note y.below rest)) }
{}

/// Law: and where such an edit applies the rule answers what it leaves, or what more of them leave of that. Of a list, of what goes
/// behind a zero, of a conditional one branch of which acts, of a sequence, of an operation both sides of which act, of an object, and
/// of an operation of known value it answers what the edit leaves but for the notes of the new nodes.
pub fn edits_are_answers()
    ensures conditional { (a : Around) (x y : Tree) (rest : Forest) → KnownConditional (before a rest) x y → conditional_becomes (spot_of (place_at a (goes_on rest))) x.kind x.below ≡ Some y }
    ensures logical { (a : Around) (x y : Tree) (rest : Forest) → KnownSide (before a rest) x y → logical_becomes (spot_of (place_at a (goes_on rest))) x.kind x.below ≡ Some y }
    ensures unused { (a : Around) (x z : Tree) (rest : Forest) → UnusedOperation (before a rest) x z → (y : Tree) × (unused_becomes (spot_of (place_at a (goes_on rest))) x.kind x.below ≡ Some y) × ((y ≡ z) ⊎ UnusedOperations (before a rest) z y) }
    ensures list { (a : Around) (x z : Tree) (rest : Forest) → UnusedList (before a rest) x z → (y : Tree) × (unused_list_becomes (spot_of (place_at a (goes_on rest))) x.note x.kind x.below ≡ Some y) × (bare (forest_of y) ≡ bare (forest_of z)) }
    ensures indirect { (a : Around) (x z : Tree) (rest : Forest) → IndirectChoice (before a rest) x z → (y : Tree) × (indirect_becomes (spot_of (place_at a (goes_on rest))) x.note x.kind x.below ≡ Some y) × (bare (forest_of y) ≡ bare (forest_of z)) }
    ensures one_sided { (a : Around) (x z : Tree) (rest : Forest) → OneSidedChoice (before a rest) x z → (y : Tree) × (one_sided_becomes (spot_of (place_at a (goes_on rest))) x.note x.kind x.below ≡ Some y) × (bare (forest_of y) ≡ bare (forest_of z)) }
    ensures sequence { (a : Around) (x z : Tree) (rest : Forest) → IdleParts (before a rest) x z → (y : Tree) × (sequence_left (spot_of (place_at a (goes_on rest))) x.note x.kind x.below ≡ Some y) × (bare (forest_of y) ≡ bare (forest_of z)) }
    ensures two_sides { (a : Around) (x z : Tree) (rest : Forest) → TwoSides (before a rest) x z → (y : Tree) × (two_sides_become (spot_of (place_at a (goes_on rest))) x.note x.kind x.below ≡ Some y) × (bare (forest_of y) ≡ bare (forest_of z)) }
    ensures object { (a : Around) (x z : Tree) (rest : Forest) → UnusedObject (before a rest) x z → (y : Tree) × (object_left (spot_of (place_at a (goes_on rest))) x.note x.kind x.below ≡ Some y) × (bare (forest_of y) ≡ bare (forest_of z)) }
    ensures known { (a : Around) (x z : Tree) (rest : Forest) → KnownOperation (before a rest) x z → (y : Tree) × (known_becomes x.note x.kind x.below ≡ Some y) × (bare (forest_of y) ≡ bare (forest_of z)) }
    ensures known_if { (x y : Tree) → KnownIf x y → if_becomes x.note x.kind x.below ≡ Some y }
    ensures idle_try { (x y : Tree) → IdleTry x y → if_becomes x.note x.kind x.below ≡ Some y }
    ensures empty_if { (x z : Tree) → EmptyIf x z → (y : Tree) × (test_left x.note x.kind x.below ≡ Some y) × (bare (forest_of y) ≡ bare (forest_of z)) }
    ensures empty_alternate { (a : Around) (x y : Tree) (rest : Forest) → EmptyAlternate (before a rest) x y → alternate_left (is_last (place_at a (goes_on rest))) x.note x.kind x.below ≡ Some y }
    ensures dead_if { (x z : Tree) → DeadIf x z → (y : Tree) × (if_becomes x.note x.kind x.below ≡ Some y) × (bare (forest_of y) ≡ bare (forest_of z)) }
{}

/// Law: so the rules change nothing of a program exactly where no such edit applies in it.
pub fn what_is_settled_has_no_edits()
    ensures conditional { (t : Forest) → IsSettled t → (a : places.Around) (x y : Tree) → t ≡ places.plug a (Some x) → KnownConditional a x y → ⊥ }
    ensures logical { (t : Forest) → IsSettled t → (a : places.Around) (x y : Tree) → t ≡ places.plug a (Some x) → KnownSide a x y → ⊥ }
    ensures unused { (t : Forest) → IsSettled t → (a : places.Around) (x y : Tree) → t ≡ places.plug a (Some x) → UnusedOperation a x y → ⊥ }
    ensures list { (t : Forest) → IsSettled t → (a : places.Around) (x y : Tree) → t ≡ places.plug a (Some x) → UnusedList a x y → ⊥ }
    ensures indirect { (t : Forest) → IsSettled t → (a : places.Around) (x y : Tree) → t ≡ places.plug a (Some x) → IndirectChoice a x y → ⊥ }
    ensures one_sided { (t : Forest) → IsSettled t → (a : places.Around) (x y : Tree) → t ≡ places.plug a (Some x) → OneSidedChoice a x y → ⊥ }
    ensures sequence { (t : Forest) → IsSettled t → (a : places.Around) (x y : Tree) → t ≡ places.plug a (Some x) → IdleParts a x y → ⊥ }
    ensures two_sides { (t : Forest) → IsSettled t → (a : places.Around) (x y : Tree) → t ≡ places.plug a (Some x) → TwoSides a x y → ⊥ }
    ensures object { (t : Forest) → IsSettled t → (a : places.Around) (x y : Tree) → t ≡ places.plug a (Some x) → UnusedObject a x y → ⊥ }
    ensures known { (t : Forest) → IsSettled t → (a : places.Around) (x y : Tree) → t ≡ places.plug a (Some x) → KnownOperation a x y → ⊥ }
    ensures known_if { (t : Forest) → IsSettled t → (a : places.Around) (x y : Tree) → t ≡ places.plug a (Some x) → KnownIf x y → ⊥ }
    ensures dead_if { (t : Forest) → IsSettled t → (a : places.Around) (x y : Tree) → t ≡ places.plug a (Some x) → DeadIf x y → ⊥ }
    ensures unreached { (t : Forest) → IsSettled t → (a : places.Around) (x : Tree) → t ≡ places.plug a (Some x) → Unreached a x → ⊥ }
    ensures untaken { (t : Forest) → IsSettled t → (a : places.Around) (x : Tree) → t ≡ places.plug a (Some x) → Untaken a x → ⊥ }
    ensures empty_if { (t : Forest) → IsSettled t → (a : places.Around) (x y : Tree) → t ≡ places.plug a (Some x) → EmptyIf x y → ⊥ }
    ensures empty_alternate { (t : Forest) → IsSettled t → (a : places.Around) (x y : Tree) → t ≡ places.plug a (Some x) → EmptyAlternate a x y → ⊥ }
    ensures idle_try { (t : Forest) → IsSettled t → (a : places.Around) (x y : Tree) → t ≡ places.plug a (Some x) → IdleTry x y → ⊥ }
    ensures idle { (t : Forest) → IsSettled t → (a : places.Around) (x : Tree) → t ≡ places.plug a (Some x) → IdleStatement a x → ⊥ }
    ensures names { (t : Forest) → IsSettled t → (a : places.Around) (x y : Tree) → t ≡ places.plug a (Some x) → KeptNames a x y → ⊥ }
    ensures unrun { (t : Forest) → IsSettled t → (a : places.Around) (x y : Tree) → t ≡ places.plug a (Some x) → UnrunValue a x y → ⊥ }
    ensures settled { (t : Forest)
        → ((a : places.Around) (x y : Tree) → t ≡ places.plug a (Some x) → KnownConditional a x y → ⊥)
        → ((a : places.Around) (x y : Tree) → t ≡ places.plug a (Some x) → KnownSide a x y → ⊥)
        → ((a : places.Around) (x y : Tree) → t ≡ places.plug a (Some x) → UnusedOperation a x y → ⊥)
        → ((a : places.Around) (x y : Tree) → t ≡ places.plug a (Some x) → UnusedList a x y → ⊥)
        → ((a : places.Around) (x y : Tree) → t ≡ places.plug a (Some x) → IndirectChoice a x y → ⊥)
        → ((a : places.Around) (x y : Tree) → t ≡ places.plug a (Some x) → OneSidedChoice a x y → ⊥)
        → ((a : places.Around) (x y : Tree) → t ≡ places.plug a (Some x) → IdleParts a x y → ⊥)
        → ((a : places.Around) (x y : Tree) → t ≡ places.plug a (Some x) → TwoSides a x y → ⊥)
        → ((a : places.Around) (x y : Tree) → t ≡ places.plug a (Some x) → UnusedObject a x y → ⊥)
        → ((a : places.Around) (x y : Tree) → t ≡ places.plug a (Some x) → KnownOperation a x y → ⊥)
        → ((a : places.Around) (x y : Tree) → t ≡ places.plug a (Some x) → KnownIf x y → ⊥)
        → ((a : places.Around) (x y : Tree) → t ≡ places.plug a (Some x) → DeadIf x y → ⊥)
        → ((a : places.Around) (x : Tree) → t ≡ places.plug a (Some x) → Unreached a x → ⊥)
        → ((a : places.Around) (x : Tree) → t ≡ places.plug a (Some x) → Untaken a x → ⊥)
        → ((a : places.Around) (x : Tree) → t ≡ places.plug a (Some x) → IdleStatement a x → ⊥)
        → ((a : places.Around) (x y : Tree) → t ≡ places.plug a (Some x) → UnrunValue a x y → ⊥)
        → ((a : places.Around) (x y : Tree) → t ≡ places.plug a (Some x) → IdleTry x y → ⊥)
        → ((a : places.Around) (x y : Tree) → t ≡ places.plug a (Some x) → EmptyIf x y → ⊥)
        → ((a : places.Around) (x y : Tree) → t ≡ places.plug a (Some x) → EmptyAlternate a x y → ⊥)
        → ((a : places.Around) (x y : Tree) → t ≡ places.plug a (Some x) → KeptNames a x y → ⊥)
        → IsSettled t }
{}
