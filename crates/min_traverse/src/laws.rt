// What the author of a hook may use.
ghost use Rattle.std.specs.Prelude.{◌≡◌, ◌≤◌, ℕ, ◌+◌, Bool, true, false, cond};
ghost use Rattle.js_syntax.specs.declared.kind.FunctionKind.{FunctionKind};
ghost use Rattle.js_syntax.specs.declared.kind.VariableKind.{VariableKind};
ghost use Rattle.js_syntax.specs.declared.node_kind.NodeKind.{NodeKind as Kind};
ghost use Rattle.js_syntax.specs.Facts.{weight};
ghost use Rattle.js_syntax.specs.Node.{Forest, Tree, forest_of, total};
ghost use Rattle.scope_counts.specs.Counts.{ids};
ghost use Rattle.scope_counts.specs.Edits.{Around, plug};
ghost use Rattle.min_context.specs.Edited.{Edited};
ghost use Rattle.min_context.specs.IsTrue.{IsTrue};
ghost use Rattle.min_context.specs.Seen.{Seen, still};
ghost use Rattle.min_options.specs.declared.options.CompressOptions.{CompressOptions};
ghost use Rattle.min_traverse.specs.Edits.{Edits};
ghost use Rattle.min_traverse.specs.Lawful.{Stays, Rule, Lawful, Kept, Does, either};
ghost use Rattle.min_context.specs.declared.ancestor.Ancestor.TheVariants as ancestor;
ghost use Rattle.min_context.specs.declared.ancestor.Parent.{Parent};
ghost use Rattle.min_context.specs.declared.ancestor.Parent.TheVariants as parent;
ghost use Rattle.min_traverse.specs.Moves.{Holds, IsHere, NodeMoves, before};
ghost use Rattle.min_traverse.specs.Slot.{has_key, is_export, is_expression, is_loop_with_head, is_statement, own_slot, outer_slot, middle_slot, inner_slot};
ghost use Rattle.min_traverse.specs.declared.slot.Inner.TheVariants as inner;
ghost use Rattle.min_traverse.specs.declared.slot.Middle.TheVariants as middle;
ghost use Rattle.min_traverse.specs.declared.slot.Outer.TheVariants as outer;

use crate::traverse::Traverse;

/// The link that a chain holds, the text of a directive and the function of a method are no expressions of their own, whatever they
/// are; keys of methods may be. What a link's own object, callee and arguments are is told by what they stand below.
pub fn links_are_no_expressions()
    ensures chain { (at : ℕ) (k : Kind) → middle_slot (ancestor.Field parent.ChainExpression at) k ≡ middle.None }
    ensures directive { (at : ℕ) (k : Kind) → middle_slot (ancestor.Field parent.Directive at) k ≡ middle.None }
    ensures method { (is_constructor : Bool) (k : Kind) → middle_slot (ancestor.Field (parent.MethodDefinition is_constructor) 1) k ≡ middle.None }
    ensures property { (k : Kind) → middle_slot (ancestor.Field (parent.Property true) 1) k ≡ middle.None }
    ensures function { (how : FunctionKind) (pure : Bool) → inner_slot (Kind.Function how pure) ≡ inner.Function }
{}

/// A declaration is no statement in the head of a loop or below an export, and one that declares variables has its own slot there.
pub fn heads_are_no_statements()
    ensures loops { (p : Parent) (k : Kind) → is_loop_with_head p ≡ true → outer_slot (ancestor.Field p 0) k ≡ own_slot k }
    ensures exports { (p : Parent) (at : ℕ) (k : Kind) → is_export p ≡ true → outer_slot (ancestor.Field p at) k ≡ own_slot k }
    ensures own { (how : VariableKind) → own_slot (Kind.VariableDeclaration how) ≡ outer.None }
    ensures variables { (how : VariableKind) → inner_slot (Kind.VariableDeclaration how) ≡ inner.VariableDeclaration }
{}

/// No node is both an expression and a statement.
pub fn expressions_are_no_statements()
    ensures { (k : Kind) → is_expression k ≡ true → is_statement k ≡ false }
{}

/// A node that is a key has the slot of keys, and beside that of an expression if it is one.
pub fn keys_have_their_slot()
    ensures { (p : Parent) (k : Kind) → has_key p ≡ true → outer_slot (ancestor.Field p 0) k ≡ outer.PropertyKey }
{}

/// Edits after edits are edits, and so are none.
pub fn edits_compose<T: Traverse>()
    ensures none { (o : CompressOptions) (t : Forest) → Edits (T.edit o) t t }
    ensures one { (o : CompressOptions) (t u : Forest) → T.edit o t u → Edits (T.edit o) t u }
    ensures both { (o : CompressOptions) (t u v : Forest) → Edits (T.edit o) t u → Edits (T.edit o) u v → Edits (T.edit o) t v }
{}

/// A hook does as it owes where its call does what a lawful rule says, and what the walker asks beside is so again.
pub fn lawful_rules_move<T: Traverse>()
    ensures { Stays T.edit → (rule : Rule) → Lawful T.edit rule → (s s' : T) (c d : Seen) (x y : Tree) (answer : Bool) → Does rule c x answer d y → Kept T.own s c x s' d y → NodeMoves T T.edit (Holds T.own) s c x s' d y }
{}

/// So does one whose call edits as `Edited` says, by the walker's edits: it brings in no reference, the node is lighter if another
/// pass is asked for, and the same if none is.
pub fn edits_move<T: Traverse>()
    ensures { Stays T.edit → (s s' : T) (c d : Seen) (x y : Tree) (asks : Bool)
        → ((a : Around) (r : Forest) → IsHere c a r → IsTrue (still c) (plug a (before x r)) → Edits (T.edit c.options) (plug a (before x r)) (plug a (before y r)))
        → ((i : ℕ) → ids i (forest_of y) ≤ ids i (forest_of x))
        → total weight (forest_of y) + cond asks 1 0 ≤ total weight (forest_of x)
        → (asks ≡ false → y ≡ x)
        → Edited c x y asks d → Kept T.own s c x s' d y → NodeMoves T T.edit (Holds T.own) s c x s' d y }
{}

/// So does one that changes nothing but the walker.
pub fn hooks_may_look<T: Traverse>()
    ensures { (s s' : T) (c : Seen) (x : Tree) → Kept T.own s c x s' c x → NodeMoves T T.edit (Holds T.own) s c x s' c x }
{}

/// Of two rules that are tried one after another, the two together are lawful, and their calls do what both together say.
pub fn rules_in_turn<T: Traverse>()
    ensures lawful { (f g : Rule) → Lawful T.edit f → Lawful T.edit g → Lawful T.edit (either f g) }
    ensures first { (f g : Rule) (c d : Seen) (x y : Tree) → Does f c x true d y → Does (either f g) c x true d y }
    ensures second { (f g : Rule) (c d e : Seen) (x y z : Tree) (answer : Bool) → Does f c x false d y → Does g d y answer e z → Does (either f g) c x answer e z }
{}
