// The laws of nearness. Each is a contract, so that the check proves it.
ghost use Rattle.std.specs.Prelude.{◌≡◌, suc, ◌+◌, Bool, true, false, List};
ghost use Rattle.js_syntax.specs.declared.node_kind.NodeKind.{NodeKind as Kind};
ghost use Rattle.js_syntax.specs.declared.value.LiteralValue.{LiteralValue as Literal};
ghost use Rattle.js_syntax.specs.Core.{is_core_unary};
ghost use Rattle.js_syntax.specs.Facts.{is_core};
ghost use Rattle.js_syntax.specs.declared.kind.FunctionKind.{FunctionKind};
ghost use Rattle.js_syntax.specs.Node.{Note, Forest, nothing, node};
ghost use Rattle.js_meaning.specs.Value.{Text, Plain, literal_value};
ghost use Rattle.js_meaning.specs.Operator.{truthy, goes_right};
ghost use Rattle.js_meaning.specs.Expression.{wanted_by};
ghost use Rattle.js_meaning.specs.Scope.{Decl, first_of, first_name, lexical, function_decls, module_decls};
ghost use Rattle.js_meaning.specs.Kept.{Kept, KeptBack, Recovered, Refined};
ghost use Rattle.js_meaning_near.specs.Names.{Fact, exactly, known, silent_function, owed_function, Names, declared, Fillable, AllPlain, PlainBut};
ghost use Rattle.js_meaning.specs.Module.{entries, stars, requests};
ghost use Rattle.js_meaning_near.specs.Local.{KeysStay, Stands, Local, IsField};
ghost use Rattle.js_meaning_near.specs.Purpose.{Purpose, ForEffect, asked, Purposes, purpose_here, purposes_behind, for_values, wanted_below};
ghost use Rattle.js_meaning_near.specs.Bare.{stands_bare};
ghost use Rattle.js_meaning_near.specs.Near.{is_blunt, is_calm, hoists_nothing, ComesTo, Silent, SameEffects, SilentCode, Shorter, Row, fields, items, row_below, is_row, Near, NearModule, LooseModule, module_of};
ghost use Rattle.js_meaning_near.specs.Rewritten.{SameNames, DeclaresNone, Rewritten};
ghost use Rattle.js_meaning_near.specs.Unused.{Needed, NeededValues, only_answers, kind_of, below_of, expression_kind, expression_below, IsSome};
ghost use Rattle.js_syntax.specs.declared.operator.LogicalOperator.{LogicalOperator};
ghost use Rattle.js_syntax.specs.declared.operator.LogicalOperator.TheVariants as logical;
ghost use Rattle.js_syntax.specs.declared.operator.BinaryOperator.{BinaryOperator};
ghost use Rattle.js_syntax.specs.declared.operator.BinaryOperator.TheVariants as binary;
ghost use Rattle.js_syntax.specs.declared.operator.UnaryOperator.{UnaryOperator};
ghost use Rattle.js_syntax.specs.declared.operator.UnaryOperator.TheVariants as unary;
ghost use Rattle.js_meaning_near.specs.Examples.{sum, text_of};
ghost use Rattle.js_meaning_near.specs.Known.{Knows, Steady, DeclaredOnce, code_of, empty_code, called};
ghost use Rattle.js_syntax.specs.declared.kind.FunctionKind.TheVariants as function_kind;
ghost use Rattle.js_meaning_near.specs.Fit.{Part, whole, others, within_code, FunctionOk, Fits};
ghost use Rattle.js_meaning_near.specs.Bodies.{QuietBody};
ghost use Rattle.js_meaning_near.specs.Gone.{Gone, GoneBehind, GoneInCode};
ghost use Rattle.js_meaning_near.specs.Once.{Once};
ghost use Rattle.js_meaning_near.specs.Reordered.{ReorderedModule};
ghost use Rattle.js_meaning_near.specs.Reexported.{ReexportedModule};
ghost use Rattle.js_meaning_near.specs.Avoid.{declares, code_declares, NotFunction, Dropped, HasCells, Dropping, InPlace, Avoids};

/// The law of contexts: of two near modules the new one refines the old one.
pub fn near_modules_refine()
    ensures { (n m i j : Note) (a b : Forest) → NearModule a b → Refined (module_of n m a) (module_of i j b) }
{}

/// So it keeps every run of the old one; and where its run ends or is stopped by the host, the old
/// one's was the same, unless that was uncovered.
pub fn near_modules_keep_runs()
    ensures kept { (n m i j : Note) (a b : Forest) → NearModule a b → Kept (module_of n m a) (module_of i j b) }
    ensures back { (n m i j : Note) (a b : Forest) → NearModule a b → KeptBack (module_of n m a) (module_of i j b) }
{}

/// So does a module that declares names of imports elsewhere among its declarations, as where one import
/// binds what two bound.
pub fn reordered_modules_refine()
    ensures { (n m i j : Note) (a b : Forest) → ReorderedModule a b → Refined (module_of n m a) (module_of i j b) }
{}

/// So does a module that passes on what it imports and exports, where the old one has an import and an export
/// of names: an export of an imported name is what the other module exports (ECMA-262 16.2.3.7).
pub fn reexported_modules_refine()
    ensures { (n m i j : Note) (a b : Forest) → ReexportedModule a b → Refined (module_of n m a) (module_of i j b) }
{}

/// What looks up nothing that is dead, unread or known is near itself.
pub fn what_fits_is_near_itself()
    ensures { (us : Purposes) (p : Row) (st : Names) (a : Forest) → Fits whole p st a → Near us p st a a }
{}

/// What changes at one place is near what it was.
pub fn one_change_is_near()
    ensures { (us : Purposes) (p : Row) (st : Names) (a b : Forest) → Once us p st a b → Near us p st a b }
{}

/// Where declarations of a name are gone, it is dead, or unread if it is still declared; all other
/// names are what they were.
pub fn a_name_may_be_dropped()
    ensures { (x : Text) (st : Names) (ds es : List Decl) → Dropped x ds es → HasCells x es → Dropping x st ds es }
{}

/// Where all names are plain, whatever is in its place stays.
pub fn what_is_in_place_fits()
    ensures { (q : Part) (p : Row) (st : Names) (a : Forest) → AllPlain st → InPlace q p a → Fits q p st a }
{}

/// What doesn't mention the only name that isn't plain stays.
pub fn what_avoids_a_name_fits()
    ensures { (bindings : Bool) (x : Text) (q : Part) (p : Row) (st : Names) (a : Forest) →
        PlainBut x st → (bindings ≡ false → Fillable (st x)) → Avoids bindings x q p a → Fits q p st a }
{}

/// A module in which an expression comes to a part of it, or a statement is gone behind a jump or that does nothing, refines the one before.
pub fn a_local_change_refines()
    ensures { (n m : Note) (a b : Forest) → Local for_values items a b → InPlace whole items b → entries a ≡ entries b → stars a ≡ stars b → requests a ≡ requests b → Refined (module_of n m a) (module_of n m b) }
{}

/// A conditional and an `if` on a literal come to the branch that is taken; an expression where it stands bare.
pub fn a_choice_comes_to_its_branch()
    ensures conditional { (u : Purpose) (st : Names) (v : Literal) (n i j : Note) (l z : Kind) (b c : Forest) → truthy (literal_value v) ≡ true → stands_bare (asked u) l b ≡ true →
        ComesTo u st Kind.ConditionalExpression (node (Kind.Literal v) n nothing (node l i b (node z j c nothing))) l b }
    ensures statement { (u : Purpose) (st : Names) (v : Literal) (n i : Note) (l : Kind) (b r : Forest) → truthy (literal_value v) ≡ true → is_calm l ≡ true → IsField r →
        ComesTo u st Kind.IfStatement (node (Kind.Literal v) n nothing (node l i b r)) l b }
    ensures other_expression { (u : Purpose) (st : Names) (v : Literal) (n i j : Note) (l z : Kind) (b c : Forest) → truthy (literal_value v) ≡ false → stands_bare (asked u) z c ≡ true →
        ComesTo u st Kind.ConditionalExpression (node (Kind.Literal v) n nothing (node l i b (node z j c nothing))) z c }
    ensures other_statement { (u : Purpose) (st : Names) (v : Literal) (n i j : Note) (l z : Kind) (b c : Forest) → truthy (literal_value v) ≡ false → is_calm z ≡ true →
        ComesTo u st Kind.IfStatement (node (Kind.Literal v) n nothing (node l i b (node z j c nothing))) z c }
{}

/// Where the new module may make fewer entries it keeps every run of the old one.
pub fn loose_modules_keep_runs()
    ensures { (n m i j : Note) (a b : Forest) → LooseModule a b → Kept (module_of n m a) (module_of i j b) }
{}

/// Rows with changes that are right where this is known of a name are near.
pub fn what_is_rewritten_is_near()
    ensures { (us : Purposes) (x : Text) (f : Fact) (p : Row) (st : Names) (a b : Forest) → Knows x f st → Rewritten (Knows x f) whole us p a b → Near us p st a b }
{}

/// Where a name of the module has one value from its initialisation on, reads of it, wherever they
/// stand, may be that value.
pub fn a_constant_may_be_read()
    ensures { (n m : Note) (x : Text) (p : Plain) (a b : Forest) → DeclaredOnce x (module_decls b) → Rewritten (Knows x (exactly p)) whole for_values items a b → entries a ≡ entries b → stars a ≡ stars b → requests a ≡ requests b → Refined (module_of n m a) (module_of n m b) }
{}

/// Calls of a function with an empty body may go, wherever they stand.
pub fn calls_of_an_empty_function_leave()
    ensures { (n m o i j k l : Note) (pure : Bool) (x : Text) (r s : Forest) →
        DeclaredOnce x (module_decls (node (Kind.Function function_kind.Declaration pure) o (empty_code i j k l x) s)) → Rewritten (Knows x silent_function) whole for_values items r s →
        entries (node (Kind.Function function_kind.Declaration pure) o (empty_code i j k l x) r) ≡ entries (node (Kind.Function function_kind.Declaration pure) o (empty_code i j k l x) s) →
        stars (node (Kind.Function function_kind.Declaration pure) o (empty_code i j k l x) r) ≡ stars (node (Kind.Function function_kind.Declaration pure) o (empty_code i j k l x) s) →
        requests (node (Kind.Function function_kind.Declaration pure) o (empty_code i j k l x) r) ≡ requests (node (Kind.Function function_kind.Declaration pure) o (empty_code i j k l x) s) →
        Kept (module_of n m (node (Kind.Function function_kind.Declaration pure) o (empty_code i j k l x) r)) (module_of n m (node (Kind.Function function_kind.Declaration pure) o (empty_code i j k l x) s)) }
{}

/// So may calls of any function of the module that does nothing but give a value: a statement of one comes to the arguments
/// that act, or leaves its list where none does, and so does a call of which nobody takes the value, or to a literal.
pub fn calls_of_a_silent_function_leave()
    ensures module { (n m : Note) (x : Text) (a b : Forest) → DeclaredOnce x (module_decls b) → Rewritten (Knows x silent_function) whole for_values items a b → entries a ≡ entries b → stars a ≡ stars b → requests a ≡ requests b → Kept (module_of n m a) (module_of n m b) }
    ensures declaration { (us : Purposes) (p : Row) (x : Text) (pure : Bool) (n : Note) (a r s : Forest) → first_name a ≡ Some x → ((st : Names) → Knows x silent_function st → SilentCode st a) → ((st : Names) → Knows x silent_function st → Fits others fields (within_code st function_kind.Declaration a) a) →
        Rewritten (Knows x silent_function) whole (purposes_behind us) p r s → Rewritten (Knows x silent_function) whole us p (node (Kind.Function function_kind.Declaration pure) n a r) (node (Kind.Function function_kind.Declaration pure) n a s) }
    ensures statement { (us : Purposes) (p : Row) (x : Text) (pure : Bool) (n m i j k o : Note) (es ps r s : Forest) → SameNames Kind.ExpressionStatement (node (Kind.CallExpression false pure) m (called i j x es) nothing) (kind_of ps) (below_of o ps) →
        ((st : Names) → Knows x silent_function st → Needed st es ps) → Steady x whole fields ps → Rewritten (Knows x silent_function) whole (purposes_behind us) p r s →
        Rewritten (Knows x silent_function) whole us p (node Kind.ExpressionStatement n (node (Kind.CallExpression false pure) m (called i j x es) nothing) r) (node (kind_of ps) k (below_of o ps) s) }
    ensures leaves { (us : Purposes) (x : Text) (pure : Bool) (n m i j : Note) (es r s : Forest) → DeclaresNone Kind.ExpressionStatement (node (Kind.CallExpression false pure) m (called i j x es) nothing) s →
        ((st : Names) → Knows x silent_function st → Needed st es nothing) → Rewritten (Knows x silent_function) whole us items r s →
        Rewritten (Knows x silent_function) whole us items (node Kind.ExpressionStatement n (node (Kind.CallExpression false pure) m (called i j x es) nothing) r) s }
    ensures expression { (us : Purposes) (p : Row) (x : Text) (pure : Bool) (n m i j o : Note) (es ps r s : Forest) → ForEffect (purpose_here us (is_row r)) → IsSome ps → hoists_nothing (expression_kind ps) ≡ true →
        SameNames (Kind.CallExpression false pure) (called i j x es) (expression_kind ps) (expression_below o ps) → ((st : Names) → Knows x silent_function st → Needed st es ps) → Steady x whole fields ps → Rewritten (Knows x silent_function) whole (purposes_behind us) p r s →
        Rewritten (Knows x silent_function) whole us p (node (Kind.CallExpression false pure) n (called i j x es) r) (node (expression_kind ps) m (expression_below o ps) s) }
    ensures nothing_acts { (us : Purposes) (p : Row) (x : Text) (pure : Bool) (n m i j : Note) (es r s : Forest) (v : Literal) → ForEffect (purpose_here us (is_row r)) → SameNames (Kind.CallExpression false pure) (called i j x es) (Kind.Literal v) nothing →
        ((st : Names) → Knows x silent_function st → Needed st es nothing) → Rewritten (Knows x silent_function) whole (purposes_behind us) p r s →
        Rewritten (Knows x silent_function) whole us p (node (Kind.CallExpression false pure) n (called i j x es) r) (node (Kind.Literal v) m nothing s) }
{}

/// Where one such statement leaves the module itself, or functions of it one each, the module before comes back: what isn't out
/// of a bound was the same within twice the bound and one more, unless it was uncovered.
pub fn a_call_that_leaves_costs_one_entry_at_most()
    ensures module { (n m : Note) (x : Text) (a b : Forest) → DeclaredOnce x (module_decls b) → Gone x items a b → entries a ≡ entries b → stars a ≡ stars b → requests a ≡ requests b → Recovered (λ bound. suc (bound + bound)) (module_of n m a) (module_of n m b) }
    ensures functions { (n m : Note) (x : Text) (a b : Forest) → DeclaredOnce x (module_decls b) → Rewritten (Knows x owed_function) whole for_values items a b → entries a ≡ entries b → stars a ≡ stars b → requests a ≡ requests b → Recovered (λ bound. suc (bound + bound)) (module_of n m a) (module_of n m b) }
    ensures place { (us : Purposes) (p : Row) (x : Text) (f : FunctionKind) (pure : Bool) (n m : Note) (a b r s : Forest) → declares (code_declares f b) x ≡ false → GoneInCode x a b → ((st : Names) → Knows x owed_function st → FunctionOk st f a) → Rewritten (Knows x owed_function) whole (purposes_behind us) p r s →
        Rewritten (Knows x owed_function) whole us p (node (Kind.Function f pure) n a r) (node (Kind.Function f pure) m b s) }
    ensures kept { (p : Row) (x : Text) (a b : Forest) → Gone x p a b → Rewritten (Knows x silent_function) whole for_values p a b }
    ensures kept_place { (us : Purposes) (p : Row) (x : Text) (f : FunctionKind) (pure : Bool) (n m : Note) (a b r s : Forest) → declares (code_declares f b) x ≡ false → GoneInCode x a b → ((st : Names) → Knows x silent_function st → FunctionOk st f a) → Rewritten (Knows x silent_function) whole (purposes_behind us) p r s →
        Rewritten (Knows x silent_function) whole us p (node (Kind.Function f pure) n a r) (node (Kind.Function f pure) m b s) }
{}

/// And so where one leaves the body of a loop, each turn of which is an entry.
pub fn a_call_that_leaves_a_loop_costs_one_entry_at_most()
    ensures while_loop { (us : Purposes) (p : Row) (x : Text) (n m : Note) (a b r s : Forest) → Gone x fields a b → Rewritten (Knows x owed_function) whole (purposes_behind us) p r s → Rewritten (Knows x owed_function) whole us p (node Kind.WhileStatement n a r) (node Kind.WhileStatement m b s) }
    ensures do_loop { (us : Purposes) (p : Row) (x : Text) (n m : Note) (a b r s : Forest) → Gone x fields a b → Rewritten (Knows x owed_function) whole (purposes_behind us) p r s → Rewritten (Knows x owed_function) whole us p (node Kind.DoWhileStatement n a r) (node Kind.DoWhileStatement m b s) }
    ensures for_loop { (us : Purposes) (p : Row) (x : Text) (n m : Note) (a b r s : Forest) → declares (lexical (first_of b)) x ≡ false → GoneBehind x a b → Rewritten (Knows x owed_function) whole (purposes_behind us) p r s →
        Rewritten (Knows x owed_function) whole us p (node Kind.ForStatement n a r) (node Kind.ForStatement m b s) }
    ensures kept_while { (us : Purposes) (p : Row) (x : Text) (n m : Note) (a b r s : Forest) → Gone x fields a b → Rewritten (Knows x silent_function) whole (purposes_behind us) p r s → Rewritten (Knows x silent_function) whole us p (node Kind.WhileStatement n a r) (node Kind.WhileStatement m b s) }
    ensures kept_do { (us : Purposes) (p : Row) (x : Text) (n m : Note) (a b r s : Forest) → Gone x fields a b → Rewritten (Knows x silent_function) whole (purposes_behind us) p r s → Rewritten (Knows x silent_function) whole us p (node Kind.DoWhileStatement n a r) (node Kind.DoWhileStatement m b s) }
    ensures kept_for { (us : Purposes) (p : Row) (x : Text) (n m : Note) (a b r s : Forest) → declares (lexical (first_of b)) x ≡ false → GoneBehind x a b → Rewritten (Knows x silent_function) whole (purposes_behind us) p r s →
        Rewritten (Knows x silent_function) whole us p (node Kind.ForStatement n a r) (node Kind.ForStatement m b s) }
{}

/// Such a function is one whose parameters are names, and whose statements evaluate what is silent, for nothing, for names of
/// its own or to return it; reading its own names is silent.
pub fn a_function_of_silent_statements_is_silent()
    ensures code { (st : Names) (i j k l : Note) (x : Text) (ps b : Forest) → QuietBody st i j k l x ps b → SilentCode st (code_of i j k l x ps b) }
    ensures own_name { (st : Names) (a b : Forest) (x : Text) → declares (function_decls function_kind.Declaration a) x ≡ true → Silent (within_code st function_kind.Declaration a) (Kind.ReferenceName x) b }
{}

/// A logical expression whose left side is a literal comes to its right side, where that stands bare, or to the literal.
pub fn a_known_left_side_goes()
    ensures right { (u : Purpose) (st : Names) (o : LogicalOperator) (v : Literal) (n i : Note) (l : Kind) (b : Forest) → goes_right o (literal_value v) ≡ true → stands_bare (asked u) l b ≡ true →
        ComesTo u st (Kind.LogicalExpression o) (node (Kind.Literal v) n nothing (node l i b nothing)) l b }
    ensures left { (u : Purpose) (st : Names) (o : LogicalOperator) (v : Literal) (n i : Note) (l : Kind) (b c : Forest) → goes_right o (literal_value v) ≡ false →
        ComesTo u st (Kind.LogicalExpression o) (node (Kind.Literal v) n nothing (node l i b nothing)) (Kind.Literal v) c }
{}

/// A silent part in front leaves a sequence of two, where the other stands bare. What doesn't stands behind another part.
pub fn a_silent_part_leaves_a_sequence()
    ensures leaves { (u : Purpose) (st : Names) (k l : Kind) (a b : Forest) (n i j : Note) → Silent st k a → stands_bare (asked u) l b ≡ true →
        ComesTo u st Kind.SequenceExpression (node Kind.Expressions n (node k i a (node l j b nothing)) nothing) l b }
    ensures bare { (u : Purpose) (st : Names) (v z : Literal) (n i j m o p : Note) (l y : Kind) (b c : Forest) → truthy (literal_value v) ≡ true →
        ComesTo u st Kind.ConditionalExpression (node (Kind.Literal v) n nothing (node l i b (node y j c nothing))) Kind.SequenceExpression (node Kind.Expressions m (node (Kind.Literal z) o nothing (node l p b nothing)) nothing) }
{}

/// A call of a function that does nothing comes to its arguments that aren't silent.
pub fn a_silent_call_wastes_its_arguments()
    ensures { (st : Names) (x : Text) (pure : Bool) (n m i j : Note) (es ps : Forest) → st x ≡ known silent_function → Needed st es ps →
        SameEffects st (node (Kind.CallExpression false pure) n (node (Kind.ReferenceName x) m nothing (node Kind.Arguments i es nothing)) nothing) (kind_of ps) (below_of j ps) ps ps }
{}

/// An array literal of which nobody takes the value comes to its parts that aren't silent; a negated
/// comparison with a literal to its other side.
pub fn unused_values_waste_their_parts()
    ensures array { (st : Names) (n m i : Note) (es ps : Forest) → Needed st es ps → SameEffects st (node Kind.ArrayExpression n (node Kind.Elements m es nothing) nothing) (kind_of ps) (below_of i ps) ps ps }
    ensures comparison { (st : Names) (k : Kind) (a : Forest) (v : Literal) (n m i j : Note) →
        SameEffects st (node (Kind.UnaryExpression unary.LogicalNot) n (node (Kind.BinaryExpression binary.StrictEquality) m (node k i a (node (Kind.Literal v) j nothing nothing)) nothing) nothing) Kind.ExpressionStatement (node k i a nothing) (node k i a nothing) (node k i a nothing) }
{}

/// So does a unary operator to its operand, where it takes that as a value, and a binary one to its sides, but for `in` and `instanceof`:
/// what an operator does to values is known, or uncovered.
pub fn unused_operators_waste_their_operands()
    ensures unary { (st : Names) (o : UnaryOperator) (k : Kind) (n i j : Note) (a ps : Forest) → is_core_unary o ≡ true → stands_bare (wanted_by o) k a ≡ true → Needed st (node k i a nothing) ps →
        SameEffects st (node (Kind.UnaryExpression o) n (node k i a nothing) nothing) (kind_of ps) (below_of j ps) ps ps }
    ensures binary { (st : Names) (o : BinaryOperator) (k l : Kind) (n i m j : Note) (a b ps : Forest) → only_answers o ≡ true → Needed st (node k i a (node l m b nothing)) ps →
        SameEffects st (node (Kind.BinaryExpression o) n (node k i a (node l m b nothing)) nothing) (kind_of ps) (below_of j ps) ps ps }
{}

/// A sum of which nobody takes the value does as much with another text on one side: what stands on the other is converted alike.
pub fn a_text_in_an_unused_sum_may_be_another()
    ensures first { (st : Names) (s t : Text) (k : Kind) (n m i h j : Note) (a b c : Forest) → SameEffects st (sum n (text_of s i a (node k j b nothing))) Kind.ExpressionStatement (sum m (text_of t h c (node k j b nothing))) (sum m (text_of t h c (node k j b nothing))) (sum m (text_of t h c (node k j b nothing))) }
    ensures second { (st : Names) (s t : Text) (k : Kind) (n m i h j : Note) (a b c : Forest) → SameEffects st (sum n (node k j b (text_of s i a nothing))) Kind.ExpressionStatement (sum m (node k j b (text_of t h c nothing))) (sum m (node k j b (text_of t h c nothing))) (sum m (node k j b (text_of t h c nothing))) }
{}

/// An object literal to the values of its properties, and a sequence to its parts, where these aren't silent.
pub fn unused_lists_waste_their_parts()
    ensures object { (st : Names) (n i j : Note) (es ps : Forest) → NeededValues st es ps → SameEffects st (node Kind.ObjectExpression n (node Kind.Properties i es nothing) nothing) (kind_of ps) (below_of j ps) ps ps }
    ensures sequence { (st : Names) (n i j : Note) (es ps : Forest) → IsSome es → Needed st es ps → SameEffects st (node Kind.SequenceExpression n (node Kind.Expressions i es nothing) nothing) (kind_of ps) (below_of j ps) ps ps }
{}

/// A logical expression with a silent right side to its left side, and a conditional with silent branches to its test.
pub fn unused_choices_waste_their_tests()
    ensures logical { (st : Names) (o : LogicalOperator) (k l : Kind) (n i m j : Note) (a b ps : Forest) → Silent st l b → Needed st (node k i a nothing) ps →
        SameEffects st (node (Kind.LogicalExpression o) n (node k i a (node l m b nothing)) nothing) (kind_of ps) (below_of j ps) ps ps }
    ensures conditional { (st : Names) (k l z : Kind) (n i m o j : Note) (a b c ps : Forest) → Silent st l b → Silent st z c → Needed st (node k i a nothing) ps →
        SameEffects st (node Kind.ConditionalExpression n (node k i a (node l m b (node z o c nothing))) nothing) (kind_of ps) (below_of j ps) ps ps }
{}

/// What holds of the statement of an expression, holds of the expression wherever nobody takes its value, if some parts stay.
pub fn an_expression_may_waste_less()
    ensures { (u : Purpose) (k : Kind) (i j : Note) (a ps : Forest) → ForEffect u → IsSome ps → is_blunt k ≡ true → hoists_nothing (expression_kind ps) ≡ true →
        ((st : Names) → SameEffects st (node k i a nothing) (kind_of ps) (below_of j ps) ps ps) → Stands u k a (expression_kind ps) (expression_below j ps) }
{}

/// There a conditional of which one branch is silent may be a logical expression; and a sequence loses silent parts that
/// aren't its last one anywhere.
pub fn one_side_of_a_choice_may_stay()
    ensures first { (u : Purpose) (k l z : Kind) (n i j : Note) (a b c : Forest) → ForEffect u → ((st : Names) → Silent st z c) →
        Stands u Kind.ConditionalExpression (node k n a (node l i b (node z j c nothing))) (Kind.LogicalExpression logical.And) (node k n a (node l i b nothing)) }
    ensures second { (u : Purpose) (k l z : Kind) (n i j : Note) (a b c : Forest) → ForEffect u → ((st : Names) → Silent st l b) →
        Stands u Kind.ConditionalExpression (node k n a (node l i b (node z j c nothing))) (Kind.LogicalExpression logical.Or) (node k n a (node z j c nothing)) }
    ensures sequence { (u : Purpose) (n : Note) (es ps : Forest) → ((st : Names) → Shorter st es ps) →
        Stands u Kind.SequenceExpression (node Kind.Expressions n es nothing) Kind.SequenceExpression (node Kind.Expressions n ps nothing) }
{}

/// What only reads a name of which something is known stays.
pub fn what_is_steady_fits()
    ensures { (x : Text) (f : Fact) (q : Part) (p : Row) (st : Names) (a : Forest) → Knows x f st → Steady x q p a → Fits q p st a }
{}

/// So it stays between changes, and around them where it doesn't declare the name again.
pub fn what_is_steady_stays()
    ensures stays { (us : Purposes) (p : Row) (x : Text) (f : Fact) (a : Forest) → Steady x whole p a → Rewritten (Knows x f) whole us p a a }
    ensures behind { (us : Purposes) (p : Row) (x : Text) (f : Fact) (k : Kind) (n : Note) (a r s : Forest) → Steady x whole p (node k n a r) →
        Rewritten (Knows x f) whole (purposes_behind us) p r s → Rewritten (Knows x f) whole us p (node k n a r) (node k n a s) }
    ensures around { (us : Purposes) (p : Row) (x : Text) (f : Fact) (k : Kind) (n m : Note) (a b r : Forest) → is_core k ≡ true → NotFunction k → Steady x whole p (node k n a r) → KeysStay k a b → declares (declared k b) x ≡ false →
        Rewritten (Knows x f) whole (wanted_below (purpose_here us (is_row r)) k) (row_below k) a b → Rewritten (Knows x f) whole us p (node k n a r) (node k m b r) }
    ensures around_code { (us : Purposes) (p : Row) (x : Text) (f : Fact) (h : FunctionKind) (pure : Bool) (n m : Note) (a b r : Forest) → is_core (Kind.Function h pure) ≡ true → Steady x whole p (node (Kind.Function h pure) n a r) → declares (code_declares h b) x ≡ false →
        Rewritten (Knows x f) others for_values fields a b → Rewritten (Knows x f) whole us p (node (Kind.Function h pure) n a r) (node (Kind.Function h pure) m b r) }
{}
