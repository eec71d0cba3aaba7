// What the laws give for some modules. Each is a contract, so that the check proves it.
ghost use Rattle.std.specs.Prelude.{◌≡◌, suc, ◌+◌, Bool, true, false, not, None};
ghost use Rattle.std.specs.Str.{bytes_eq};
ghost use Rattle.js_syntax.specs.declared.node_kind.NodeKind.{NodeKind as Kind};
ghost use Rattle.js_syntax.specs.declared.kind.FunctionKind.TheVariants as function_kind;
ghost use Rattle.js_syntax.specs.declared.kind.VariableKind.TheVariants as variable;
ghost use Rattle.js_syntax.specs.declared.operator.LogicalOperator.TheVariants as logical;
ghost use Rattle.js_syntax.specs.declared.value.LiteralValue.{LiteralValue as Literal};
ghost use Rattle.js_syntax.specs.Node.{Note, Forest, nothing, node, absent, below_of};
ghost use Rattle.js_meaning.specs.Value.{Text, this_name, Plain, plain, literal_value};
ghost use Rattle.js_meaning.specs.Scope.{first_name, lexical, function_decls, module_decls};
ghost use Rattle.js_meaning.specs.Module.{entries};
ghost use Rattle.js_meaning.specs.Kept.{Kept, Recovered, Refined};
ghost use Rattle.js_meaning.specs.Node.{itself, to_call};
ghost use Rattle.js_meaning.specs.Operator.{truthy};
ghost use Rattle.js_meaning_near.specs.Bare.{stands_bare};
ghost use Rattle.js_meaning_near.specs.Local.{Plainly, DeclaresNothing};
ghost use Rattle.js_meaning_near.specs.Near.{cuts_off, hoists_nothing, fields, items, module_of};
ghost use Rattle.js_meaning_near.specs.Fit.{whole};
ghost use Rattle.js_meaning_near.specs.Avoid.{declares, code_declares, HasCells, ExportsAvoid, InPlace, Avoids};
ghost use Rattle.js_meaning_near.specs.Known.{DeclaredOnce, Steady, called};
ghost use Rattle.js_meaning_near.specs.Examples.{block_of, behind_name, function_of, declaration_of, call_statement, expression_statement, literal_statement, empty_statement, if_of, choice_of, array_of, two_of, both_of};

/// An empty statement leaves a list of statements.
pub fn an_empty_statement_leaves()
    ensures { (n : Note) (a : Forest) → InPlace whole items a → Refined (module_of n n (empty_statement n a)) (module_of n n a) }
{}

/// So it does further in.
pub fn an_empty_statement_leaves_a_body()
    ensures { (n : Note) (f : Text) (ps a c : Forest) → InPlace whole fields ps → InPlace whole items a → InPlace whole items c →
        Refined (module_of n n (function_of n f ps (empty_statement n a) c)) (module_of n n (function_of n f ps a c)) }
{}

/// A silent statement becomes empty where no list stands.
pub fn a_silent_statement_empties()
    ensures { (n : Note) (k : Kind) (a c : Forest) (v : Literal) → InPlace whole fields (node k n a nothing) → InPlace whole items c →
        Refined (module_of n n (if_of n k a (literal_statement n v (absent nothing)) c)) (module_of n n (if_of n k a (empty_statement n (absent nothing)) c)) }
{}

/// A function that nothing refers to leaves. Where another declaration of its name stays, its bindings may stay too.
pub fn an_unused_function_leaves()
    ensures { (n : Note) (x : Text) (ps body r : Forest) → Avoids (not (declares (module_decls r) x)) x whole items r → HasCells x (module_decls r) → ExportsAvoid x (entries r) →
        Refined (module_of n n (function_of n x ps body r)) (module_of n n r) }
{}

/// A `let` of a name that nothing refers to leaves its block.
pub fn an_unused_declaration_leaves()
    ensures { (n : Note) (x : Text) (v : Literal) (r c : Forest) →
        Avoids (not (declares (lexical (node Kind.Statements n r nothing)) x)) x whole items r → HasCells x (lexical (node Kind.Statements n r nothing)) → InPlace whole items c →
        Refined (module_of n n (block_of n (declaration_of n variable.Let x v r) c)) (module_of n n (block_of n r c)) }
{}

/// A `var` of a name that nothing refers to leaves a function's body, even where another declares the name again.
pub fn an_unused_variable_leaves()
    ensures { (n : Note) (f x : Text) (v : Literal) (ps r c : Forest) → bytes_eq this_name x ≡ false →
        Avoids (not (declares (function_decls function_kind.Declaration (behind_name n f ps r)) x)) x whole fields ps →
        Avoids (not (declares (function_decls function_kind.Declaration (behind_name n f ps r)) x)) x whole items r →
        HasCells x (function_decls function_kind.Declaration (behind_name n f ps r)) → InPlace whole items c →
        Refined (module_of n n (function_of n f ps (declaration_of n variable.Var x v r) c)) (module_of n n (function_of n f ps r c)) }
{}

/// A statement behind a jump leaves its list.
pub fn what_stands_behind_a_jump_leaves()
    ensures { (n : Note) (k : Kind) (a b c : Forest) → cuts_off k a ≡ true → DeclaresNothing Kind.IfStatement b → InPlace whole items (node k n a c) →
        Refined (module_of n n (node k n a (node Kind.IfStatement n b c))) (module_of n n (node k n a c)) }
{}

/// A constant that holds a literal is read as the literal.
pub fn a_constant_is_read()
    ensures { (n : Note) (x : Text) (p : Plain) (v : Literal) (c : Forest) → literal_value v ≡ plain p → declares (lexical c) x ≡ false → Avoids true x whole items c → ExportsAvoid x (entries c) →
        Refined (module_of n n (declaration_of n variable.Const x v (expression_statement n (Kind.ReferenceName x) c)))
        (module_of n n (declaration_of n variable.Const x v (expression_statement n (Kind.Literal v) c))) }
{}

/// A conditional on a literal becomes its branch, though that is a name or a member: where it is a statement, and where it is
/// called and the branch stands bare there too.
pub fn a_branch_comes_out_bare()
    ensures value { (n : Note) (v : Literal) (l z : Kind) (b c r : Forest) → truthy (literal_value v) ≡ true → stands_bare itself l b ≡ true →
        Plainly Kind.ConditionalExpression (below_of (choice_of n v l b z c nothing)) l b → InPlace whole items (node Kind.ExpressionStatement n (node l n b nothing) r) →
        Refined (module_of n n (node Kind.ExpressionStatement n (choice_of n v l b z c nothing) r)) (module_of n n (node Kind.ExpressionStatement n (node l n b nothing) r)) }
    ensures callee { (n : Note) (pure : Bool) (v : Literal) (l z : Kind) (b c es r : Forest) → truthy (literal_value v) ≡ true → stands_bare to_call l b ≡ true →
        Plainly Kind.ConditionalExpression (below_of (choice_of n v l b z c nothing)) l b →
        InPlace whole items (node Kind.ExpressionStatement n (node (Kind.CallExpression false pure) n (node l n b (node Kind.Arguments n es nothing)) nothing) r) →
        Refined (module_of n n (node Kind.ExpressionStatement n (node (Kind.CallExpression false pure) n (choice_of n v l b z c (node Kind.Arguments n es nothing)) nothing) r))
        (module_of n n (node Kind.ExpressionStatement n (node (Kind.CallExpression false pure) n (node l n b (node Kind.Arguments n es nothing)) nothing) r)) }
{}

/// Where nobody takes the value: `[f, 1, g];` becomes `f, g;`, `t ? f : 1;` becomes `t && f;`, and `t && [f];` becomes `t && f;`.
pub fn an_unused_value_is_not_made()
    ensures array { (n : Note) (v : Literal) (k l : Kind) (a b r : Forest) →
        Plainly Kind.ArrayExpression (node Kind.Elements n (node k n a (node (Kind.Literal v) n nothing (node l n b nothing))) nothing) Kind.SequenceExpression (node Kind.Expressions n (node k n a (node l n b nothing)) nothing) →
        InPlace whole items (node Kind.ExpressionStatement n (two_of n k a l b) r) → Refined (module_of n n (node Kind.ExpressionStatement n (array_of n k a v l b) r)) (module_of n n (node Kind.ExpressionStatement n (two_of n k a l b) r)) }
    ensures choice { (n : Note) (v : Literal) (k l : Kind) (a b r : Forest) →
        Plainly Kind.ConditionalExpression (node k n a (node l n b (node (Kind.Literal v) n nothing nothing))) (Kind.LogicalExpression logical.And) (node k n a (node l n b nothing)) →
        InPlace whole items (node Kind.ExpressionStatement n (both_of n k a l b) r) →
        Refined (module_of n n (node Kind.ExpressionStatement n (node Kind.ConditionalExpression n (node k n a (node l n b (node (Kind.Literal v) n nothing nothing))) nothing) r)) (module_of n n (node Kind.ExpressionStatement n (both_of n k a l b) r)) }
    ensures branch { (n : Note) (k l : Kind) (a b r : Forest) → hoists_nothing l ≡ true → Plainly Kind.ArrayExpression (node Kind.Elements n (node l n b nothing) nothing) l b →
        InPlace whole items (node Kind.ExpressionStatement n (both_of n k a l b) r) →
        Refined (module_of n n (node Kind.ExpressionStatement n (both_of n k a Kind.ArrayExpression (node Kind.Elements n (node l n b nothing) nothing)) r)) (module_of n n (node Kind.ExpressionStatement n (both_of n k a l b) r)) }
{}

/// A call of a function that gives back its first argument leaves its statement, with the argument that is silent, where one
/// acts, and with the statement where none does; and so the way back, within twice the bound and one more.
pub fn a_call_of_a_silent_function_leaves()
    ensures one_acts { (n : Note) (x y f : Text) (v : Literal) (r : Forest) →
        let parameters : Forest = node (Kind.BindingName y) n nothing nothing in
        let body : Forest = node Kind.ReturnStatement n (node (Kind.ReferenceName y) n nothing nothing) nothing in
        DeclaredOnce x (module_decls (function_of n x parameters body (call_statement n f nothing r))) → declares (code_declares function_kind.Declaration (behind_name n x parameters body)) x ≡ false → Steady x whole items r →
        Kept (module_of n n (function_of n x parameters body (call_statement n x (node (Kind.CallExpression false false) n (called n n f nothing) (node (Kind.Literal v) n nothing nothing)) r)))
        (module_of n n (function_of n x parameters body (call_statement n f nothing r))) }
    ensures none_acts { (n : Note) (x y : Text) (v : Literal) (r : Forest) →
        let parameters : Forest = node (Kind.BindingName y) n nothing nothing in
        let body : Forest = node Kind.ReturnStatement n (node (Kind.ReferenceName y) n nothing nothing) nothing in
        DeclaredOnce x (module_decls (function_of n x parameters body r)) → declares (code_declares function_kind.Declaration (behind_name n x parameters body)) x ≡ false → first_name r ≡ None → Steady x whole items r →
        Kept (module_of n n (function_of n x parameters body (call_statement n x (node (Kind.Literal v) n nothing nothing) r))) (module_of n n (function_of n x parameters body r)) }
    ensures comes_back { (n : Note) (x y f : Text) (v : Literal) (r : Forest) →
        let parameters : Forest = node (Kind.BindingName y) n nothing nothing in
        let body : Forest = node Kind.ReturnStatement n (node (Kind.ReferenceName y) n nothing nothing) nothing in
        DeclaredOnce x (module_decls (function_of n x parameters body (call_statement n f nothing r))) → declares (code_declares function_kind.Declaration (behind_name n x parameters body)) x ≡ false → Steady x whole items r →
        Recovered (λ bound. suc (bound + bound)) (module_of n n (function_of n x parameters body (call_statement n x (node (Kind.CallExpression false false) n (called n n f nothing) (node (Kind.Literal v) n nothing nothing)) r)))
        (module_of n n (function_of n x parameters body (call_statement n f nothing r))) }
{}
