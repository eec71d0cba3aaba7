// Which hooks a node has.
ghost use Rattle.std.specs.Prelude.{◌≡◌};
ghost use Rattle.min_traverse.specs.Slot as slots;

use js_syntax::{ClassKind, FunctionKind, NodeKind};
use min_context::{Ancestor, Parent};

/// The outermost slot of a node.
#[derive(Clone, Copy)]
pub enum Outer {
    Program,
    Statements,
    Statement,
    ClassElement,
    BindingPattern,
    AssignmentTarget,
    PropertyKey,
    SwitchCase,
    CatchClause,
    VariableDeclarator,
    None,
}

/// The slot between.
#[derive(Clone, Copy)]
pub enum Middle {
    Expression,
    None,
}

/// The innermost slot.
#[derive(Clone, Copy)]
pub enum Inner {
    Function,
    Class,
    VariableDeclaration,
    None,
}

/// A hook of `Traverse`.
#[derive(Clone, Copy)]
pub enum Hook {
    EnterProgram,
    ExitProgram,
    EnterStatements,
    ExitStatements,
    EnterStatement,
    ExitStatement,
    EnterClassElement,
    ExitClassElement,
    EnterBindingPattern,
    ExitBindingPattern,
    EnterAssignmentTarget,
    ExitAssignmentTarget,
    EnterPropertyKey,
    ExitPropertyKey,
    EnterSwitchCase,
    ExitSwitchCase,
    EnterCatchClause,
    ExitCatchClause,
    EnterVariableDeclarator,
    ExitVariableDeclarator,
    EnterExpression,
    ExitExpression,
    EnterFunction,
    ExitFunction,
    EnterClass,
    ExitClass,
    EnterVariableDeclaration,
    ExitVariableDeclaration,
}

fn has_key(parent: Parent) -> bool
    ensures { result ≡ slots.has_key parent }
{
    matches!(
        parent,
        Parent::MethodDefinition(_)
            | Parent::PropertyDefinition
            | Parent::Property(_)
            | Parent::PatternProperty
    )
}

fn is_key_place(above: Ancestor) -> bool
    ensures { result ≡ slots.is_key_place above }
{
    match above {
        Ancestor::Field(parent, at) => has_key(parent) && at == 0,
        Ancestor::None => false,
    }
}

fn is_loop_with_head(parent: Parent) -> bool
    ensures { result ≡ slots.is_loop_with_head parent }
{
    matches!(
        parent,
        Parent::ForStatement | Parent::ForInStatement | Parent::ForOfStatement
    )
}

fn is_export(parent: Parent) -> bool
    ensures { result ≡ slots.is_export parent }
{
    matches!(
        parent,
        Parent::ExportNamedDeclaration | Parent::ExportDefaultDeclaration
    )
}

fn is_statement_place(above: Ancestor) -> bool
    ensures { result ≡ slots.is_statement_place above }
{
    match above {
        Ancestor::Field(parent, at) => {
            !(is_export(parent) || (is_loop_with_head(parent) && at == 0))
        }
        Ancestor::None => true,
    }
}

fn holds_no_expression(parent: Parent, at: u32) -> bool
    ensures { result ≡ slots.holds_no_expression parent at }
{
    match parent {
        Parent::ChainExpression | Parent::Directive => true,
        Parent::MethodDefinition(_) => at != 0,
        Parent::Property(is_method) => is_method && at != 0,
        _ => false,
    }
}

fn is_expression_place(above: Ancestor) -> bool
    ensures { result ≡ slots.is_expression_place above }
{
    match above {
        Ancestor::Field(parent, at) => !holds_no_expression(parent, at),
        Ancestor::None => true,
    }
}

fn is_function_declaration(kind: FunctionKind) -> bool
    ensures { result ≡ slots.is_function_declaration kind }
{
    matches!(kind, FunctionKind::Declaration)
}

fn is_class_declaration(kind: ClassKind) -> bool
    ensures { result ≡ slots.is_class_declaration kind }
{
    matches!(kind, ClassKind::Declaration)
}

fn is_compound(kind: &NodeKind) -> bool
    ensures { result ≡ slots.is_compound kind.now }
{
    matches!(
        kind,
        NodeKind::BlockStatement
            | NodeKind::WithStatement
            | NodeKind::LabeledStatement(_)
            | NodeKind::IfStatement
            | NodeKind::SwitchStatement
            | NodeKind::TryStatement
            | NodeKind::WhileStatement
            | NodeKind::DoWhileStatement
            | NodeKind::ForStatement
            | NodeKind::ForInStatement
            | NodeKind::ForOfStatement
    )
}

fn is_simple(kind: &NodeKind) -> bool
    ensures { result ≡ slots.is_simple kind.now }
{
    matches!(
        kind,
        NodeKind::ExpressionStatement
            | NodeKind::EmptyStatement
            | NodeKind::DebuggerStatement
            | NodeKind::ReturnStatement
            | NodeKind::BreakStatement(_)
            | NodeKind::ContinueStatement(_)
            | NodeKind::ThrowStatement
    )
}

fn is_declaration(kind: &NodeKind) -> bool
    ensures { result ≡ slots.is_declaration kind.now }
{
    match kind {
        NodeKind::Function { kind, .. } => is_function_declaration(*kind),
        NodeKind::Class(kind) => is_class_declaration(*kind),
        NodeKind::VariableDeclaration(_)
        | NodeKind::ImportDeclaration(_)
        | NodeKind::ExportNamedDeclaration(_)
        | NodeKind::ExportDefaultDeclaration
        | NodeKind::ExportAllDeclaration { .. } => true,
        _ => false,
    }
}

fn is_statement(kind: &NodeKind) -> bool
    ensures { result ≡ slots.is_statement kind.now }
{
    is_simple(kind) || is_compound(kind) || is_declaration(kind)
}

fn is_operation(kind: &NodeKind) -> bool
    ensures { result ≡ slots.is_operation kind.now }
{
    matches!(
        kind,
        NodeKind::SequenceExpression
            | NodeKind::UnaryExpression(_)
            | NodeKind::UpdateExpression { .. }
            | NodeKind::BinaryExpression(_)
            | NodeKind::LogicalExpression(_)
            | NodeKind::AssignmentExpression(_)
            | NodeKind::ConditionalExpression
    )
}

fn is_left_hand_side(kind: &NodeKind) -> bool
    ensures { result ≡ slots.is_left_hand_side kind.now }
{
    matches!(
        kind,
        NodeKind::CallExpression { .. }
            | NodeKind::NewExpression(_)
            | NodeKind::MemberExpression { .. }
            | NodeKind::ChainExpression
            | NodeKind::TaggedTemplateExpression
            | NodeKind::NewTarget
            | NodeKind::ImportMeta
            | NodeKind::ImportExpression
    )
}

fn is_primary(kind: &NodeKind) -> bool
    ensures { result ≡ slots.is_primary kind.now }
{
    match kind {
        NodeKind::Function { kind, .. } => !is_function_declaration(*kind),
        NodeKind::Class(kind) => !is_class_declaration(*kind),
        NodeKind::ReferenceName(_)
        | NodeKind::Literal(_)
        | NodeKind::RegExp(_)
        | NodeKind::ThisExpression
        | NodeKind::ArrayExpression
        | NodeKind::ObjectExpression
        | NodeKind::ParenthesizedExpression
        | NodeKind::TemplateLiteral => true,
        _ => false,
    }
}

fn is_expression(kind: &NodeKind) -> bool
    ensures { result ≡ slots.is_expression kind.now }
{
    is_primary(kind) || is_left_hand_side(kind) || is_operation(kind)
}

fn own_slot(kind: &NodeKind) -> Outer
    ensures { result ≡ slots.own_slot kind.now }
{
    match kind {
        NodeKind::Program(_) => Outer::Program,
        NodeKind::Statements => Outer::Statements,
        NodeKind::MethodDefinition { .. }
        | NodeKind::PropertyDefinition { .. }
        | NodeKind::StaticBlock => Outer::ClassElement,
        NodeKind::BindingName(_)
        | NodeKind::BindingObject
        | NodeKind::BindingArray
        | NodeKind::BindingDefault => Outer::BindingPattern,
        NodeKind::TargetName(_)
        | NodeKind::TargetObject
        | NodeKind::TargetArray
        | NodeKind::TargetDefault => Outer::AssignmentTarget,
        NodeKind::SwitchCase => Outer::SwitchCase,
        NodeKind::CatchClause => Outer::CatchClause,
        NodeKind::VariableDeclarator => Outer::VariableDeclarator,
        _ => Outer::None,
    }
}

/// The outermost slot of a node of this kind below this field.
pub fn outer_slot(above: Ancestor, kind: &NodeKind) -> Outer
    ensures slot { result ≡ slots.outer_slot above kind.now }
{
    if is_key_place(above) {
        Outer::PropertyKey
    } else if is_statement_place(above) && is_statement(kind) {
        Outer::Statement
    } else {
        own_slot(kind)
    }
}

/// Whether a node of this kind below this field is an expression.
pub fn middle_slot(above: Ancestor, kind: &NodeKind) -> Middle
    ensures slot { result ≡ slots.middle_slot above kind.now }
{
    if is_expression_place(above) && is_expression(kind) {
        Middle::Expression
    } else {
        Middle::None
    }
}

/// The innermost slot of a node of this kind.
pub fn inner_slot(kind: &NodeKind) -> Inner
    ensures slot { result ≡ slots.inner_slot kind.now }
{
    match kind {
        NodeKind::Function { .. } => Inner::Function,
        NodeKind::Class(_) => Inner::Class,
        NodeKind::VariableDeclaration(_) => Inner::VariableDeclaration,
        _ => Inner::None,
    }
}
