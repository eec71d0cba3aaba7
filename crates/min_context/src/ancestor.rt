// What stands above a node, as far as rules ask.
ghost use Rattle.std.specs.Prelude.{◌≡◌};
ghost use Rattle.min_context.specs.Above as above;

use js_syntax::{
    AssignmentOperator, FunctionKind, MethodKind, NodeKind, PropertyKind, UnaryOperator,
    VariableKind,
};
use js_tree::Node;

/// What a node is, as far as rules for what lies below it ask.
#[derive(Clone, Copy)]
pub enum Parent {
    Program,
    Directive,
    BlockStatement,
    FunctionBody,
    ExpressionStatement,
    WithStatement,
    LabeledStatement,
    IfStatement,
    SwitchStatement,
    SwitchCase,
    CatchClause,
    WhileStatement,
    DoWhileStatement,
    ForStatement,
    ForInStatement,
    ForOfStatement,
    Function(FunctionKind),
    VariableDeclaration(VariableKind),
    /// Whether it has a heritage. It is told of what stands behind that alone.
    Class(bool),
    /// Whether it is the class's constructor.
    MethodDefinition(bool),
    PropertyDefinition,
    StaticBlock,
    /// Whether its value is the function of a method.
    Property(bool),
    PatternProperty,
    SequenceExpression,
    /// The list of a sequence's parts, which is its field: whether another stands behind the one that leads down.
    Expressions(bool),
    UnaryExpression(UnaryOperator),
    LogicalExpression,
    ConditionalExpression,
    AssignmentExpression(AssignmentOperator),
    CallExpression,
    NewExpression,
    MemberExpression,
    ChainExpression,
    ParenthesizedExpression,
    TaggedTemplateExpression,
    ExportNamedDeclaration,
    ExportDefaultDeclaration,
    /// A list of statements, which is a field of the node above it.
    Statements,
    /// Any other node, other lists among them.
    Other,
}

/// A node above, and which of its fields leads down: 0 is its first in reading order.
#[derive(Clone, Copy)]
pub enum Ancestor {
    /// Past the program.
    None,
    Field(Parent, u32),
}

/// Which children of a node lie in the scope that it makes.
#[derive(Clone, Copy)]
pub enum Within {
    None,
    All,
    BehindFirst,
}

/// What a walk keeps of a node while it walks over what lies below it.
#[derive(Clone, Copy)]
pub struct Above {
    pub parent: Parent,
    pub within: Within,
    /// Whether `var` declares in its scope.
    pub hoists: bool,
    /// Whether its scope is that of a list of statements.
    pub is_of_list: bool,
    /// The number of its scope.
    pub id: Option<u32>,
}

fn is_constructor(kind: MethodKind) -> bool
    ensures { result ≡ above.is_constructor kind }
{
    matches!(kind, MethodKind::Constructor)
}

fn holds_method(kind: PropertyKind, is_method: bool) -> bool
    ensures { result ≡ above.holds_method kind is_method }
{
    match kind {
        PropertyKind::Init => is_method,
        PropertyKind::Get | PropertyKind::Set => true,
    }
}

fn parent_of(kind: &NodeKind) -> Parent
    ensures { result ≡ above.parent_of kind.now }
{
    match kind {
        NodeKind::Program(_) => Parent::Program,
        NodeKind::Directive(_) => Parent::Directive,
        NodeKind::BlockStatement => Parent::BlockStatement,
        NodeKind::FunctionBody => Parent::FunctionBody,
        NodeKind::ExpressionStatement => Parent::ExpressionStatement,
        NodeKind::WithStatement => Parent::WithStatement,
        NodeKind::LabeledStatement(_) => Parent::LabeledStatement,
        NodeKind::IfStatement => Parent::IfStatement,
        NodeKind::SwitchStatement => Parent::SwitchStatement,
        NodeKind::SwitchCase => Parent::SwitchCase,
        NodeKind::CatchClause => Parent::CatchClause,
        NodeKind::WhileStatement => Parent::WhileStatement,
        NodeKind::DoWhileStatement => Parent::DoWhileStatement,
        NodeKind::ForStatement => Parent::ForStatement,
        NodeKind::ForInStatement => Parent::ForInStatement,
        NodeKind::ForOfStatement => Parent::ForOfStatement,
        NodeKind::Function { kind, .. } => Parent::Function(*kind),
        NodeKind::VariableDeclaration(kind) => Parent::VariableDeclaration(*kind),
        NodeKind::Class(_) => Parent::Class(false),
        NodeKind::MethodDefinition { kind, .. } => Parent::MethodDefinition(is_constructor(*kind)),
        NodeKind::PropertyDefinition { .. } => Parent::PropertyDefinition,
        NodeKind::StaticBlock => Parent::StaticBlock,
        NodeKind::Property {
            kind,
            is_method,
            ..
        } => Parent::Property(holds_method(*kind, *is_method)),
        NodeKind::BindingProperty(_) | NodeKind::TargetProperty(_) => Parent::PatternProperty,
        NodeKind::SequenceExpression => Parent::SequenceExpression,
        NodeKind::Expressions => Parent::Expressions(false),
        NodeKind::UnaryExpression(operator) => Parent::UnaryExpression(*operator),
        NodeKind::LogicalExpression(_) => Parent::LogicalExpression,
        NodeKind::ConditionalExpression => Parent::ConditionalExpression,
        NodeKind::AssignmentExpression(operator) => Parent::AssignmentExpression(*operator),
        NodeKind::CallExpression { .. } => Parent::CallExpression,
        NodeKind::NewExpression(_) => Parent::NewExpression,
        NodeKind::MemberExpression { .. } => Parent::MemberExpression,
        NodeKind::ChainExpression => Parent::ChainExpression,
        NodeKind::ParenthesizedExpression => Parent::ParenthesizedExpression,
        NodeKind::TaggedTemplateExpression => Parent::TaggedTemplateExpression,
        NodeKind::ExportNamedDeclaration(_) => Parent::ExportNamedDeclaration,
        NodeKind::ExportDefaultDeclaration => Parent::ExportDefaultDeclaration,
        NodeKind::Statements => Parent::Statements,
        _ => Parent::Other,
    }
}

fn within_of(kind: &NodeKind) -> Within
    ensures { result ≡ above.within_of kind.now }
{
    match kind {
        NodeKind::Program(_)
        | NodeKind::StaticBlock
        | NodeKind::BlockStatement
        | NodeKind::ForStatement
        | NodeKind::ForInStatement
        | NodeKind::ForOfStatement
        | NodeKind::CatchClause => Within::All,
        NodeKind::Function { .. }
        | NodeKind::Class(_)
        | NodeKind::SwitchStatement
        | NodeKind::WithStatement
        | NodeKind::PropertyDefinition { .. } => Within::BehindFirst,
        _ => Within::None,
    }
}

fn hoists(kind: &NodeKind) -> bool
    ensures { result ≡ above.hoists kind.now }
{
    matches!(
        kind,
        NodeKind::Program(_) | NodeKind::Function { .. } | NodeKind::StaticBlock
    )
}

fn is_of_list(kind: &NodeKind) -> bool
    ensures { result ≡ above.is_of_list kind.now }
{
    matches!(
        kind,
        NodeKind::Program(_)
            | NodeKind::Function { .. }
            | NodeKind::StaticBlock
            | NodeKind::BlockStatement
    )
}

impl Above {
    /// What a walk keeps of this node.
    pub fn of(node: &Node) -> Above
        ensures above { result ≡ above.above_of node.now.kind node.now.note }
    {
        Above {
            parent: parent_of(node.kind()),
            within: within_of(node.kind()),
            hoists: hoists(node.kind()),
            is_of_list: is_of_list(node.kind()),
            id: node.id(),
        }
    }
}
