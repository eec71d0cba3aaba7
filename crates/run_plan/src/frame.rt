// Frames: what is done with the completion of what is computed now.
use crate::ask::Wanted;
use crate::held::{Labels, NodeRef, Nodes};
use crate::plan::Loop;
use js_syntax::{
    AssignmentOperator, BinaryOperator, Key, LogicalOperator, UnaryOperator, UpdateOperator,
    VariableKind,
};
use run_value::{Env, Value};
use run_world::{Completion, Place};

/// What follows a statement that completes normally.
#[derive(Drop)]
pub enum AfterNormal<'a> {
    /// These statements, under these labels.
    Each(Labels<'a>, Nodes<'a>, Env<'a>),
    /// These declarators.
    Declare(VariableKind, Nodes<'a>, Env<'a>),
    /// This node.
    Run(NodeRef<'a>, Env<'a>),
    /// These parameters, which take these values.
    TakeEach(Nodes<'a>, Vec<Value<'a>>, Env<'a>),
    /// The body of a function, once its parameters have their values.
    Body(Nodes<'a>, Env<'a>),
}

/// What a statement does with a value.
#[derive(Drop)]
pub enum AfterStatement<'a> {
    /// Nothing: an expression statement.
    Discard,
    If(NodeRef<'a>, Option<NodeRef<'a>>, Labels<'a>, Env<'a>),
    Return,
    Throw,
    /// The test of a loop: another turn where it holds.
    Test(Loop, Nodes<'a>, Labels<'a>, Env<'a>),
    /// The update of a `for`: its test.
    Update(Nodes<'a>, Labels<'a>, Env<'a>),
    /// The cases of a switch.
    Switch(NodeRef<'a>, Env<'a>),
    /// Whether this value's case is the first of these; on with the default where none is.
    Case(Nodes<'a>, Value<'a>, Option<Nodes<'a>>, Env<'a>),
    /// The test of a case: whether it gives this value.
    CaseTest(Value<'a>),
    /// A declared name takes the value.
    Initial(NodeRef<'a>, Env<'a>),
    /// What `export default` gives.
    Default(Env<'a>),
    /// Modules that are still to be asked for.
    Load(Vec<&'a str>),
}

/// What is done with the property that is found.
#[derive(Clone, Copy)]
pub enum Use {
    /// It is read.
    Read(Wanted),
    /// It is assigned to.
    Refer,
}

/// What an expression does with the value of one of its operands.
#[derive(Drop)]
pub enum AfterOperand<'a> {
    /// More values of a list, of which these are there; of an object's properties, or of expressions.
    Collect(bool, Nodes<'a>, Env<'a>, Vec<Value<'a>>),
    /// The expressions behind it, of which the last counts.
    InTurn(Nodes<'a>, Env<'a>),
    /// Another value in its place.
    Given(Value<'a>),
    /// With this receiver.
    Receiver(Value<'a>),
    Unary(UnaryOperator),
    /// The left side, of a binary operator with this right side.
    Left(BinaryOperator, NodeRef<'a>, Env<'a>),
    /// The right side, of a binary operator with this left value.
    Right(BinaryOperator, Value<'a>),
    Logical(LogicalOperator, NodeRef<'a>, Env<'a>),
    Conditional(NodeRef<'a>, NodeRef<'a>, Env<'a>),
    /// The callee of a call with these arguments.
    Callee(NodeRef<'a>, Env<'a>),
    /// The callee of `new` with these arguments.
    NewCallee(NodeRef<'a>, Env<'a>),
    /// The object of a property with this key, or a computed one.
    MemberOf(Key, Nodes<'a>, Env<'a>, Use),
    /// The computed key of a property of this object.
    MemberKey(Value<'a>, Use),
    /// The host has to answer with a truth value.
    OnlyBoolean,
    /// The host has to answer with an object.
    OnlyObject,
}

/// What an update or an assignment does with a value.
#[derive(Drop)]
pub enum AfterTarget<'a> {
    /// The old value of what an update writes.
    Update(UpdateOperator, bool, Place<'a>),
    /// The value is written there.
    Put(Place<'a>),
    /// The old value of what a compound assignment writes.
    Compound(BinaryOperator, Place<'a>, NodeRef<'a>, Env<'a>),
    /// The right side of a compound assignment, with the old value.
    CompoundRight(BinaryOperator, Value<'a>, Place<'a>),
    /// The old value of what a logical assignment may write.
    Short(LogicalOperator, Place<'a>, NodeRef<'a>, Env<'a>),
}

/// What an expression does with a list of values.
#[derive(Drop)]
pub enum AfterValues<'a> {
    Array,
    /// An object literal with these properties.
    Object(Nodes<'a>),
    /// A call of this, with this receiver.
    Call(Value<'a>, Value<'a>),
    /// `new` of this.
    New(Value<'a>),
}

/// What an expression does with what its target refers to.
#[derive(Drop)]
pub enum AfterPlace<'a> {
    Update(UpdateOperator, bool),
    /// An assignment of this right side.
    Assign(AssignmentOperator, NodeRef<'a>, Env<'a>),
}

/// What is done with a completion of any sort.
#[derive(Drop)]
pub enum AfterCompletion<'a> {
    Label(&'a str),
    /// The body of a loop.
    Turn(Loop, Nodes<'a>, Labels<'a>, Env<'a>),
    /// What stands first in the head of a `for`.
    Init(Nodes<'a>, Labels<'a>, Env<'a>),
    /// The cases of a switch.
    Cases,
    /// The block of a `try`, with its handler.
    Handler(Option<NodeRef<'a>>, Env<'a>),
    /// The block of a `try` and its handler, with what stands behind `finally`.
    Finalizer(Option<NodeRef<'a>>, Env<'a>),
    /// What stands behind `finally`, and how it was before.
    Finalized(Completion<'a>),
    /// The body of a function.
    Call,
    /// A call that the host made; an answer may be owed still.
    Report(bool),
    /// The body of the module.
    Finish,
    /// The host's last moves.
    Finally,
}

/// What is done with the completion of what is computed now, by what it has to be: a normal one, a value,
/// values, a place, or any.
#[derive(Drop)]
pub enum Frame<'a> {
    Normal(Box<AfterNormal<'a>>),
    Statement(Box<AfterStatement<'a>>),
    Operand(Box<AfterOperand<'a>>),
    Target(Box<AfterTarget<'a>>),
    Values(Box<AfterValues<'a>>),
    Place(Box<AfterPlace<'a>>),
    Completion(Box<AfterCompletion<'a>>),
}
