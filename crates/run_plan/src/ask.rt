// What a node is asked for.
use crate::held::Labels;
use js_syntax::VariableKind;
use run_value::Value;

/// What an expression's value is wanted for: itself; to be called, with the receiver that it is called
/// on; as the operand of `typeof`.
#[derive(Clone, Copy)]
pub enum Wanted {
    Itself,
    ToCall,
    ForTypeof,
}

/// What a node is asked for.
#[derive(Drop)]
pub enum Ask<'a> {
    /// A statement: to run, under these labels.
    Run(Labels<'a>),
    /// An expression: its value.
    Value(Wanted),
    /// A target of an assignment: what it refers to.
    Place,
    /// A declared name, or a catch clause: to take this value.
    Take(Value<'a>),
    /// A parameter list: to take these.
    TakeAll(Vec<Value<'a>>),
    /// Declarators, and each of them: to declare in this way.
    Declares(VariableKind),
    /// A list of expressions: their values.
    Collect,
    /// A property of an object literal: its value.
    Entry,
    /// The cases of a switch: to run for this value; a case: whether its test gives it.
    Matches(Value<'a>),
}
