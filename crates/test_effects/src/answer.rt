// What is told of an expression.
use crate::names::NoNames;
use js_effects::{
    BareContext, ConstantEvaluationCtx, ConstantValue, ValueType, binary_operation_evaluate_value,
    evaluate_value, evaluate_value_to_boolean, has_side_effects, in_range,
    string_to_equivalent_number_value, value_type,
};
use js_tree::{Node, NodeKind, Program};
use json_read::read_tree;
use std::alloc::{AllocError, Global};

fn type_word(value_type: ValueType) -> &'static str {
    match value_type {
        ValueType::Undefined => "undefined",
        ValueType::Null => "null",
        ValueType::Number => "number",
        ValueType::Boolean => "boolean",
        ValueType::String => "string",
        ValueType::Object => "object",
        ValueType::Undetermined => "undetermined",
    }
}

// A number, and whether it is the last one of those that have a value.
fn append_number(number: i64, printed: &mut String) -> Result<(), AllocError> {
    write!(printed, " {number}")?;
    if in_range(number.saturating_add(1)) && in_range(number.saturating_sub(1)) {
        return Ok(());
    }
    write!(printed, " at the border")
}

// A text, and the number whose text it is.
fn append_text(text: &str, printed: &mut String) -> Result<(), AllocError> {
    write!(printed, " '{text}'")?;
    match string_to_equivalent_number_value(text) {
        Some(number) => write!(printed, " of {number}"),
        None => Ok(()),
    }
}

fn append_value(value: &ConstantValue, printed: &mut String) -> Result<(), AllocError> {
    match value {
        ConstantValue::Number(number) => append_number(*number, printed),
        ConstantValue::Text(text) => append_text(text.as_str(), printed),
        ConstantValue::Boolean(truth) => write!(printed, " {truth}"),
        ConstantValue::Null => write!(printed, " null"),
        ConstantValue::Undefined => write!(printed, " undefined"),
    }
}

// A value, of which a copy is printed.
fn append_known(
    alloc: Global,
    value: &Option<ConstantValue>,
    printed: &mut String,
) -> Result<(), AllocError> {
    match value {
        Some(value) => {
            let copy = value.try_clone(alloc)?;
            append_value(&copy, printed)
        }
        None => write!(printed, " no value"),
    }
}

// The value of an operator's operands, or else of the whole.
fn value_of<C: ConstantEvaluationCtx>(
    node: &Node,
    ctx: &C,
) -> Result<Option<ConstantValue>, AllocError> {
    match (node.kind(), node.children()) {
        (NodeKind::BinaryExpression(operator), [Some(left), Some(right)]) => {
            binary_operation_evaluate_value(*operator, left, right, ctx)
        }
        _ => evaluate_value(node, ctx),
    }
}

fn append_truth(truth: Option<bool>, printed: &mut String) -> Result<(), AllocError> {
    match truth {
        Some(true) => write!(printed, " is true"),
        Some(false) => write!(printed, " is false"),
        None => write!(printed, " may be true"),
    }
}

fn told<C: ConstantEvaluationCtx>(
    alloc: Global,
    node: &Node,
    ctx: &C,
) -> Result<String, AllocError> {
    let mut printed = String::from_str(alloc, type_word(value_type(node, ctx)))?;
    let value = value_of(node, ctx)?;
    append_known(alloc, &value, &mut printed)?;
    append_truth(evaluate_value_to_boolean(node, ctx), &mut printed)?;
    let acts = has_side_effects(node, ctx);
    printed.push_str(if acts { " acts" } else { " silent" })?;
    Ok(printed)
}

// What is told where each name is declared, and where none is, if that is something else.
fn both(alloc: Global, node: &Node) -> Result<String, AllocError> {
    let mut printed = told(alloc, node, &BareContext::new(alloc))?;
    let global = told(alloc, node, &NoNames::new(alloc))?;
    if printed.as_str() != global.as_str() {
        printed.push_str("; global: ")?;
        printed.push_str(global.as_str())?;
    }
    Ok(printed)
}

// What stands first this many levels below the root.
fn first_below(program: &Program, levels: usize) -> &Node {
    let mut node = program.root();
    for _ in 0..levels {
        match node.children() {
            [Some(child), ..] => node = child,
            _ => return node,
        }
    }
    node
}

/// What is told of the expression that a module's first statement is.
pub(crate) fn answer(alloc: Global, text: &str) -> Result<String, AllocError> {
    match read_tree(alloc, text.as_bytes()) {
        Ok(program) => both(alloc, first_below(&program, 3)),
        Err(_) => String::from_str(alloc, "no tree"),
    }
}
