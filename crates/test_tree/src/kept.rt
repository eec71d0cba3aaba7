// Which names stay of statements that go.
use crate::answer::shown;
use crate::tree::first_below;
use js_tree::{Node, NodeKind, Program, SPAN, SourceType};
use kept_names::KeepVar;
use std::alloc::{AllocError, Global};

fn one_field(alloc: Global, node: Node) -> Result<Vec<Option<Node>>, AllocError> {
    let mut fields = Vec::new(alloc);
    fields.push(Some(node))?;
    Ok(fields)
}

fn module_of(alloc: Global, statement: Node) -> Result<Program, AllocError> {
    let items = one_field(alloc, statement)?;
    let fields = one_field(alloc, Node::new(NodeKind::Statements, SPAN, items))?;
    let kind = NodeKind::Program(SourceType::Module);
    Ok(Program::new(Node::new(kind, SPAN, fields)))
}

fn declaration(alloc: Global, program: &Program) -> Result<Option<Node>, AllocError> {
    let mut names = KeepVar::new(alloc);
    for item in first_below(program, 1).children() {
        if let Some(statement) = item {
            names.visit_statement(statement)?;
        }
    }
    names.get_variable_declaration_statement()
}

/// A module of the declaration of all names that `var` declares in the statements of a program.
pub(crate) fn kept(alloc: Global, program: &Program) -> Result<String, AllocError> {
    match declaration(alloc, program)? {
        Some(statement) => {
            let module = module_of(alloc, statement)?;
            shown(alloc, &module)
        }
        None => String::from_str(alloc, "none"),
    }
}
