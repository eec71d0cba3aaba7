// What an entry declares (ECMA-262 10.2.11, 14.2.3, 16.1.7).
ghost use Rattle.std.specs.Prelude.{◌≡◌, ◌++◌, [], IfOk, map, codes};
ghost use Rattle.js_syntax.specs.Node.{row};
ghost use Rattle.js_meaning.specs.Value.{this_name};
ghost use Rattle.js_meaning.specs.Scope.{waiting, first_of, behind, all_so, named_so, specifier_decls, import_decls, or_default, item_decls, lexical, receiver_decls, function_decls, module_decls, own_name, bound_names};
ghost use Rattle.run_names.specs.Held.{held, maybe_held};
ghost use Rattle.run_names.specs.Way.{way_of, decls_of};

use crate::names::{behind, bound_names, first_name, first_of, module_text, var_names};
use js_syntax::{ClassKind, FunctionKind, NodeKind, VariableKind};
use js_tree::Node;
use std::alloc::{AllocError, Global};

/// How a name starts: not initialised, constant or not; undefined; as what another module exports; or
/// as the arguments object, which is left out.
#[derive(Clone, Copy, Drop)]
pub enum Way<'a> {
    Waiting(bool),
    Ready,
    Linked { source: &'a str, name: &'a str },
    LeftOut,
}

/// A name that is declared.
#[derive(Clone, Copy, Drop)]
pub struct Decl<'a> {
    pub name: &'a str,
    pub way: Way<'a>,
}

fn with_all<'a>(
    found: Vec<Decl<'a>>,
    way: Way<'a>,
    names: &[&'a str],
) -> Result<Vec<Decl<'a>>, AllocError>
    ensures { IfOk result (λ v. decls_of v.items ≡ decls_of found.entry.items ++ all_so (way_of way.entry) (held names.now)) }
{
    let mut found = found;
    for name in names {
        found.push(Decl { name: *name, way })?;
    }
    Ok(found)
}

fn with_named<'a>(
    found: Vec<Decl<'a>>,
    way: Way<'a>,
    name: Option<&'a str>,
) -> Result<Vec<Decl<'a>>, AllocError>
    ensures { IfOk result (λ v. decls_of v.items ≡ decls_of found.entry.items ++ named_so (way_of way.entry) (maybe_held name.entry)) }
{
    let mut found = found;
    match name {
        Some(name) => {
            found.push(Decl { name, way })?;
            Ok(found)
        }
        None => Ok(found),
    }
}

/// The name alone, if there is one, starting in this way.
pub fn named_so<'a>(
    alloc: Global,
    way: Way<'a>,
    name: Option<&'a str>,
) -> Result<Vec<Decl<'a>>, AllocError>
    ensures { IfOk result (λ v. decls_of v.items ≡ named_so (way_of way.entry) (maybe_held name.entry)) }
{
    with_named(Vec::new(alloc), way, name)
}

// What an import binds (16.2.2), behind what is there.
#[cycle(imports)]
fn imports_of_node<'a>(
    found: Vec<Decl<'a>>,
    source: &'a str,
    node: &'a Node,
) -> Result<Vec<Decl<'a>>, AllocError>
    ensures { IfOk result (λ v. decls_of v.items ≡ decls_of found.entry.items ++ specifier_decls source.now node.now.kind node.now.below (import_decls source.now node.now.below)) }
{
    match node.kind() {
        NodeKind::ImportSpecifier(name) => {
            let name = module_text(name);
            with_named(
                found,
                Way::Linked { source, name },
                first_name(node.children()),
            )
        }
        NodeKind::ImportDefaultSpecifier => {
            let name = "default";
            with_named(
                found,
                Way::Linked { source, name },
                first_name(node.children()),
            )
        }
        NodeKind::ImportNamespaceSpecifier => {
            let name = "*";
            with_named(
                found,
                Way::Linked { source, name },
                first_name(node.children()),
            )
        }
        _ => imports_of_row(found, source, node.children()),
    }
}

#[cycle(imports)]
fn imports_of_row<'a>(
    found: Vec<Decl<'a>>,
    source: &'a str,
    nodes: &'a [Option<Node>],
) -> Result<Vec<Decl<'a>>, AllocError>
    ensures { IfOk result (λ v. decls_of v.items ≡ decls_of found.entry.items ++ import_decls source.now (row nodes.now)) }
{
    let mut found = found;
    let mut rest = nodes;
    while let [first, others @ ..] = rest {
        if let Some(node) = first {
            found = imports_of_node(found, source, node)?;
        }
        rest = others;
    }
    Ok(found)
}

// The declarations of a scope, with the functions (8.2.5), behind what is there.
#[cycle(lexical)]
pub(crate) fn lexical_of_node<'a>(
    alloc: Global,
    found: Vec<Decl<'a>>,
    node: &'a Node,
) -> Result<Vec<Decl<'a>>, AllocError>
    ensures { IfOk result (λ v. decls_of v.items ≡ decls_of found.entry.items ++ item_decls node.now.kind node.now.below (lexical node.now.below)) }
{
    match node.kind() {
        NodeKind::VariableDeclaration(VariableKind::Let) => {
            let names = bound_names(alloc, node.children())?;
            with_all(found, Way::Waiting(false), names.as_slice())
        }
        NodeKind::VariableDeclaration(VariableKind::Const) => {
            let names = bound_names(alloc, node.children())?;
            with_all(found, Way::Waiting(true), names.as_slice())
        }
        NodeKind::Function {
            kind: FunctionKind::Declaration,
            ..
        } => with_named(found, Way::Waiting(false), first_name(node.children())),
        NodeKind::Class(ClassKind::Declaration) => {
            with_named(found, Way::Waiting(false), first_name(node.children()))
        }
        NodeKind::ImportDeclaration(source) => {
            imports_of_row(found, source.as_str(), node.children())
        }
        NodeKind::ExportNamedDeclaration(None) => lexical_of_row(alloc, found, node.children()),
        NodeKind::ExportDefaultDeclaration => {
            let inner = lexical_of_row(alloc, Vec::new(alloc), node.children())?;
            with_default(found, inner)
        }
        NodeKind::FunctionBody | NodeKind::Statements | NodeKind::Cases | NodeKind::SwitchCase =>
            lexical_of_row(alloc, found, node.children()),
        _ => Ok(found),
    }
}

// What an `export default` declares, or the name under which its value stands (16.2.3).
fn with_default<'a>(found: Vec<Decl<'a>>, inner: Vec<Decl<'a>>) -> Result<Vec<Decl<'a>>, AllocError>
    ensures { IfOk result (λ v. decls_of v.items ≡ decls_of found.entry.items ++ or_default (decls_of inner.entry.items)) }
{
    let mut found = found;
    if inner.is_empty() {
        let name = "*default*";
        let way = Way::Waiting(false);
        found.push(Decl { name, way })?;
        Ok(found)
    } else {
        behind_others(found, inner.as_slice())
    }
}

fn behind_others<'a>(found: Vec<Decl<'a>>, others: &[Decl<'a>]) -> Result<Vec<Decl<'a>>, AllocError>
    ensures { IfOk result (λ v. decls_of v.items ≡ decls_of found.entry.items ++ decls_of others.now) }
{
    let mut found = found;
    for other in others {
        found.push(*other)?;
    }
    Ok(found)
}

#[cycle(lexical)]
fn lexical_of_row<'a>(
    alloc: Global,
    found: Vec<Decl<'a>>,
    nodes: &'a [Option<Node>],
) -> Result<Vec<Decl<'a>>, AllocError>
    ensures { IfOk result (λ v. decls_of v.items ≡ decls_of found.entry.items ++ lexical (row nodes.now)) }
{
    let mut found = found;
    let mut rest = nodes;
    while let [first, others @ ..] = rest {
        if let Some(node) = first {
            found = lexical_of_node(alloc, found, node)?;
        }
        rest = others;
    }
    Ok(found)
}

/// LexicallyScopedDeclarations (8.2.5) of a row, with the functions.
pub fn lexical(alloc: Global, nodes: &[Option<Node>]) -> Result<Vec<Decl<'_>>, AllocError>
    ensures { IfOk result (λ v. decls_of v.items ≡ lexical (row nodes.now)) }
{
    lexical_of_row(alloc, Vec::new(alloc), nodes)
}

/// The names of a row that wait for their values, as those of a catch clause's parameter.
pub fn waiting_names(
    alloc: Global,
    constant: bool,
    nodes: &[Option<Node>],
) -> Result<Vec<Decl<'_>>, AllocError>
    ensures { IfOk result (λ v. decls_of v.items ≡ all_so (waiting constant) (bound_names (row nodes.now))) }
{
    let names = bound_names(alloc, nodes)?;
    with_all(Vec::new(alloc), Way::Waiting(constant), names.as_slice())
}

// Arrows have no `this` and no arguments object of their own (10.2.1.1).
fn receiver_decls<'a>(alloc: Global, kind: FunctionKind) -> Result<Vec<Decl<'a>>, AllocError>
    ensures { IfOk result (λ v. decls_of v.items ≡ receiver_decls kind) }
{
    let mut found = Vec::new(alloc);
    match kind {
        FunctionKind::Arrow => Ok(found),
        _ => {
            found.push(Decl {
                name: "this",
                way: Way::Ready,
            })?;
            found.push(Decl {
                name: "arguments",
                way: Way::LeftOut,
            })?;
            Ok(found)
        }
    }
}

/// What a function's entry declares (10.2.11), by the row below its node.
pub fn function_decls(
    alloc: Global,
    kind: FunctionKind,
    nodes: &[Option<Node>],
) -> Result<Vec<Decl<'_>>, AllocError>
    ensures { IfOk result (λ v. decls_of v.items ≡ function_decls kind (row nodes.now)) }
{
    let body = behind(behind(nodes));
    let vars = var_names(alloc, body)?;
    let parameters = bound_names(alloc, first_of(behind(nodes)))?;
    let found = receiver_decls(alloc, kind)?;
    let found = with_all(found, Way::Ready, vars.as_slice())?;
    let found = with_all(found, Way::Ready, parameters.as_slice())?;
    lexical_of_row(alloc, found, body)
}

/// A function expression's own name (15.2.5), by the row below its node.
pub fn own_name(kind: FunctionKind, nodes: &[Option<Node>]) -> Option<&str>
    ensures { maybe_held result ≡ own_name kind (row nodes.now) }
{
    match kind {
        FunctionKind::Expression => first_name(nodes),
        _ => None,
    }
}

/// What a module's entry declares (16.2.1.6.4).
pub fn module_decls(alloc: Global, nodes: &[Option<Node>]) -> Result<Vec<Decl<'_>>, AllocError>
    ensures { IfOk result (λ v. decls_of v.items ≡ module_decls (row nodes.now)) }
{
    let mut found = Vec::new(alloc);
    found.push(Decl {
        name: "this",
        way: Way::Ready,
    })?;
    let vars = var_names(alloc, nodes)?;
    let found = with_all(found, Way::Ready, vars.as_slice())?;
    lexical_of_row(alloc, found, nodes)
}
