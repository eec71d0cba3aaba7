// What modules ask for and export (ECMA-262 16.2).
ghost use Rattle.std.specs.Prelude.{◌≡◌, ◌++◌, ◌∷◌, [], IfOk, codes};
ghost use Rattle.std.specs.Str.{bytes_eq};
ghost use Rattle.js_syntax.specs.Node.{row};
ghost use Rattle.js_meaning.specs.Scope.{lexical};
ghost use Rattle.js_meaning.specs.Module.{requests_of, requests, without, distinct, specifier_of, local_entries, foreign_of, foreign_entries, same_names, names_in, declared_in, declared_entries, default_local, list_below, entries_of, entries, star_of, stars};
ghost use Rattle.run_names.specs.Held.{held};
ghost use Rattle.run_names.specs.Way.{decls_of};
ghost use Rattle.run_names.specs.Export.{entry_of, entries_held};

use crate::declared::{Decl, lexical, lexical_of_node};
use crate::names::{bound_names, module_text};
use js_syntax::NodeKind;
use js_tree::Node;
use std::alloc::{AllocError, Global};

/// What a module exports (16.2.3): under a name, what a name of the module is bound to, or what another
/// module exports.
#[derive(Clone, Copy, Drop)]
pub enum Entry<'a> {
    Local {
        exported: &'a str,
        local: &'a str,
    },
    Import {
        exported: &'a str,
        source: &'a str,
        imported: &'a str,
    },
}

// Adds the source that a statement asks for.
fn request_of<'a>(found: Vec<&'a str>, node: &'a Node) -> Result<Vec<&'a str>, AllocError>
    ensures { IfOk result (λ v. held v.items ≡ held found.entry.items ++ requests_of node.now.kind) }
{
    let mut found = found;
    match node.kind() {
        NodeKind::ImportDeclaration(source) => {
            found.push(source.as_str())?;
            Ok(found)
        }
        NodeKind::ExportNamedDeclaration(Some(source)) => {
            found.push(source.as_str())?;
            Ok(found)
        }
        NodeKind::ExportAllDeclaration { source, .. } => {
            found.push(source.as_str())?;
            Ok(found)
        }
        _ => Ok(found),
    }
}

fn all_requests(alloc: Global, nodes: &[Option<Node>]) -> Result<Vec<&str>, AllocError>
    ensures { IfOk result (λ v. held v.items ≡ requests (row nodes.now)) }
{
    let mut found = Vec::new(alloc);
    let mut rest = nodes;
    while let [first, others @ ..] = rest {
        if let Some(node) = first {
            found = request_of(found, node)?;
        }
        rest = others;
    }
    Ok(found)
}

// A text in front of those that are others.
fn in_front<'a>(
    alloc: Global,
    first: &'a str,
    others: &[&'a str],
) -> Result<Vec<&'a str>, AllocError>
    ensures { IfOk result (λ v. held v.items ≡ first.now ∷ without first.now (held others.now)) }
{
    let mut found = Vec::new(alloc);
    found.push(first)?;
    for other in others {
        if *other != first {
            found.push(*other)?;
        }
    }
    Ok(found)
}

// Each once, in the order of first occurrence.
fn distinct<'a>(alloc: Global, sources: &[&'a str]) -> Result<Vec<&'a str>, AllocError>
    ensures { IfOk result (λ v. held v.items ≡ distinct (held sources.now)) }
{
    match sources {
        [first, others @ ..] => {
            let others = distinct(alloc, others)?;
            in_front(alloc, *first, others.as_slice())
        }
        [] => Ok(Vec::new(alloc)),
    }
}

/// The sources that the statements of a module ask for (16.2.1.3), each once.
pub fn requests(alloc: Global, nodes: &[Option<Node>]) -> Result<Vec<&str>, AllocError>
    ensures { IfOk result (λ v. held v.items ≡ distinct (requests (row nodes.now))) }
{
    let all = all_requests(alloc, nodes)?;
    distinct(alloc, all.as_slice())
}

// The sources of `export *`.
fn star_of<'a>(found: Vec<&'a str>, node: &'a Node) -> Result<Vec<&'a str>, AllocError>
    ensures { IfOk result (λ v. held v.items ≡ held found.entry.items ++ star_of node.now.kind) }
{
    let mut found = found;
    match node.kind() {
        NodeKind::ExportAllDeclaration {
            exported: None,
            source,
        } => {
            found.push(source.as_str())?;
            Ok(found)
        }
        _ => Ok(found),
    }
}

/// The sources of the `export *` among the statements of a module.
pub fn stars(alloc: Global, nodes: &[Option<Node>]) -> Result<Vec<&str>, AllocError>
    ensures { IfOk result (λ v. held v.items ≡ stars (row nodes.now)) }
{
    let mut found = Vec::new(alloc);
    let mut rest = nodes;
    while let [first, others @ ..] = rest {
        if let Some(node) = first {
            found = star_of(found, node)?;
        }
        rest = others;
    }
    Ok(found)
}

fn specifier_of<'a>(found: Vec<Entry<'a>>, node: &'a Node) -> Result<Vec<Entry<'a>>, AllocError>
    ensures { IfOk result (λ v. entries_held v.items ≡ entries_held found.entry.items ++ specifier_of node.now.kind node.now.below) }
{
    let mut found = found;
    match node.kind() {
        NodeKind::ExportSpecifier(exported) => match node.children() {
            [Some(local), ..] => match local.kind() {
                NodeKind::ReferenceName(local) => {
                    let exported = module_text(exported);
                    let local = local.as_str();
                    found.push(Entry::Local { exported, local })?;
                    Ok(found)
                }
                _ => Ok(found),
            },
            _ => Ok(found),
        },
        _ => Ok(found),
    }
}

fn local_entries<'a>(
    found: Vec<Entry<'a>>,
    nodes: &'a [Option<Node>],
) -> Result<Vec<Entry<'a>>, AllocError>
    ensures { IfOk result (λ v. entries_held v.items ≡ entries_held found.entry.items ++ local_entries (row nodes.now)) }
{
    let mut found = found;
    let mut rest = nodes;
    while let [first, others @ ..] = rest {
        if let Some(node) = first {
            found = specifier_of(found, node)?;
        }
        rest = others;
    }
    Ok(found)
}

fn foreign_of<'a>(
    found: Vec<Entry<'a>>,
    source: &'a str,
    node: &'a Node,
) -> Result<Vec<Entry<'a>>, AllocError>
    ensures { IfOk result (λ v. entries_held v.items ≡ entries_held found.entry.items ++ foreign_of source.now node.now.kind) }
{
    let mut found = found;
    match node.kind() {
        NodeKind::ForeignSpecifier { local, exported } => {
            let exported = module_text(exported);
            let imported = module_text(local);
            found.push(Entry::Import {
                exported,
                source,
                imported,
            })?;
            Ok(found)
        }
        _ => Ok(found),
    }
}

fn foreign_entries<'a>(
    found: Vec<Entry<'a>>,
    source: &'a str,
    nodes: &'a [Option<Node>],
) -> Result<Vec<Entry<'a>>, AllocError>
    ensures { IfOk result (λ v. entries_held v.items ≡ entries_held found.entry.items ++ foreign_entries source.now (row nodes.now)) }
{
    let mut found = found;
    let mut rest = nodes;
    while let [first, others @ ..] = rest {
        if let Some(node) = first {
            found = foreign_of(found, source, node)?;
        }
        rest = others;
    }
    Ok(found)
}

fn same_names<'a>(found: Vec<Entry<'a>>, names: &[&'a str]) -> Result<Vec<Entry<'a>>, AllocError>
    ensures { IfOk result (λ v. entries_held v.items ≡ entries_held found.entry.items ++ same_names (held names.now)) }
{
    let mut found = found;
    for name in names {
        found.push(Entry::Local {
            exported: *name,
            local: *name,
        })?;
    }
    Ok(found)
}

fn same_decls<'a>(found: Vec<Entry<'a>>, decls: &[Decl<'a>]) -> Result<Vec<Entry<'a>>, AllocError>
    ensures { IfOk result (λ v. entries_held v.items ≡ entries_held found.entry.items ++ same_names (names_in (decls_of decls.now))) }
{
    let mut found = found;
    for decl in decls {
        found.push(Entry::Local {
            exported: decl.name,
            local: decl.name,
        })?;
    }
    Ok(found)
}

// A declaration exports what it declares, `var` names too.
fn declared_in<'a>(
    alloc: Global,
    found: Vec<Entry<'a>>,
    node: &'a Node,
) -> Result<Vec<Entry<'a>>, AllocError>
    ensures { IfOk result (λ v. entries_held v.items ≡ entries_held found.entry.items ++ same_names (declared_in node.now.kind node.now.below)) }
{
    match node.kind() {
        NodeKind::VariableDeclaration(_) => {
            let names = bound_names(alloc, node.children())?;
            same_names(found, names.as_slice())
        }
        _ => {
            let decls = lexical_of_node(alloc, Vec::new(alloc), node)?;
            same_decls(found, decls.as_slice())
        }
    }
}

fn declared_entries<'a>(
    alloc: Global,
    found: Vec<Entry<'a>>,
    nodes: &'a [Option<Node>],
) -> Result<Vec<Entry<'a>>, AllocError>
    ensures { IfOk result (λ v. entries_held v.items ≡ entries_held found.entry.items ++ declared_entries (row nodes.now)) }
{
    match nodes {
        [Some(node), ..] => declared_in(alloc, found, node),
        _ => Ok(found),
    }
}

fn default_local<'a>(decls: &[Decl<'a>]) -> &'a str
    ensures { result.now ≡ default_local (decls_of decls.now) }
{
    match decls {
        [decl, ..] => decl.name,
        [] => "*default*",
    }
}

// The row of a list of specifiers.
fn list_below(nodes: &[Option<Node>]) -> &[Option<Node>]
    ensures { row result.now ≡ list_below (row nodes.now) }
{
    let mut rest = nodes;
    while let [first, others @ ..] = rest {
        if let Some(node) = first {
            if let NodeKind::Specifiers = node.kind() {
                return node.children();
            }
        }
        rest = others;
    }
    &[]
}

fn entries_of<'a>(
    alloc: Global,
    found: Vec<Entry<'a>>,
    node: &'a Node,
) -> Result<Vec<Entry<'a>>, AllocError>
    ensures { IfOk result (λ v. entries_held v.items ≡ entries_held found.entry.items ++ entries_of node.now.kind node.now.below) }
{
    let mut found = found;
    match node.kind() {
        NodeKind::ExportNamedDeclaration(None) => {
            let found = declared_entries(alloc, found, node.children())?;
            local_entries(found, list_below(node.children()))
        }
        NodeKind::ExportNamedDeclaration(Some(source)) => {
            foreign_entries(found, source.as_str(), list_below(node.children()))
        }
        NodeKind::ExportDefaultDeclaration => {
            let decls = lexical(alloc, node.children())?;
            let local = default_local(decls.as_slice());
            let exported = "default";
            found.push(Entry::Local { exported, local })?;
            Ok(found)
        }
        NodeKind::ExportAllDeclaration {
            exported: Some(name),
            source,
        } => {
            let exported = module_text(name);
            let source = source.as_str();
            let imported = "*";
            found.push(Entry::Import {
                exported,
                source,
                imported,
            })?;
            Ok(found)
        }
        _ => Ok(found),
    }
}

/// ExportEntries (16.2.3) of the statements of a module.
pub fn entries(alloc: Global, nodes: &[Option<Node>]) -> Result<Vec<Entry<'_>>, AllocError>
    ensures { IfOk result (λ v. entries_held v.items ≡ entries (row nodes.now)) }
{
    let mut found = Vec::new(alloc);
    let mut rest = nodes;
    while let [first, others @ ..] = rest {
        if let Some(node) = first {
            found = entries_of(alloc, found, node)?;
        }
        rest = others;
    }
    Ok(found)
}
