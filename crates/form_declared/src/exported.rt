// What the statements of a module export (ECMA-262 16.2.3).
ghost use Rattle.std.specs.Prelude.{◌≡◌, ◌+◌, ◌^◌, ◌<◌, ◌++◌, IfOk, OnOk};
ghost use Rattle.std.specs.Option.{option_to_list};
ghost use Rattle.js_syntax.specs.Node.{row, forest_of};
ghost use Rattle.js_tree.specs.Count.{node_count};
ghost use Rattle.form_rules.specs.Scope.{declared};
ghost use Rattle.form_rules.specs.declared.sought.Sort.TheVariants.{Lexical as lexical};
ghost use Rattle.form_rules.specs.declared.sought.Sought.TheVariants.{Scope as scope};
ghost use Rattle.form_rules.specs.Rules.{first_below, behind, exports_of, text_of, named_by, exported_by, exported_among, local_of, locals_named, locals_by, locals_among};

use crate::declared::add_declared;
use crate::place::behind_node;
use crate::rows::{behind, first_below};
use form_rules::{Declared, Exported, Sort, Sought};
use js_syntax::ModuleName;
use js_tree::{Node, NodeKind};
use std::alloc::{AllocError, Global};

fn text_of(name: &ModuleName) -> &str
    ensures { result.now ≡ text_of name.now }
{
    match name {
        ModuleName::Name(name) => name.as_str(),
        ModuleName::Text(text) => text.as_str(),
    }
}

// The names that a declaration declares are exported.
fn add_declaration<'a>(
    alloc: Global,
    place: u32,
    children: &'a [Option<Node>],
    found: &mut Vec<Exported<'a>>,
) -> Result<(), AllocError>
    requires fits { place + node_count (row children.now) < 2 ^ 32 }
    ensures found { OnOk result (found.new.items ≡ found.old.items ++ exports_of place (declared (scope lexical) place (row children.now))) }
{
    let mut names = Vec::new(alloc);
    add_declared(Sought::Scope(Sort::Lexical), place, children, &mut names)?;
    add_names(place, names.as_slice(), found)
}

fn add_names<'a>(
    place: u32,
    names: &[Declared<'a>],
    found: &mut Vec<Exported<'a>>,
) -> Result<(), AllocError>
    ensures found { OnOk result (found.new.items ≡ found.old.items ++ exports_of place names.now) }
{
    for name in names {
        found.push(Exported::new(name.name(), place))?;
    }
    Ok(())
}

// The name that a specifier exports.
fn named_by<'a>(place: u32, specifier: &'a Node) -> Option<Exported<'a>>
    ensures { option_to_list result ≡ named_by place (forest_of specifier.now) }
{
    match specifier.kind() {
        NodeKind::ExportSpecifier(exported) => Some(Exported::new(text_of(exported), place)),
        NodeKind::ForeignSpecifier { exported, .. } => {
            Some(Exported::new(text_of(exported), place))
        }
        _ => None,
    }
}

fn add_specifiers<'a>(
    place: u32,
    specifiers: &'a [Option<Node>],
    found: &mut Vec<Exported<'a>>,
) -> Result<(), AllocError>
    ensures found { OnOk result (found.new.items ≡ found.old.items ++ named_by place (row specifiers.now)) }
{
    for specifier in specifiers {
        if let Some(specifier) = specifier {
            if let Some(exported) = named_by(place, specifier) {
                found.push(exported)?;
            }
        }
    }
    Ok(())
}

// The names that a statement exports.
fn add_exported<'a>(
    alloc: Global,
    place: u32,
    statement: &'a Node,
    found: &mut Vec<Exported<'a>>,
) -> Result<(), AllocError>
    requires fits { place + node_count (forest_of statement.now) < 2 ^ 32 }
    ensures found { OnOk result (found.new.items ≡ found.old.items ++ exported_by statement.now.kind place statement.now.below) }
{
    match statement.kind() {
        NodeKind::ExportNamedDeclaration(_) => {
            add_declaration(alloc, place, statement.children(), found)?;
            add_specifiers(place, first_below(behind(statement.children())), found)?;
        }
        NodeKind::ExportDefaultDeclaration => found.push(Exported::new("default", place))?,
        NodeKind::ExportAllDeclaration {
            exported: Some(name),
            ..
        } => found.push(Exported::new(text_of(name), place))?,
        _ => {}
    }
    Ok(())
}

/// The names that statements export, the first of which stands at `place`.
pub fn exported_among<'a>(
    alloc: Global,
    place: u32,
    statements: &'a [Option<Node>],
) -> Result<Vec<Exported<'a>>, AllocError>
    requires fits { place + node_count (row statements.now) < 2 ^ 32 }
    ensures exported { IfOk result (λ v. v.items ≡ exported_among place (row statements.now)) }
{
    let mut exported = Vec::new(alloc);
    let mut next = place;
    for statement in statements {
        if let Some(statement) = statement {
            add_exported(alloc, next, statement, &mut exported)?;
            next = behind_node(next, statement);
        }
    }
    Ok(exported)
}

// The name of the module that a specifier's node is.
fn local_of<'a>(place: u32, nodes: &'a [Option<Node>]) -> Option<Exported<'a>>
    ensures { option_to_list result ≡ local_of place (row nodes.now) }
{
    match nodes {
        [Some(local), ..] => match local.kind() {
            NodeKind::ReferenceName(name) => Some(Exported::new(name.as_str(), place)),
            _ => None,
        },
        _ => None,
    }
}

// The name of the module that a specifier exports.
fn local_named<'a>(place: u32, specifier: &'a Node) -> Option<Exported<'a>>
    ensures { option_to_list result ≡ locals_named place (forest_of specifier.now) }
{
    match specifier.kind() {
        NodeKind::ExportSpecifier(_) => local_of(place, specifier.children()),
        _ => None,
    }
}

fn add_locals_named<'a>(
    place: u32,
    specifiers: &'a [Option<Node>],
    found: &mut Vec<Exported<'a>>,
) -> Result<(), AllocError>
    ensures found { OnOk result (found.new.items ≡ found.old.items ++ locals_named place (row specifiers.now)) }
{
    for specifier in specifiers {
        if let Some(specifier) = specifier {
            if let Some(local) = local_named(place, specifier) {
                found.push(local)?;
            }
        }
    }
    Ok(())
}

// The names of the module that a statement exports by a list without a source.
fn add_locals<'a>(
    place: u32,
    statement: &'a Node,
    found: &mut Vec<Exported<'a>>,
) -> Result<(), AllocError>
    ensures found { OnOk result (found.new.items ≡ found.old.items ++ locals_by statement.now.kind place statement.now.below) }
{
    match statement.kind() {
        NodeKind::ExportNamedDeclaration(None) => {
            add_locals_named(place, first_below(behind(statement.children())), found)
        }
        _ => Ok(()),
    }
}

/// The names of the module that they export by a list without a source.
pub fn locals_among<'a>(
    alloc: Global,
    place: u32,
    statements: &'a [Option<Node>],
) -> Result<Vec<Exported<'a>>, AllocError>
    requires fits { place + node_count (row statements.now) < 2 ^ 32 }
    ensures locals { IfOk result (λ v. v.items ≡ locals_among place (row statements.now)) }
{
    let mut locals = Vec::new(alloc);
    let mut next = place;
    for statement in statements {
        if let Some(statement) = statement {
            add_locals(next, statement, &mut locals)?;
            next = behind_node(next, statement);
        }
    }
    Ok(locals)
}
