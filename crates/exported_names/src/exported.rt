// Which symbols exported declarations declare.
ghost use Rattle.std.specs.Prelude.{◌≡◌, ◌<◌, ℕ, length, true, Some, IfOk};
ghost use Rattle.js_syntax.specs.Node.{row, forest_of};
ghost use Rattle.symbol_sets.specs.Numbers.{has, none_below};
ghost use Rattle.js_effects.specs.Silence.{is_marked};
ghost use Rattle.steps.specs.Naming.Standing as standing;
ghost use Rattle.rules.specs.DeadCode.Knows.{TellsExported};
ghost use Rattle.rules.specs.DeadCode.Quiet.{IsExported};
ghost use Rattle.exported_names.specs.Answers.{answers};
ghost use Rattle.exported_names.specs.Exported.{with_mark, with_name, with_names, with_exports, is_outermost, is_exported, exported_of};
ghost use Rattle.exported_names.specs.Placed.{ArePlaced};

use js_syntax::{NodeKind, SymbolId};
use js_tree::Node;
use scope_table::Scoping;
use std::alloc::{AllocError, Global};

fn is_export(kind: &NodeKind) -> bool
    ensures { result ≡ standing.is_export kind.now }
{
    matches!(
        kind,
        NodeKind::ExportNamedDeclaration(_) | NodeKind::ExportDefaultDeclaration
    )
}

fn set_mark(symbol: Option<u32>, marks: &mut [bool])
    ensures { marks.new ≡ with_mark symbol marks.old }
{
    if let Some(symbol) = symbol {
        let at = symbol as usize;
        if at < marks.len() {
            marks[at] = true;
        }
    }
}

fn mark_name(node: &Node, marks: &mut [bool])
    ensures { marks.new ≡ with_name node.now.kind node.now.note marks.old }
{
    if let NodeKind::BindingName(_) = node.kind() {
        set_mark(node.id(), marks);
    }
}

#[cycle(names)]
fn mark_names(node: &Node, marks: &mut [bool])
    ensures { marks.new ≡ with_names (forest_of node.now) marks.old }
{
    mark_name(node, marks);
    mark_names_below(node.children(), marks);
}

#[cycle(names)]
fn mark_names_below(children: &[Option<Node>], marks: &mut [bool])
    ensures { marks.new ≡ with_names (row children.now) marks.old }
{
    for child in children {
        if let Some(node) = child {
            mark_names(node, marks);
        }
    }
}

#[cycle(exports)]
fn mark_exports(node: &Node, marks: &mut [bool])
    ensures { marks.new ≡ with_exports (forest_of node.now) marks.old }
{
    if is_export(node.kind()) {
        mark_names_below(node.children(), marks);
    } else {
        mark_exports_below(node.children(), marks);
    }
}

#[cycle(exports)]
fn mark_exports_below(children: &[Option<Node>], marks: &mut [bool])
    ensures { marks.new ≡ with_exports (row children.now) marks.old }
{
    for child in children {
        if let Some(node) = child {
            mark_exports(node, marks);
        }
    }
}

// Of each symbol, whether a name below an export has its mark.
fn named_below_exports(
    alloc: Global,
    scoping: &Scoping,
    root: &Node,
) -> Result<Vec<bool>, AllocError>
    ensures { IfOk result (λ v. v.items ≡ with_exports (forest_of root.now) (none_below (length scoping.now.symbols))) }
{
    let mut marks = vec![in alloc; false; scoping.symbols_len()]?;
    mark_exports(root, marks.as_mut_slice());
    Ok(marks)
}

fn has_mark(marks: &[bool], symbol: u32) -> bool
    ensures { result ≡ has marks.now symbol }
{
    let at = symbol as usize;
    at < marks.len() && marks[at]
}

fn is_outermost(scoping: &Scoping, symbol: SymbolId) -> bool
    requires { symbol.0 < length scoping.now.symbols }
    ensures { result ≡ is_outermost scoping.now symbol.0 }
{
    scoping.symbol_scope_id(symbol).0 == 0
}

// Those among them that are of the program's own scope.
fn outermost_among(
    alloc: Global,
    scoping: &Scoping,
    marks: &[bool],
) -> Result<Vec<bool>, AllocError>
    ensures { IfOk result (λ v. v.items ≡ answers (is_exported scoping.now marks.now) (length scoping.now.symbols)) }
{
    let mut outermost = Vec::new(alloc);
    for number in 0..scoping.symbols_len() {
        let symbol = number as u32;
        outermost.push(has_mark(marks, symbol) && is_outermost(scoping, SymbolId(symbol)))?;
    }
    Ok(outermost)
}

/// Of each symbol by its number, whether an exported declaration of the program's own scope declares it, where the table has the
/// scopes of declarations. Of names in export lists, which declare nothing, none is marked. The recursion goes as deep as the tree.
pub fn exported_symbols(
    alloc: Global,
    scoping: &Scoping,
    root: &Node,
) -> Result<Vec<bool>, AllocError>
    ensures exact { IfOk result (λ v. v.items ≡ exported_of scoping.now (forest_of root.now)) }
    ensures marked { IfOk result (λ v. ArePlaced scoping.now (forest_of root.now) → TellsExported v.items (forest_of root.now)) }
    ensures only { IfOk result (λ v. ArePlaced scoping.now (forest_of root.now) → (symbol : ℕ) → is_marked v.items (Some symbol) ≡ true → IsExported (forest_of root.now) symbol) }
{
    let named = named_below_exports(alloc, scoping, root)?;
    let exported = outermost_among(alloc, scoping, named.as_slice())?;
    Ok(exported)
}
