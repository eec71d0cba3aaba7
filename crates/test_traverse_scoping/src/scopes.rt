// Calls on scopes and names.
ghost use Rattle.std.specs.Prelude.{◌≡◌, ◌<◌, ◌+◌, ◌^◌, ◌||◌, false, nat_eq, nat_le, length, option_map, IfOk};
ghost use Rattle.std.specs.Bool.{OnTrue};
ghost use Rattle.std.specs.List.{list_any};
ghost use Rattle.scope_table.specs.Reading.{ancestors};
ghost use Rattle.js_traverse.specs.Traversed.{IsLive};

use crate::shown::{
    append_ancestors, append_list, append_names, append_no, append_number, append_parent,
};
use js_syntax::{Ident, NodeKind, ReferenceId, SPAN, ScopeId, SymbolId};
use js_traverse::TraverseScoping;
use js_tree::Node;
use scope_table::{ReferenceFlags, ScopeFlags, Scoping, SymbolFlags};
use std::alloc::{AllocError, Global};

// No row has more of anything.
const MOST: usize = 1000;

// What a call takes: up to two parts.
#[derive(Clone, Copy)]
pub(crate) struct Taken<'a> {
    pub(crate) first: &'a str,
    pub(crate) second: &'a str,
}

impl<'a> Taken<'a> {
    pub(crate) fn of(text: &'a str) -> Taken<'a> {
        match text.split_once(',') {
            Some((first, second)) => Taken { first, second },
            None => Taken {
                first: text,
                second: "",
            },
        }
    }
}

// A number, of which all have one in the rows.
pub(crate) fn number(text: &str) -> u32 {
    match text.parse::<u32>() {
        Ok(n) => n,
        Err(_) => 0,
    }
}

pub(crate) fn symbol_in(text: &str) -> Option<SymbolId> {
    match text {
        "-" => None,
        text => Some(SymbolId(number(text))),
    }
}

pub(crate) fn ident(alloc: Global, name: &str) -> Result<Ident, AllocError> {
    Ok(Ident::new(String::from_str(alloc, name)?))
}

fn has_scope(traverse: &TraverseScoping, scope: ScopeId) -> bool
    ensures { OnTrue result (scope.0 < length traverse.now.scoping.scopes) }
{
    (scope.0 as usize) < traverse.scoping().scopes_len()
}

pub(crate) fn is_live(traverse: &TraverseScoping, symbol: Option<SymbolId>) -> bool
    ensures { OnTrue result (IsLive traverse.now.scoping (option_map (λ s. s.0) symbol)) }
{
    match symbol {
        Some(symbol) => (symbol.0 as usize) < traverse.scoping().symbols_len(),
        None => true,
    }
}

pub(crate) fn has_room(traverse: &TraverseScoping) -> bool
    ensures scopes { OnTrue result (length traverse.now.scoping.scopes + 1 < 2 ^ 32) }
    ensures symbols { OnTrue result (length traverse.now.scoping.symbols + 1 < 2 ^ 32) }
    ensures references { OnTrue result (length traverse.now.scoping.references + 1 < 2 ^ 32) }
{
    let scoping = traverse.scoping();
    scoping.scopes_len() < MOST && scoping.symbols_len() < MOST && scoping.references_len() < MOST
}

// ---- scopes

fn append_child(
    traverse: &mut TraverseScoping,
    parent: ScopeId,
    printed: &mut String,
) -> Result<(), AllocError> {
    if !has_room(traverse) || !has_scope(traverse, parent) {
        return append_no(printed);
    }
    let id = traverse.create_child_scope(parent, ScopeFlags::Block)?;
    append_number(id.0, printed)
}

fn append_child_of_current(
    traverse: &mut TraverseScoping,
    printed: &mut String,
) -> Result<(), AllocError> {
    if !has_room(traverse) || !has_scope(traverse, traverse.current_scope_id()) {
        return append_no(printed);
    }
    let id = traverse.create_child_scope_of_current(ScopeFlags::Block)?;
    append_number(id.0, printed)
}

// Whether a scope is neither another nor around it, and those around that are of the table.
fn is_outside(
    alloc: Global,
    scoping: &Scoping,
    scope: ScopeId,
    other: ScopeId,
) -> Result<bool, AllocError>
    requires { other.0 < length scoping.now.scopes }
    ensures { IfOk result (λ b. OnTrue b (list_any (λ a. nat_eq scope.0 a || nat_le (length scoping.now.scopes) a) (ancestors scoping.now other.0) ≡ false)) }
{
    let above = scoping.scope_ancestors(alloc, other)?;
    for ancestor in &above {
        if scope.0 == ancestor.0 || ancestor.0 as usize >= scoping.scopes_len() {
            return Ok(false);
        }
    }
    Ok(true)
}

#[tactic(auto, using(crate::proofs::NewScope::new_is_outside))]
fn append_between(
    alloc: Global,
    traverse: &mut TraverseScoping,
    child: ScopeId,
    printed: &mut String,
) -> Result<(), AllocError> {
    if !has_room(traverse) || !has_scope(traverse, child) {
        return append_no(printed);
    }
    let Some(parent) = traverse.scoping().scope_parent_id(child) else {
        return append_no(printed);
    };
    if !has_scope(traverse, parent) || !is_outside(alloc, traverse.scoping(), child, parent)? {
        return append_no(printed);
    }
    let id = traverse.insert_scope_between(parent, child, ScopeFlags::Block)?;
    append_number(id.0, printed)
}

fn append_removed(
    alloc: Global,
    traverse: &mut TraverseScoping,
    scope: ScopeId,
    printed: &mut String,
) -> Result<(), AllocError> {
    if !has_scope(traverse, scope) {
        return append_no(printed);
    }
    let Some(parent) = traverse.scoping().scope_parent_id(scope) else {
        return append_no(printed);
    };
    if !has_scope(traverse, parent) {
        return append_no(printed);
    }
    let expression = Node::new(NodeKind::ThisExpression, SPAN, Vec::new(alloc));
    traverse.remove_scope_for_expression(scope, &expression)?;
    printed.push_str(" removed")
}

fn append_below_from(
    alloc: Global,
    traverse: &mut TraverseScoping,
    parent: ScopeId,
    printed: &mut String,
) -> Result<(), AllocError> {
    if !has_room(traverse) || !has_scope(traverse, parent) {
        return append_no(printed);
    }
    let statement = Node::new(NodeKind::EmptyStatement, SPAN, Vec::new(alloc));
    let id = traverse.insert_scope_below_statement_from_scope_id(
        &statement,
        parent,
        ScopeFlags::Block,
    )?;
    append_number(id.0, printed)
}

fn append_below_statement(
    alloc: Global,
    traverse: &mut TraverseScoping,
    printed: &mut String,
) -> Result<(), AllocError> {
    if !has_room(traverse) || !has_scope(traverse, traverse.current_scope_id()) {
        return append_no(printed);
    }
    let statement = Node::new(NodeKind::EmptyStatement, SPAN, Vec::new(alloc));
    let id = traverse.insert_scope_below_statement(&statement, ScopeFlags::Block)?;
    append_number(id.0, printed)
}

fn append_below_expression(
    alloc: Global,
    traverse: &mut TraverseScoping,
    printed: &mut String,
) -> Result<(), AllocError> {
    if !has_room(traverse) || !has_scope(traverse, traverse.current_scope_id()) {
        return append_no(printed);
    }
    let expression = Node::new(NodeKind::ThisExpression, SPAN, Vec::new(alloc));
    let id = traverse.insert_scope_below_expression(&expression, ScopeFlags::Function)?;
    append_number(id.0, printed)
}

fn append_below_statements(
    traverse: &mut TraverseScoping,
    printed: &mut String,
) -> Result<(), AllocError> {
    if !has_room(traverse) || !has_scope(traverse, traverse.current_scope_id()) {
        return append_no(printed);
    }
    let id = traverse.insert_scope_below_statements(&[], ScopeFlags::Block)?;
    append_number(id.0, printed)
}

fn append_scope_call(
    alloc: Global,
    traverse: &mut TraverseScoping,
    word: &str,
    taken: Taken,
    printed: &mut String,
) -> Result<bool, AllocError> {
    let scope = ScopeId(number(taken.first));
    let appended = match word {
        "child" => append_child(traverse, scope, printed),
        "child_of_current" => append_child_of_current(traverse, printed),
        "between" => append_between(alloc, traverse, scope, printed),
        "remove" => append_removed(alloc, traverse, scope, printed),
        _ => return append_below_call(alloc, traverse, word, scope, printed),
    };
    appended?;
    Ok(true)
}

fn append_below_call(
    alloc: Global,
    traverse: &mut TraverseScoping,
    word: &str,
    scope: ScopeId,
    printed: &mut String,
) -> Result<bool, AllocError> {
    let appended = match word {
        "below_from" => append_below_from(alloc, traverse, scope, printed),
        "below_statement" => append_below_statement(alloc, traverse, printed),
        "below_expression" => append_below_expression(alloc, traverse, printed),
        "below_statements" => append_below_statements(traverse, printed),
        "enter" => {
            traverse.set_current_scope_id(scope);
            Ok(())
        }
        _ => return Ok(false),
    };
    appended?;
    Ok(true)
}

// ---- names

fn append_binding(
    traverse: &mut TraverseScoping,
    scope: ScopeId,
    name: &str,
    printed: &mut String,
) -> Result<(), AllocError> {
    if !has_scope(traverse, scope) {
        return append_no(printed);
    }
    traverse.add_binding(scope, name, SymbolId(0))
}

fn append_generated(
    alloc: Global,
    traverse: &mut TraverseScoping,
    name: &str,
    scope: ScopeId,
    printed: &mut String,
) -> Result<(), AllocError> {
    if !has_room(traverse) || !has_scope(traverse, scope) {
        return append_no(printed);
    }
    let name = ident(alloc, name)?;
    let bound = traverse.generate_binding(name, scope, SymbolFlags::FunctionScopedVariable)?;
    append_number(bound.symbol_id.0, printed)
}

fn append_generated_here(
    alloc: Global,
    traverse: &mut TraverseScoping,
    name: &str,
    printed: &mut String,
) -> Result<(), AllocError> {
    if !has_room(traverse) || !has_scope(traverse, traverse.current_scope_id()) {
        return append_no(printed);
    }
    let name = ident(alloc, name)?;
    let bound = traverse.generate_binding_in_current_scope(
        name,
        SymbolFlags::FunctionScopedVariable,
    )?;
    append_number(bound.symbol_id.0, printed)
}

fn append_fresh(
    traverse: &mut TraverseScoping,
    name: &str,
    printed: &mut String,
) -> Result<(), AllocError> {
    let fresh = traverse.generate_uid_name(name)?;
    let name = fresh.as_str();
    write!(printed, " {name}")
}

fn append_name_call(
    alloc: Global,
    traverse: &mut TraverseScoping,
    word: &str,
    taken: Taken,
    printed: &mut String,
) -> Result<bool, AllocError> {
    let scope = ScopeId(number(taken.second));
    let appended = match word {
        "bind" => append_binding(traverse, scope, taken.first, printed),
        "generate" => append_generated(alloc, traverse, taken.first, scope, printed),
        "generate_here" => append_generated_here(alloc, traverse, taken.first, printed),
        "uid" => append_fresh(traverse, taken.first, printed),
        _ => return Ok(false),
    };
    appended?;
    Ok(true)
}

// ---- references

fn append_bound(
    traverse: &mut TraverseScoping,
    symbol: SymbolId,
    printed: &mut String,
) -> Result<(), AllocError> {
    if !has_room(traverse) || !is_live(traverse, Some(symbol)) {
        return append_no(printed);
    }
    let id = traverse.create_bound_reference(symbol, ReferenceFlags::Read)?;
    append_number(id.0, printed)
}

fn append_unbound(
    traverse: &mut TraverseScoping,
    name: &str,
    printed: &mut String,
) -> Result<(), AllocError> {
    if !has_room(traverse) {
        return append_no(printed);
    }
    let id = traverse.create_unbound_reference(name, ReferenceFlags::Read)?;
    append_number(id.0, printed)
}

fn append_reference(
    traverse: &mut TraverseScoping,
    name: &str,
    symbol: Option<SymbolId>,
    printed: &mut String,
) -> Result<(), AllocError> {
    if !has_room(traverse) || !is_live(traverse, symbol) {
        return append_no(printed);
    }
    let id = traverse.create_reference(name, symbol, ReferenceFlags::Write)?;
    append_number(id.0, printed)
}

fn append_reference_here(
    traverse: &mut TraverseScoping,
    name: &str,
    printed: &mut String,
) -> Result<(), AllocError> {
    let scope = traverse.current_scope_id();
    if !has_room(traverse) || !has_scope(traverse, scope) {
        return append_no(printed);
    }
    if !is_live(traverse, traverse.scoping().find_binding(scope, name)) {
        return append_no(printed);
    }
    let id = traverse.create_reference_in_current_scope(name, ReferenceFlags::Read)?;
    append_number(id.0, printed)
}

fn append_deleted(
    traverse: &mut TraverseScoping,
    reference: ReferenceId,
    name: &str,
    printed: &mut String,
) -> Result<(), AllocError> {
    if reference.0 as usize >= traverse.scoping().references_len() {
        return append_no(printed);
    }
    if !is_live(
        traverse,
        traverse.scoping().get_reference(reference).symbol_id(),
    ) {
        return append_no(printed);
    }
    traverse.delete_reference(reference, name);
    Ok(())
}

fn append_reference_call(
    traverse: &mut TraverseScoping,
    word: &str,
    taken: Taken,
    printed: &mut String,
) -> Result<bool, AllocError> {
    let name = taken.first;
    let appended = match word {
        "bound" => append_bound(traverse, SymbolId(number(name)), printed),
        "unbound" => append_unbound(traverse, name, printed),
        "reference" => append_reference(traverse, name, symbol_in(taken.second), printed),
        "reference_here" => append_reference_here(traverse, name, printed),
        "delete" => append_deleted(traverse, ReferenceId(number(taken.second)), name, printed),
        _ => return Ok(false),
    };
    appended?;
    Ok(true)
}

// ---- what there is

fn append_shown(
    traverse: &TraverseScoping,
    word: &str,
    taken: Taken,
    printed: &mut String,
) -> Result<bool, AllocError> {
    let scoping = traverse.scoping();
    match word {
        "parent" => append_parent(scoping, ScopeId(number(taken.first)), printed)?,
        "list" => append_list(scoping, SymbolId(number(taken.first)), printed)?,
        "names" => append_names(scoping, printed)?,
        "ancestors" => append_ancestors(traverse, printed)?,
        _ => return Ok(false),
    }
    Ok(true)
}

/// Whether it is one of these calls; its answer is appended.
pub(crate) fn append_call(
    alloc: Global,
    traverse: &mut TraverseScoping,
    word: &str,
    taken: Taken,
    printed: &mut String,
) -> Result<bool, AllocError> {
    if append_shown(traverse, word, taken, printed)? {
        return Ok(true);
    }
    if append_scope_call(alloc, traverse, word, taken, printed)? {
        return Ok(true);
    }
    if append_name_call(alloc, traverse, word, taken, printed)? {
        return Ok(true);
    }
    append_reference_call(traverse, word, taken, printed)
}
