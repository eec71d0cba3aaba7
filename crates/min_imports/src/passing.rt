// Imports that only feed exports become exports from their modules.
ghost use Rattle.std.specs.Prelude.{◌≡◌, ◌<◌, ◌≤◌, ℕ, List, length, [], ◌||◌, true, false, None, is_some, get_or, IfOk, OnOk, IsOk};
ghost use Rattle.std.specs.Option.{option_map};
ghost use Rattle.std.specs.Str.{bytes_eq};
ghost use Rattle.js_syntax.specs.Node.{Forest, absent, row, forest_of};
ghost use Rattle.rules.specs.DeadCode.Rules.{Facts};
ghost use Rattle.rules.specs.Imports.Passed as rules;
ghost use Rattle.min_imports.specs.Merging.{or_changed, overlaid, planned, is_missing};
ghost use Rattle.min_imports.specs.Passing.{Told, Beside, Passes, Covers, Covered, ItemPasses, Plan, Planned, passes_at, imports, NoImports, item_binds, names_in, is_text, bound_text, is_plain, exports_names, specifiers_of, item_exports, has_export, imports_names, stretch, stretch_for, first_text, widened, widened_if};

use crate::listed::{Listed, bound_text, listed_below, listed_by};
use crate::merged::{imported_from, is_missing, names_of, put_changed};
use crate::passed::item_passed_on;
use crate::repeated::keep_staying;
use crate::uses::Uses;
use js_syntax::NodeKind;
use js_tree::{Node, put_child};
use std::alloc::{AllocError, Global};
use std::collections::BTreeMap;

// ---- imports and exports

// The specifiers of an export of names alone.
fn specifiers_in(list: &Node) -> Option<&[Option<Node>]>
    ensures { option_map (λ s. row s.now) result ≡ specifiers_of (absent (forest_of list.now)) }
{
    match list.kind() {
        NodeKind::Specifiers => Some(list.children()),
        _ => None,
    }
}

fn specifiers_of(children: &[Option<Node>]) -> Option<&[Option<Node>]>
    ensures { option_map (λ s. row s.now) result ≡ specifiers_of (row children.now) }
{
    match children {
        [None, Some(list)] => specifiers_in(list),
        [None, Some(_), _, ..] => None,
        [None, None, ..] => None,
        [None] => None,
        [Some(_), ..] => None,
        [] => None,
    }
}

fn is_plain(kind: &NodeKind) -> bool
    ensures { result ≡ is_plain kind.now }
{
    matches!(kind, NodeKind::ExportNamedDeclaration(None))
}

fn exports_names(node: &Node) -> Option<&[Option<Node>]>
    ensures { option_map (λ s. row s.now) result ≡ exports_names node.now.kind node.now.below }
{
    if is_plain(node.kind()) {
        specifiers_of(node.children())
    } else {
        None
    }
}

fn is_there(specifiers: Option<&[Option<Node>]>) -> bool
    ensures { result ≡ is_some (option_map (λ s. row s.now) specifiers.entry) }
{
    match specifiers {
        Some(_) => true,
        None => false,
    }
}

fn item_exports(item: &Option<Node>) -> bool
    ensures { result ≡ item_exports item.now }
{
    match item {
        Some(node) => is_there(exports_names(node)),
        None => false,
    }
}

fn has_export(items: &[Option<Node>]) -> bool
    ensures { result ≡ has_export (row items.now) }
{
    for item in items {
        if item_exports(item) {
            return true;
        }
    }
    false
}

fn imports_names(node: &Node) -> Option<&[Option<Node>]>
    ensures { option_map (λ s. row s.now) result ≡ imports_names node.now.kind node.now.below }
{
    match imported_from(node.kind()) {
        Some(_) => names_of(node.children()),
        None => None,
    }
}

// ---- which imports bind a name

// Where they stand: from an index on, up to another.
#[derive(Clone, Copy)]
pub(crate) struct Within {
    pub(crate) from: usize,
    pub(crate) to: usize,
}

// With one more.
fn widened(known: Option<Within>, at: usize) -> Within
    ensures { result ≡ widened known at }
{
    match known {
        Some(within) => Within {
            from: within.from,
            to: at,
        },
        None => Within { from: at, to: at },
    }
}

fn add_binder<'a>(
    binders: &mut BTreeMap<&'a str, Within>,
    text: &'a str,
    at: usize,
) -> Result<(), AllocError>
    ensures { OnOk result ((x : List ℕ) → stretch binders.new x ≡ widened_if (bytes_eq text.now x) (stretch binders.old x) at) }
{
    let within = widened(binders.get(&text).copied(), at);
    binders.insert(text, within)?;
    Ok(())
}

fn add_name<'a>(
    binders: &mut BTreeMap<&'a str, Within>,
    name: &'a Option<Node>,
    at: usize,
) -> Result<(), AllocError>
    ensures { OnOk result ((x : List ℕ) → stretch binders.new x ≡ widened_if (is_text (bound_text name.now) x) (stretch binders.old x) at) }
{
    match bound_text(name) {
        Some(text) => {
            add_binder(binders, text, at)?;
            Ok(())
        }
        None => Ok(()),
    }
}

fn add_names<'a>(
    binders: &mut BTreeMap<&'a str, Within>,
    names: &'a [Option<Node>],
    at: usize,
) -> Result<(), AllocError>
    ensures { OnOk result (Covered binders.old binders.new (row names.now) at) }
{
    for name in names {
        add_name(binders, name, at)?;
    }
    Ok(())
}

fn add_import<'a>(
    binders: &mut BTreeMap<&'a str, Within>,
    node: &'a Node,
    at: usize,
) -> Result<(), AllocError>
    ensures { OnOk result (Covered binders.old binders.new (names_in node.now.kind node.now.below) at) }
{
    match imports_names(node) {
        Some(names) => {
            add_names(binders, names, at)?;
            Ok(())
        }
        None => Ok(()),
    }
}

fn add_item<'a>(
    binders: &mut BTreeMap<&'a str, Within>,
    item: &'a Option<Node>,
    at: usize,
) -> Result<(), AllocError>
    ensures { OnOk result ((x : List ℕ) → stretch binders.new x ≡ widened_if (item_binds item.now x) (stretch binders.old x) at) }
{
    match item {
        Some(node) => {
            add_import(binders, node, at)?;
            Ok(())
        }
        None => Ok(()),
    }
}

fn first_text(specifiers: &[Option<Node>]) -> Option<&str>
    ensures { option_map (λ s. s.now) result ≡ first_text (row specifiers.now) }
{
    match specifiers {
        [Some(first), ..] => listed_below(first.children()),
        [None, ..] => None,
        [] => None,
    }
}

// Where the imports stand that bind the first name that an export lists.
fn binders_of<'a>(
    binders: &BTreeMap<&'a str, Within>,
    specifiers: &'a [Option<Node>],
) -> Option<Within>
    ensures { result ≡ stretch_for binders.now (first_text (row specifiers.now)) }
{
    match first_text(specifiers) {
        Some(text) => binders.get(&text).copied(),
        None => None,
    }
}

// ---- which import becomes an export

fn put_passed(changed: &mut Option<Node>, passed: Option<Node>) -> bool
    ensures goes { result ≡ is_some passed }
    ensures changed { changed.new ≡ or_changed changed.old passed }
{
    match passed {
        Some(node) => {
            put_child(changed, node);
            true
        }
        None => false,
    }
}

fn pass_at<'a>(
    alloc: Global,
    uses: &Uses,
    listed: &Listed<'a>,
    item: &'a Option<Node>,
    stays: bool,
    changed: &mut Option<Node>,
) -> Result<bool, AllocError>
    requires told { Told listed.now.texts listed.now.references (row listed.now.specifiers.now) }
    requires exported { imports changed.old ≡ false }
    ensures goes { IfOk result (λ b. b ≡ is_some (passes_at uses.now (row listed.now.specifiers.now) stays (or_changed item.now changed.old))) }
    ensures changed { OnOk result (changed.new ≡ or_changed changed.old (passes_at uses.now (row listed.now.specifiers.now) stays (or_changed item.now changed.old))) }
{
    if !stays {
        return Ok(false);
    }
    if !is_missing(changed) {
        return Ok(false);
    }
    let passed = item_passed_on(alloc, uses, listed, item)?;
    let goes = put_passed(changed, passed);
    Ok(goes)
}

fn pass_within<'a>(
    alloc: Global,
    uses: &Uses,
    listed: &Listed<'a>,
    items: &'a [Option<Node>],
    staying: &[bool],
    changed: &mut Vec<Option<Node>>,
    within: Within,
) -> Result<bool, AllocError>
    requires told { Told listed.now.texts listed.now.references (row listed.now.specifiers.now) }
    requires even { length changed.old.items ≡ length staying.now }
    requires within { length staying.now ≤ length items.now }
    requires exported { NoImports changed.old.items }
    requires inside { within.to < length staying.now }
    requires beside { Beside uses.now (row listed.now.specifiers.now) staying.now (overlaid items.now changed.old.items) within.from within.to }
    ensures passes { IfOk result (λ b. Passes (rules.passed_among uses.now (row listed.now.specifiers.now) (planned items.now staying.now changed.old.items)) (planned items.now staying.now changed.old.items) b (planned items.now staying.now changed.new.items)) }
    ensures binds { OnOk result ((j : ℕ) (x : List ℕ) → item_binds (get_or (overlaid items.now changed.new.items) j None) x ≡ true → item_binds (get_or (overlaid items.now changed.old.items) j None) x ≡ true) }
    ensures even { OnOk result (length changed.new.items ≡ length changed.old.items) }
    ensures exported { OnOk result (NoImports changed.new.items) }
{
    let mut at = within.from;
    while at <= within.to {
        let slot = &mut changed[at];
        let goes = pass_at(alloc, uses, listed, &items[at], staying[at], slot)?;
        if goes {
            return Ok(true);
        }
        at += 1;
    }
    Ok(false)
}

fn pass_among<'a>(
    alloc: Global,
    uses: &Uses,
    binders: &BTreeMap<&'a str, Within>,
    items: &'a [Option<Node>],
    staying: &[bool],
    changed: &mut Vec<Option<Node>>,
    specifiers: &'a [Option<Node>],
) -> Result<bool, AllocError>
    requires even { length changed.old.items ≡ length staying.now }
    requires within { length staying.now ≤ length items.now }
    requires exported { NoImports changed.old.items }
    requires covers { Covers binders.now (overlaid items.now changed.old.items) }
    requires there { (j : ℕ) → j < length staying.now → is_missing (get_or items.now j None) ≡ false }
    ensures passes { IfOk result (λ b. Passes (rules.passed_among uses.now (row specifiers.now) (planned items.now staying.now changed.old.items)) (planned items.now staying.now changed.old.items) b (planned items.now staying.now changed.new.items)) }
    ensures binds { OnOk result ((j : ℕ) (x : List ℕ) → item_binds (get_or (overlaid items.now changed.new.items) j None) x ≡ true → item_binds (get_or (overlaid items.now changed.old.items) j None) x ≡ true) }
    ensures even { OnOk result (length changed.new.items ≡ length changed.old.items) }
    ensures exported { OnOk result (NoImports changed.new.items) }
{
    let Some(within) = binders_of(binders, specifiers) else {
        return Ok(false);
    };
    let listed = listed_by(alloc, specifiers)?;
    let goes = pass_within(alloc, uses, &listed, items, staying, changed, within)?;
    Ok(goes)
}

// Whether an export goes: an import before it becomes one from its module then.
fn export_goes<'a>(
    alloc: Global,
    uses: &Uses,
    binders: &BTreeMap<&'a str, Within>,
    items: &'a [Option<Node>],
    staying: &[bool],
    changed: &mut Vec<Option<Node>>,
    node: &'a Node,
) -> Result<bool, AllocError>
    requires even { length changed.old.items ≡ length staying.now }
    requires within { length staying.now ≤ length items.now }
    requires exported { NoImports changed.old.items }
    requires covers { Covers binders.now (overlaid items.now changed.old.items) }
    requires there { (j : ℕ) → j < length staying.now → is_missing (get_or items.now j None) ≡ false }
    ensures passes { IfOk result (λ b. Passes (rules.passed_before uses.now (planned items.now staying.now changed.old.items) node.now.kind node.now.below) (planned items.now staying.now changed.old.items) b (planned items.now staying.now changed.new.items)) }
    ensures binds { OnOk result ((j : ℕ) (x : List ℕ) → item_binds (get_or (overlaid items.now changed.new.items) j None) x ≡ true → item_binds (get_or (overlaid items.now changed.old.items) j None) x ≡ true) }
    ensures even { OnOk result (length changed.new.items ≡ length changed.old.items) }
    ensures exported { OnOk result (NoImports changed.new.items) }
{
    let Some(specifiers) = exports_names(node) else {
        return Ok(false);
    };
    let goes = pass_among(alloc, uses, binders, items, staying, changed, specifiers)?;
    Ok(goes)
}

// Behind an item that is missing none goes.
fn item_goes<'a>(
    alloc: Global,
    uses: &Uses,
    binders: &BTreeMap<&'a str, Within>,
    ended: bool,
    items: &'a [Option<Node>],
    staying: &[bool],
    changed: &mut Vec<Option<Node>>,
    item: &'a Option<Node>,
) -> Result<bool, AllocError>
    requires even { length changed.old.items ≡ length staying.now }
    requires within { length staying.now ≤ length items.now }
    requires exported { NoImports changed.old.items }
    requires covers { Covers binders.now (overlaid items.now changed.old.items) }
    requires there { ended ≡ false → (j : ℕ) → j < length staying.now → is_missing (get_or items.now j None) ≡ false }
    ensures passes { IfOk result (λ b. ItemPasses uses.now ended (planned items.now staying.now changed.old.items) item.now b (planned items.now staying.now changed.new.items)) }
    ensures binds { OnOk result ((j : ℕ) (x : List ℕ) → item_binds (get_or (overlaid items.now changed.new.items) j None) x ≡ true → item_binds (get_or (overlaid items.now changed.old.items) j None) x ≡ true) }
    ensures even { OnOk result (length changed.new.items ≡ length changed.old.items) }
    ensures exported { OnOk result (NoImports changed.new.items) }
{
    if ended {
        return Ok(false);
    }
    let Some(node) = item else {
        return Ok(false);
    };
    let goes = export_goes(alloc, uses, binders, items, staying, changed, node)?;
    Ok(goes)
}

// ---- all items

/// Which items of a list stay, and what those become that change.
#[derive(Drop)]
pub struct Passing {
    pub staying: Vec<bool>,
    pub changed: Vec<Option<Node>>,
}

fn ends_at(ended: bool, item: &Option<Node>) -> bool
    ensures { result ≡ (ended || is_missing item.now) }
{
    ended || is_missing(item)
}

fn plan(alloc: Global, uses: &Uses, items: &[Option<Node>]) -> Result<Passing, AllocError>
    ensures { IfOk result (λ p. Plan uses.now p.staying.items p.changed.items (row items.now)) }
{
    let mut binders = BTreeMap::new(alloc);
    let mut staying = Vec::new(alloc);
    let mut changed = Vec::new(alloc);
    let mut ended = false;
    for item in items {
        ended = ends_at(ended, item);
        let is_gone = item_goes(
            alloc,
            uses,
            &binders,
            ended,
            items,
            staying.as_slice(),
            &mut changed,
            item,
        )?;
        add_item(&mut binders, item, staying.len())?;
        staying.push(!is_gone)?;
        changed.push(None)?;
    }
    Ok(Passing { staying, changed })
}

fn some_go(passing: Passing) -> Option<Passing>
    ensures { (f : Facts) (list : Forest) → Plan f passing.staying.items passing.changed.items list → Planned f list result }
{
    if passing.staying.contains(&false) {
        Some(passing)
    } else {
        None
    }
}

/// Which exports of a list go, and which imports become exports from their modules: each export of names alone goes where it lists just the
/// names of an import before it, to which nothing else refers; the first such import has them then. `None` where there is none. It fails
/// only for want of memory, and only where the list has an export of names alone.
pub fn plan_passing(
    alloc: Global,
    uses: &Uses,
    items: &[Option<Node>],
) -> Result<Option<Passing>, AllocError>
    ensures planned { IfOk result (λ p. Planned uses.now (row items.now) p) }
    ensures succeeds { has_export (row items.now) ≡ false → IsOk result }
{
    if !has_export(items) {
        return Ok(None);
    }
    let passing = plan(alloc, uses, items)?;
    Ok(some_go(passing))
}

/// The list by such a plan.
pub fn pass_on(items: &mut Vec<Option<Node>>, passing: Passing)
    requires even { length passing.changed.items ≡ length items.old.items }
    requires long { length passing.staying.items ≡ length items.old.items }
    ensures { row items.new.items ≡ planned items.old.items passing.staying.items passing.changed.items }
{
    let Passing {
        staying,
        mut changed,
    } = passing;
    put_changed(items.as_mut_slice(), changed.as_mut_slice());
    keep_staying(items, staying.as_slice());
}
