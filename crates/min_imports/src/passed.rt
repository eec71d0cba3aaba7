// What an import becomes whose names an export lists.
ghost use Rattle.std.specs.Prelude.{◌≡◌, ℕ, List, [], ◌∷◌, Some, None, is_some, codes, IfOk, OnOk, if◌then◌else◌};
ghost use Rattle.std.specs.Option.{option_map};
ghost use Rattle.std.specs.Str.{bytes_eq};
ghost use Rattle.js_syntax.specs.declared.node_kind.NodeKind.TheVariants.{ForeignSpecifier as foreign_specifier, ExportAllDeclaration as export_all_declaration, ExportNamedDeclaration as export_named_declaration, Specifiers as specifiers};
ghost use Rattle.js_syntax.specs.Node.{Forest, nothing, absent, row, forest_of};
ghost use Rattle.json_shape.specs.Exact.{is_exact_module_name};
ghost use Rattle.rules.specs.Imports.Passed as rules;
ghost use Rattle.min_imports.specs.Merging.{imported_from};
ghost use Rattle.min_imports.specs.Passing.{Told, Bound, found_in, or_found, item_found, bound_below, is_text, exported_as, name_alone, reference_alone, is_namespace_alone, exported_alone, only_exported, as_specifiers, list_among, item_passed_on};

use crate::listed::{Listed, bound_below, names_pass};
use crate::merged::imported_from;
use crate::repeated::is_nothing;
use crate::uses::Uses;
use form_names::is_identifier_name;
use js_syntax::{Ident, ModuleName, NodeKind, Text};
use js_tree::Node;
use std::alloc::{AllocError, Global};
use std::collections::BTreeMap;

// ---- names of modules' exports

fn clone_name(alloc: Global, name: &ModuleName) -> Result<ModuleName, AllocError>
    ensures { IfOk result (λ n. n ≡ name.now) }
{
    match name {
        ModuleName::Name(name) => Ok(ModuleName::Name(name.try_clone(alloc)?)),
        ModuleName::Text(text) => Ok(ModuleName::Text(text.try_clone(alloc)?)),
    }
}

fn is_exact(name: &ModuleName) -> bool
    ensures { result ≡ is_exact_module_name name.now }
{
    match name {
        ModuleName::Name(name) => is_identifier_name(name.as_str()),
        ModuleName::Text(_) => true,
    }
}

// Whether what binds a name binds it to an export that is named as it may be.
fn imports_one(kind: &NodeKind) -> bool
    ensures { result ≡ is_some (rules.imported kind.now) }
{
    match kind {
        NodeKind::ImportSpecifier(name) => is_exact(name),
        NodeKind::ImportDefaultSpecifier => true,
        _ => false,
    }
}

fn imported_as(alloc: Global, name: &ModuleName) -> Result<Option<ModuleName>, AllocError>
    ensures { IfOk result (λ n. n ≡ if is_exact_module_name name.now then Some name.now else None) }
{
    if is_exact(name) {
        return Ok(Some(clone_name(alloc, name)?));
    }
    Ok(None)
}

fn default_name(alloc: Global) -> Result<ModuleName, AllocError>
    ensures { IfOk result (λ n. n ≡ ModuleName.Name (codes "default")) }
{
    let name = String::from_str(alloc, "default")?;
    Ok(ModuleName::Name(Ident::new(name)))
}

// The export to which it binds one.
fn imported(alloc: Global, kind: &NodeKind) -> Result<Option<ModuleName>, AllocError>
    ensures { IfOk result (λ n. n ≡ rules.imported kind.now) }
{
    match kind {
        NodeKind::ImportSpecifier(name) => imported_as(alloc, name),
        NodeKind::ImportDefaultSpecifier => Ok(Some(default_name(alloc)?)),
        _ => Ok(None),
    }
}

// ---- the names of an import

fn bind<'a>(
    names: &mut BTreeMap<&'a str, &'a NodeKind>,
    text: &'a str,
    kind: &'a NodeKind,
) -> Result<(), AllocError>
    ensures { OnOk result ((x : List ℕ) → found_in names.new x ≡ or_found (bytes_eq text.now x) kind.now (found_in names.old x)) }
{
    if imports_one(kind) {
        names.insert(text, kind)?;
        return Ok(());
    }
    Ok(())
}

fn bind_node<'a>(
    names: &mut BTreeMap<&'a str, &'a NodeKind>,
    node: &'a Node,
) -> Result<(), AllocError>
    ensures { OnOk result ((x : List ℕ) → found_in names.new x ≡ or_found (is_text (bound_below node.now.below) x) node.now.kind (found_in names.old x)) }
{
    match bound_below(node.children()) {
        Some(text) => {
            bind(names, text, node.kind())?;
            Ok(())
        }
        None => Ok(()),
    }
}

fn bind_item<'a>(
    names: &mut BTreeMap<&'a str, &'a NodeKind>,
    item: &'a Option<Node>,
) -> Result<(), AllocError>
    ensures { OnOk result ((x : List ℕ) → found_in names.new x ≡ item_found item.now x (found_in names.old x)) }
{
    match item {
        Some(node) => {
            bind_node(names, node)?;
            Ok(())
        }
        None => Ok(()),
    }
}

// From the last to the first, so that the first of a text is found.
fn bound_names<'a>(
    alloc: Global,
    names: &'a [Option<Node>],
) -> Result<BTreeMap<&'a str, &'a NodeKind>, AllocError>
    ensures { IfOk result (λ b. Bound b (row names.now)) }
{
    let mut bound = BTreeMap::new(alloc);
    let mut at = names.len();
    while at > 0 {
        at -= 1;
        bind_item(&mut bound, &names[at])?;
    }
    Ok(bound)
}

// ---- the names that are listed

fn foreign_node(
    alloc: Global,
    specifier: &Node,
    exported: &ModuleName,
    local: ModuleName,
) -> Result<Node, AllocError>
    ensures { IfOk result (λ n. n ≡ record { kind = foreign_specifier local exported.now; note = specifier.now.note; below = nothing }) }
{
    let exported = clone_name(alloc, exported)?;
    let kind = NodeKind::ForeignSpecifier { local, exported };
    let mut node = Node::new(kind, specifier.span(), Vec::new(alloc));
    node.set_id(specifier.id());
    Ok(node)
}

fn foreign(
    alloc: Global,
    specifier: &Node,
    exported: &ModuleName,
    kind: &NodeKind,
) -> Result<Option<Node>, AllocError>
    ensures { IfOk result (λ o. option_map (λ n. forest_of n) o ≡ rules.and_passed exported.now specifier.now.note (rules.imported kind.now) (Some nothing)) }
{
    match imported(alloc, kind)? {
        Some(local) => Ok(Some(foreign_node(alloc, specifier, exported, local)?)),
        None => Ok(None),
    }
}

// The name to which a specifier refers that has nothing else.
fn name_alone(name: &Node) -> Option<&str>
    ensures { option_map (λ s. s.now) result ≡ name_alone name.now.kind name.now.below }
{
    match name.kind() {
        NodeKind::ReferenceName(text) => {
            if is_nothing(name.children()) {
                Some(text.as_str())
            } else {
                None
            }
        }
        _ => None,
    }
}

fn reference_alone(children: &[Option<Node>]) -> Option<&str>
    ensures { option_map (λ s. s.now) result ≡ reference_alone (row children.now) }
{
    match children {
        [Some(name)] => name_alone(name),
        [Some(_), _, ..] => None,
        [None, ..] => None,
        [] => None,
    }
}

fn exported_as(kind: &NodeKind) -> Option<&ModuleName>
    ensures { option_map (λ n. n.now) result ≡ exported_as kind.now }
{
    match kind {
        NodeKind::ExportSpecifier(exported) => Some(exported),
        _ => None,
    }
}

fn passed_name<'a>(
    alloc: Global,
    bound: &BTreeMap<&'a str, &'a NodeKind>,
    specifier: &'a Node,
    exported: &ModuleName,
) -> Result<Option<Node>, AllocError>
    requires { exported_as specifier.now.kind ≡ Some exported.now }
    ensures { IfOk result (λ o. (names : Forest) → Bound bound.now names → option_map (λ n. forest_of n) o ≡ rules.passed names (forest_of specifier.now)) }
{
    let Some(text) = reference_alone(specifier.children()) else {
        return Ok(None);
    };
    let Some(kind) = bound.get(&text) else {
        return Ok(None);
    };
    let name = foreign(alloc, specifier, exported, kind)?;
    Ok(name)
}

fn passed_one<'a>(
    alloc: Global,
    bound: &BTreeMap<&'a str, &'a NodeKind>,
    specifier: &'a Node,
) -> Result<Option<Node>, AllocError>
    ensures { IfOk result (λ o. (names : Forest) → Bound bound.now names → option_map (λ n. forest_of n) o ≡ rules.passed names (forest_of specifier.now)) }
{
    let Some(exported) = exported_as(specifier.kind()) else {
        return Ok(None);
    };
    let name = passed_name(alloc, bound, specifier, exported)?;
    Ok(name)
}

fn passed_item<'a>(
    alloc: Global,
    bound: &BTreeMap<&'a str, &'a NodeKind>,
    item: &'a Option<Node>,
) -> Result<Option<Node>, AllocError>
    ensures { IfOk result (λ o. (names : Forest) → Bound bound.now names → option_map (λ n. forest_of n) o ≡ rules.passed names (row (item.now ∷ []))) }
{
    match item {
        Some(specifier) => passed_one(alloc, bound, specifier),
        None => Ok(None),
    }
}

fn passed_all<'a>(
    alloc: Global,
    bound: &BTreeMap<&'a str, &'a NodeKind>,
    specifiers: &'a [Option<Node>],
) -> Result<Option<Vec<Option<Node>>>, AllocError>
    ensures { IfOk result (λ o. (names : Forest) → Bound bound.now names → option_map (λ v. row v.items) o ≡ rules.passed names (row specifiers.now)) }
{
    let mut passed = Vec::new(alloc);
    for item in specifiers {
        let found = passed_item(alloc, bound, item)?;
        let Some(name) = found else {
            return Ok(None);
        };
        passed.push(Some(name))?;
    }
    Ok(Some(passed))
}

fn passed<'a>(
    alloc: Global,
    names: &'a [Option<Node>],
    specifiers: &'a [Option<Node>],
) -> Result<Option<Vec<Option<Node>>>, AllocError>
    ensures { IfOk result (λ o. option_map (λ v. row v.items) o ≡ rules.passed (row names.now) (row specifiers.now)) }
{
    let bound = bound_names(alloc, names)?;
    let passed = passed_all(alloc, &bound, specifiers)?;
    Ok(passed)
}

// ---- a namespace

fn is_namespace(names: &[Option<Node>]) -> bool
    ensures { result ≡ is_namespace_alone (row names.now) }
{
    match names {
        [Some(name)] => matches!(name.kind(), NodeKind::ImportNamespaceSpecifier),
        [Some(_), _, ..] => false,
        [None, ..] => false,
        [] => false,
    }
}

fn exported_alone(specifier: &Node) -> Option<&ModuleName>
    ensures { option_map (λ n. n.now) result ≡ exported_alone specifier.now.kind specifier.now.below }
{
    match reference_alone(specifier.children()) {
        Some(_) => exported_as(specifier.kind()),
        None => None,
    }
}

fn only_exported(specifiers: &[Option<Node>]) -> Option<&ModuleName>
    ensures { option_map (λ n. n.now) result ≡ only_exported (row specifiers.now) }
{
    match specifiers {
        [Some(specifier)] => exported_alone(specifier),
        [Some(_), _, ..] => None,
        [None, ..] => None,
        [] => None,
    }
}

fn namespace_passed<'a>(
    names: &[Option<Node>],
    specifiers: &'a [Option<Node>],
) -> Option<&'a ModuleName>
    ensures { option_map (λ n. n.now) result ≡ rules.namespace_passed (row names.now) (row specifiers.now) }
{
    if is_namespace(names) {
        only_exported(specifiers)
    } else {
        None
    }
}

// ---- an import

fn export_all(
    alloc: Global,
    source: &str,
    import: &Node,
    exported: &ModuleName,
) -> Result<Node, AllocError>
    ensures { IfOk result (λ n. n ≡ record { kind = export_all_declaration (Some exported.now) source.now; note = import.now.note; below = nothing }) }
{
    let source = Text::new(String::from_str(alloc, source)?);
    let exported = Some(clone_name(alloc, exported)?);
    let mut node = Node::new(
        NodeKind::ExportAllDeclaration { exported, source },
        import.span(),
        Vec::new(alloc),
    );
    node.set_id(import.id());
    Ok(node)
}

fn list_of(list: &Node, passed: Vec<Option<Node>>) -> Node
    ensures { result ≡ record { kind = specifiers; note = list.now.note; below = row passed.items } }
{
    let mut node = Node::new(NodeKind::Specifiers, list.span(), passed);
    node.set_id(list.id());
    node
}

fn export_named(alloc: Global, source: &str, import: &Node, list: Node) -> Result<Node, AllocError>
    ensures { IfOk result (λ n. n ≡ record { kind = export_named_declaration (Some source.now); note = import.now.note; below = absent (forest_of list) }) }
{
    let source = Text::new(String::from_str(alloc, source)?);
    let mut children = Vec::new(alloc);
    children.push(None)?;
    children.push(Some(list))?;
    let mut node = Node::new(
        NodeKind::ExportNamedDeclaration(Some(source)),
        import.span(),
        children,
    );
    node.set_id(import.id());
    Ok(node)
}

fn names_passed<'a>(
    alloc: Global,
    source: &str,
    import: &Node,
    list: &'a Node,
    specifiers: &'a [Option<Node>],
) -> Result<Option<Node>, AllocError>
    ensures { IfOk result (λ o. o ≡ rules.export_of source.now import.now.note list.now.note None (rules.passed list.now.below (row specifiers.now))) }
{
    let found = passed(alloc, list.children(), specifiers)?;
    let Some(names) = found else {
        return Ok(None);
    };
    let node = export_named(alloc, source, import, list_of(list, names))?;
    Ok(Some(node))
}

fn export_of<'a>(
    alloc: Global,
    source: &str,
    import: &Node,
    list: &'a Node,
    specifiers: &'a [Option<Node>],
) -> Result<Option<Node>, AllocError>
    ensures { IfOk result (λ o. o ≡ rules.export_of source.now import.now.note list.now.note (rules.namespace_passed list.now.below (row specifiers.now)) (rules.passed list.now.below (row specifiers.now))) }
{
    let whole = namespace_passed(list.children(), specifiers);
    match whole {
        Some(exported) => {
            let node = export_all(alloc, source, import, exported)?;
            Ok(Some(node))
        }
        None => {
            let node = names_passed(alloc, source, import, list, specifiers)?;
            Ok(node)
        }
    }
}

fn list_among(children: &[Option<Node>]) -> Option<&Node>
    ensures { option_map (λ n. n.now) result ≡ list_among (row children.now) }
{
    match children {
        [Some(list)] => as_specifiers(list),
        [Some(_), _, ..] => None,
        [None, ..] => None,
        [] => None,
    }
}

fn as_specifiers(list: &Node) -> Option<&Node>
    ensures { option_map (λ n. n.now) result ≡ as_specifiers list.now }
{
    match list.kind() {
        NodeKind::Specifiers => Some(list),
        _ => None,
    }
}

fn import_passed<'a>(
    alloc: Global,
    uses: &Uses,
    listed: &Listed<'a>,
    source: &str,
    import: &'a Node,
) -> Result<Option<Node>, AllocError>
    requires told { Told listed.now.texts listed.now.references (row listed.now.specifiers.now) }
    requires source { imported_from import.now.kind ≡ Some source.now }
    ensures { IfOk result (λ o. o ≡ rules.passed_on uses.now (row listed.now.specifiers.now) import.now.kind import.now.note import.now.below) }
{
    let Some(list) = list_among(import.children()) else {
        return Ok(None);
    };
    if !names_pass(uses, listed, list.children()) {
        return Ok(None);
    }
    let passed = export_of(alloc, source, import, list, listed.specifiers)?;
    Ok(passed)
}

fn passed_on<'a>(
    alloc: Global,
    uses: &Uses,
    listed: &Listed<'a>,
    node: &'a Node,
) -> Result<Option<Node>, AllocError>
    requires told { Told listed.now.texts listed.now.references (row listed.now.specifiers.now) }
    ensures { IfOk result (λ o. o ≡ rules.passed_on uses.now (row listed.now.specifiers.now) node.now.kind node.now.note node.now.below) }
{
    match imported_from(node.kind()) {
        Some(source) => import_passed(alloc, uses, listed, source, node),
        None => Ok(None),
    }
}

/// What an item becomes, if it is an import whose names an export lists, and to which nothing else refers.
pub(crate) fn item_passed_on<'a>(
    alloc: Global,
    uses: &Uses,
    listed: &Listed<'a>,
    item: &'a Option<Node>,
) -> Result<Option<Node>, AllocError>
    requires told { Told listed.now.texts listed.now.references (row listed.now.specifiers.now) }
    ensures { IfOk result (λ o. o ≡ item_passed_on uses.now (row listed.now.specifiers.now) item.now) }
{
    match item {
        Some(node) => passed_on(alloc, uses, listed, node),
        None => Ok(None),
    }
}
