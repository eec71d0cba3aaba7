// Imports and exports (ECMA-262 16.2).
ghost use Rattle.std.specs.Prelude.{◌≡◌, ◌+◌, ◌^◌, ◌<◌, IfOk};
ghost use Rattle.js_syntax.specs.Node.{forest_of};
ghost use Rattle.js_tree.specs.Count.{node_count};
ghost use Rattle.form_rules.specs.Break.{least};
ghost use Rattle.form_rules.specs.Rules.{rule_7};
ghost use Rattle.form_check.specs.Parts.{export_breaks};

use crate::local::unless;
use crate::scope::declared_by;
use form_context::Context;
use form_declared::{exported_among, first_below, locals_among};
use form_names::{first_repeated_export, first_undeclared};
use form_rules::{Break, first_of};
use js_tree::{Node, NodeKind, SourceType};
use std::alloc::{AllocError, Global};

// Of a program: a name is exported once, and what is exported by a name of the module is declared at its
// top.
fn export_breaks(
    alloc: Global,
    context: &Context<'_>,
    place: u32,
    node: &Node,
) -> Result<Option<Break>, AllocError>
    requires fits { place + node_count (forest_of node.now) < 2 ^ 32 }
    requires below { (place + 1) + node_count node.now.below < 2 ^ 32 }
    ensures { IfOk result (λ b. b ≡ least (export_breaks context.now node.now.kind place node.now.below)) }
{
    let statements = first_below(node.children());
    let exported = exported_among(alloc, place + 1, statements)?;
    let repeated = first_repeated_export(alloc, exported.as_slice())?;
    let declared = declared_by(alloc, context, place, node)?;
    let locals = locals_among(alloc, place + 1, statements)?;
    let undeclared = first_undeclared(alloc, declared.as_slice(), locals.as_slice())?;
    Ok(first_of(repeated, undeclared))
}

/// Imports and exports stand in a module; a name is exported once, and what is exported by a name of the
/// module is declared at its top.
pub(crate) fn rule_7(
    alloc: Global,
    context: &Context<'_>,
    place: u32,
    node: &Node,
) -> Result<Option<Break>, AllocError>
    requires fits { place + node_count (forest_of node.now) < 2 ^ 32 }
    ensures { IfOk result (λ b. b ≡ least (rule_7 context.now node.now.kind place node.now.below)) }
{
    match node.kind() {
        NodeKind::Program(_) => export_breaks(alloc, context, place, node),
        NodeKind::ImportDeclaration(_)
        | NodeKind::ExportNamedDeclaration(_)
        | NodeKind::ExportDefaultDeclaration
        | NodeKind::ExportAllDeclaration { .. } => Ok(unless(
            matches!(context.source(), SourceType::Module),
            place,
            7,
        )),
        _ => Ok(None),
    }
}
