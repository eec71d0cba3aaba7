// Names that clash in their scope.
ghost use Rattle.std.specs.Prelude.{◌≡◌, ◌+◌, ◌^◌, ◌<◌, IfOk};
ghost use Rattle.js_syntax.specs.Node.{forest_of};
ghost use Rattle.js_tree.specs.Count.{node_count};
ghost use Rattle.form_rules.specs.Break.{least};
ghost use Rattle.form_rules.specs.Rules.{declared_by, functions_in, at_top, may_repeat_parameters, rule_1, rule_2, rule_9};
ghost use Rattle.form_check.specs.Sought.{sought_by};

use crate::rows::have_plain_parameters;
use form_context::{Context, is_strict_function};
use form_declared::add_declared;
use form_names::{Clashes, first_clashes};
use form_rules::{Break, Declared, Sort, Sought};
use js_syntax::FunctionKind;
use js_tree::{Node, NodeKind, SourceType, count_of_kind};
use std::alloc::{AllocError, Global};

fn functions_in(strict: bool) -> Sort
    ensures { result ≡ functions_in strict }
{
    if strict {
        Sort::Lexical
    } else {
        Sort::Repeatable
    }
}

fn at_top(source: SourceType) -> Sort
    ensures { result ≡ at_top source }
{
    match source {
        SourceType::Module => Sort::Lexical,
        _ => Sort::Hoisted,
    }
}

// What the scope of a node of this kind seeks among its children.
fn sought_by(context: &Context<'_>, kind: &NodeKind) -> Sought
    ensures { result ≡ sought_by context.now kind.now }
{
    match kind {
        NodeKind::Program(source) => Sought::Scope(at_top(*source)),
        NodeKind::Function { .. } => Sought::FunctionScope,
        NodeKind::StaticBlock => Sought::Scope(Sort::Hoisted),
        NodeKind::BlockStatement | NodeKind::Cases => {
            Sought::Scope(functions_in(context.strict()))
        }
        NodeKind::ForStatement | NodeKind::ForInStatement | NodeKind::ForOfStatement => {
            Sought::Scope(Sort::Lexical)
        }
        NodeKind::CatchClause => Sought::CatchScope(functions_in(context.strict())),
        _ => Sought::Nothing,
    }
}

/// The names that the scope of a node declares; none where it has no scope.
pub(crate) fn declared_by<'a>(
    alloc: Global,
    context: &Context<'_>,
    place: u32,
    node: &'a Node,
) -> Result<Vec<Declared<'a>>, AllocError>
    requires fits { place + node_count (forest_of node.now) < 2 ^ 32 }
    ensures { IfOk result (λ v. v.items ≡ declared_by context.now node.now.kind place node.now.below) }
{
    let mut found = Vec::new(alloc);
    match sought_by(context, node.kind()) {
        Sought::Nothing => {}
        sought => {
            let first = place + count_of_kind(node.kind());
            add_declared(sought, first, node.children(), &mut found)?;
        }
    }
    Ok(found)
}

fn may_repeat_parameters(context: &Context<'_>, node: &Node) -> bool
    ensures { result ≡ may_repeat_parameters context.now node.now.kind node.now.below }
{
    match node.kind() {
        NodeKind::Function { kind, .. } => {
            !(context.strict()
                || is_strict_function(node.children())
                || matches!(kind, FunctionKind::Arrow)
                || context.is_method())
                && have_plain_parameters(node.children())
        }
        _ => false,
    }
}

/// The breaks of the rules on names of one scope (ECMA-262 14.2.1, 15.1.1, 14.15.1): that a lexical name
/// is declared once, that a parameter comes once, and that no variable is a parameter of a catch.
pub(crate) fn scope_breaks(
    alloc: Global,
    context: &Context<'_>,
    place: u32,
    node: &Node,
) -> Result<Clashes, AllocError>
    requires fits { place + node_count (forest_of node.now) < 2 ^ 32 }
    ensures rule_1 { IfOk result (λ c. c.lexical ≡ least (rule_1 context.now node.now.kind place node.now.below)) }
    ensures rule_2 { IfOk result (λ c. c.parameters ≡ least (rule_2 context.now node.now.kind place node.now.below)) }
    ensures rule_9 { IfOk result (λ c. c.variables ≡ least (rule_9 context.now node.now.kind place node.now.below)) }
{
    let found = declared_by(alloc, context, place, node)?;
    let all = first_clashes(alloc, found.as_slice())?;
    if may_repeat_parameters(context, node) {
        return Ok(Clashes {
            parameters: None,
            ..all
        });
    }
    Ok(all)
}
