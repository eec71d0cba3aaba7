// Which names are unused.
ghost use Rattle.std.specs.Prelude.{◌≡◌};
ghost use Rattle.min_statements.specs.Names.{symbol_of};
ghost use Rattle.rules.specs.DeadCode.Rules as rules;

use crate::facts::{Facts, Where, is_sloppy_block, is_unlisted, sees_eval};
use js_effects::is_marked;
use js_syntax::{NodeKind, VariableKind};
use js_tree::Node;

pub(crate) fn symbol_of(name: &Node) -> Option<u32>
    ensures { result ≡ symbol_of name.now.kind name.now.note }
{
    match name.kind() {
        NodeKind::BindingName(_) => name.id(),
        _ => None,
    }
}

fn is_unused(facts: &Facts, symbol: Option<u32>) -> bool
    ensures { result ≡ rules.is_unlisted facts.now symbol }
{
    match symbol {
        Some(number) => {
            !facts.keeps_unused
                && (is_unlisted(facts.scoping, number) && !is_marked(facts.exported, symbol))
        }
        None => false,
    }
}

fn is_global(facts: &Facts, scope: u32) -> bool
    ensures { result ≡ rules.is_global facts.now scope }
{
    facts.is_script && scope == 0
}

pub(crate) fn function_is_unused(facts: &Facts, at: Where, symbol: Option<u32>) -> bool
    ensures { result ≡ rules.function_is_unused facts.now at symbol }
{
    is_unused(facts, symbol)
        && !(is_global(facts, at.scope)
            || sees_eval(facts.scoping, at.scope)
            || is_sloppy_block(facts.scoping, at.scope))
}

pub(crate) fn variable_is_unused(facts: &Facts, scope: u32, symbol: Option<u32>) -> bool
    ensures { result ≡ rules.variable_is_unused facts.now scope symbol }
{
    is_unused(facts, symbol) && !(is_global(facts, scope) || sees_eval(facts.scoping, 0))
}

pub(crate) fn scope_of(at: Where, how: VariableKind) -> u32
    ensures { result ≡ rules.scope_of at how }
{
    match how {
        VariableKind::Var => at.hoist_scope,
        _ => at.scope,
    }
}
