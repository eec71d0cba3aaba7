// What is known of the program and of a place in it.
ghost use Rattle.std.specs.Prelude.{◌≡◌, ◌==◌, length};
ghost use Rattle.scope_rules.specs.ScopeFlags as scope_flag;
ghost use Rattle.scope_table.specs.Reading.{scope_at, symbol_at};
ghost use Rattle.steps.specs.Marked.Flags.{scope_has, is_sloppy_block};
ghost use Rattle.rules.specs.DeadCode.Rules.{where_of, surroundings_of, has_with, is_field_of_with, has_class, is_field_of_class};

use bitflags::Flags;
use js_effects::Surroundings;
use js_syntax::{ScopeId, SymbolId};
use min_context::{Ancestor, MinifierTraverseCtx, Parent};
use scope_table::{ScopeFlags, Scoping};
use std::marker::Model;

/// What is known of the program, and what is kept of it.
#[derive(Drop)]
pub(crate) struct Facts<'a> {
    pub(crate) scoping: &'a Scoping,
    pub(crate) bound: &'a [bool],
    pub(crate) exported: &'a [bool],
    pub(crate) is_script: bool,
    pub(crate) keeps_unused: bool,
    pub(crate) keeps_imports: bool,
}

impl<'a> Model for Facts<'a> {
    ghost use Rattle.rules.specs.DeadCode.Rules.{Facts};

    ghost Value = { Facts };

    ghost view = { λ f. record { scoping = f.scoping.now; bound = f.bound.now; exported = f.exported.now; is_script = f.is_script; keeps_unused = f.keeps_unused; keeps_imports = f.keeps_imports } };
}

/// What is known of a place.
#[derive(Clone, Copy)]
pub(crate) struct Where {
    pub(crate) scope: u32,
    pub(crate) hoist_scope: u32,
    pub(crate) in_with: bool,
    pub(crate) in_class: bool,
}

impl Model for Where {
    ghost use Rattle.rules.specs.DeadCode.Rules.{Where};

    ghost Value = { Where };

    ghost view = { λ w. record { scope = w.scope; hoist_scope = w.hoist_scope; in_with = w.in_with; in_class = w.in_class } };

    ghost inverse = { λ w. record { scope = w.scope; hoist_scope = w.hoist_scope; in_with = w.in_with; in_class = w.in_class } };
}

fn is_field_of_with(ancestor: Ancestor) -> bool
    ensures { result ≡ is_field_of_with ancestor }
{
    match ancestor {
        Ancestor::Field(parent, _) => matches!(parent, Parent::WithStatement),
        Ancestor::None => false,
    }
}

fn has_with(above: &[Ancestor]) -> bool
    ensures { result ≡ has_with above.now }
{
    for ancestor in above {
        if is_field_of_with(*ancestor) {
            return true;
        }
    }
    false
}

fn is_field_of_class(ancestor: Ancestor) -> bool
    ensures { result ≡ is_field_of_class ancestor }
{
    match ancestor {
        Ancestor::Field(parent, _) => matches!(parent, Parent::Class(_)),
        Ancestor::None => false,
    }
}

fn has_class(above: &[Ancestor]) -> bool
    ensures { result ≡ has_class above.now }
{
    for ancestor in above {
        if is_field_of_class(*ancestor) {
            return true;
        }
    }
    false
}

impl Where {
    // Where the walk is.
    pub(crate) fn of(ctx: &MinifierTraverseCtx) -> Where
        ensures { result ≡ where_of ctx.now.place }
    {
        let scopes = ctx.current_scopes();
        Where {
            scope: scopes.scope,
            hoist_scope: scopes.hoist_scope,
            in_with: has_with(ctx.ancestors_above()),
            in_class: has_class(ctx.ancestors_above()),
        }
    }

    // What stands around there.
    pub(crate) fn surroundings(self) -> Surroundings
        ensures { result ≡ surroundings_of self }
    {
        Surroundings {
            in_with: self.in_with,
            in_class: self.in_class,
        }
    }
}

// The flags of a scope; none, past the last.
fn flags_at(scoping: &Scoping, scope: u32) -> ScopeFlags
    ensures { result.0 ≡ (scope_at scoping.now scope).flags }
{
    if (scope as usize) < scoping.scopes_len() {
        scoping.scope_flags(ScopeId(scope))
    } else {
        ScopeFlags::from_bits_retain(0)
    }
}

pub(crate) fn sees_eval(scoping: &Scoping, scope: u32) -> bool
    ensures { result ≡ scope_has scoping.now scope scope_flag.direct_eval }
{
    flags_at(scoping, scope).contains(ScopeFlags::DirectEval)
}

fn is_strict(scoping: &Scoping, scope: u32) -> bool
    ensures { result ≡ scope_has scoping.now scope scope_flag.strict_mode }
{
    flags_at(scoping, scope).contains(ScopeFlags::StrictMode)
}

fn is_top(scoping: &Scoping, scope: u32) -> bool
    ensures { result ≡ scope_has scoping.now scope scope_flag.top }
{
    flags_at(scoping, scope).contains(ScopeFlags::Top)
}

fn is_function(scoping: &Scoping, scope: u32) -> bool
    ensures { result ≡ scope_has scoping.now scope scope_flag.function }
{
    flags_at(scoping, scope).contains(ScopeFlags::Function)
}

fn is_static_block(scoping: &Scoping, scope: u32) -> bool
    ensures { result ≡ scope_has scoping.now scope scope_flag.class_static_block }
{
    flags_at(scoping, scope).contains(ScopeFlags::ClassStaticBlock)
}

pub(crate) fn is_sloppy_block(scoping: &Scoping, scope: u32) -> bool
    ensures { result ≡ is_sloppy_block scoping.now scope }
{
    !(is_strict(scoping, scope)
        || is_top(scoping, scope)
        || is_function(scoping, scope)
        || is_static_block(scoping, scope))
}

// Whether nothing refers to a symbol, as to one past the last.
pub(crate) fn is_unlisted(scoping: &Scoping, symbol: u32) -> bool
    ensures { result ≡ (length (symbol_at scoping.now symbol).references == 0) }
{
    if (symbol as usize) < scoping.symbols_len() {
        scoping.symbol_is_unused(SymbolId(symbol))
    } else {
        true
    }
}
