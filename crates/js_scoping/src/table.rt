// The table of a program.
ghost use Rattle.std.specs.Prelude.{◌≡◌, ◌^◌, ◌<◌, IfOk, IfErr, is_some};
ghost use Rattle.std.specs.List.{count_by};
ghost use Rattle.js_syntax.specs.Node.{forest_of};
ghost use Rattle.js_tree.specs.Count.{node_count};
ghost use Rattle.scope_rules.specs.Binding.{resolved_references};
ghost use Rattle.scope_rules.specs.Table.{symbols_declared};
ghost use Rattle.scope_laws.specs.Exact.{Exact};
ghost use Rattle.scope_match.specs.Matches.{Matches};
ghost use Rattle.js_scoping.specs.Build.{found_of, table_of, numbered};

use js_tree::Program;
use scope_table::{Scoped, Scoping, table};
use scope_walk::{find_sites, mark_nodes};
use std::alloc::{AllocError, Global};

// The table, and the symbols of the declarations.
fn scoped(alloc: Global, program: &Program) -> Result<Scoped, AllocError>
    requires small { node_count (forest_of program.now) < 2 ^ 32 }
    ensures scoping { IfOk result (λ s. s.scoping ≡ table_of (forest_of program.now)) }
    ensures symbols { IfOk result (λ s. s.symbols.items ≡ symbols_declared (found_of (forest_of program.now)).bindings) }
    ensures resolved { IfOk result (λ s. count_by (λ r. is_some r.symbol) s.scoping.references ≡ resolved_references (forest_of program.now)) }
{
    let found = find_sites(alloc, program)?;
    table(alloc, &found)
}

/// The scopes, symbols and references of a program, whose nodes are marked with their numbers: a node that
/// makes a scope with the scope's, a reference with its own, a name that is declared with its symbol's.
/// After an error the program is as it was. The recursion goes as deep as the tree.
pub fn build(alloc: Global, program: &mut Program) -> Result<Scoping, AllocError>
    requires small { node_count (forest_of program.old) < 2 ^ 32 }
    ensures scoping { IfOk result (λ s. s ≡ table_of (forest_of program.old)) }
    ensures marked { IfOk result (λ _. forest_of program.new ≡ numbered (forest_of program.old)) }
    ensures exact { IfOk result (λ s. Exact s (forest_of program.new)) }
    ensures matches { IfOk result (λ s. Matches s (forest_of program.new)) }
    ensures resolved { IfOk result (λ s. count_by (λ r. is_some r.symbol) s.references ≡ resolved_references (forest_of program.old)) }
    ensures unchanged { IfErr result (λ _. program.new ≡ program.old) }
{
    let Scoped { scoping, symbols } = scoped(alloc, program)?;
    mark_nodes(alloc, program, symbols.as_slice());
    Ok(scoping)
}
