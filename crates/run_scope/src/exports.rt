// The exports of a module (ECMA-262 16.2.3), in the order of their names' bytes.
ghost use Rattle.std.specs.Prelude.{◌≡◌, ◌∷◌, List, IfOk, OnOk, if◌then◌else◌};
ghost use Rattle.js_syntax.specs.Node.{row};
ghost use Rattle.js_meaning.specs.State as state;
ghost use Rattle.js_meaning.specs.State.{M, unknown};
ghost use Rattle.js_meaning.specs.Module.{before, insert, sorted, resolve_entries, exporting};
ghost use Rattle.run_names.specs.Export.{entries_held};
ghost use Rattle.run_world.specs.World.{at, export_of};
ghost use Rattle.run_scope.specs.Entered.{exports_held, with_exports_held};

use js_tree::Node;
use run_names::{Entry, entries, stars};
use run_value::{Env, Slot};
use run_world::{Export, World};
use std::alloc::{AllocError, Global};

fn put_first<T: Drop>(items: &mut Vec<T>, first: T) -> Result<(), AllocError>
    ensures put { OnOk result (items.new.items ≡ first ∷ items.old.items) }
{
    items.insert(0, first)?;
    Ok(())
}

// Whether a text comes before another in the order of bytes.
fn before(text: &[u8], other: &[u8]) -> bool
    ensures { result ≡ before text.now other.now }
{
    match other {
        [next, others @ ..] => match text {
            [first, texts @ ..] => {
                if *first == *next {
                    before(texts, others)
                } else {
                    *first < *next
                }
            }
            [] => true,
        },
        [] => false,
    }
}

fn copy_all<'a>(alloc: Global, exports: &[Export<'a>]) -> Result<Vec<Export<'a>>, AllocError>
    ensures { IfOk result (λ v. v.items ≡ exports.now) }
{
    let mut copies = Vec::new(alloc);
    for export in exports {
        copies.push(*export)?;
    }
    Ok(copies)
}

// An export among others that are sorted.
fn insert<'a>(
    alloc: Global,
    export: Export<'a>,
    others: &[Export<'a>],
) -> Result<Vec<Export<'a>>, AllocError>
    ensures { IfOk result (λ v. exports_held v.items ≡ insert (export_of export.entry) (exports_held others.now)) }
{
    match others {
        [first, rest @ ..] => {
            if before(first.name.as_bytes(), export.name.as_bytes()) {
                let mut all = insert(alloc, export, rest)?;
                put_first(&mut all, *first)?;
                Ok(all)
            } else {
                let mut all = copy_all(alloc, others)?;
                put_first(&mut all, export)?;
                Ok(all)
            }
        }
        [] => {
            let mut all = Vec::new(alloc);
            all.push(export)?;
            Ok(all)
        }
    }
}

fn sorted<'a>(alloc: Global, exports: &[Export<'a>]) -> Result<Vec<Export<'a>>, AllocError>
    ensures { IfOk result (λ v. exports_held v.items ≡ sorted (exports_held exports.now)) }
{
    match exports {
        [first, others @ ..] => {
            let others = sorted(alloc, others)?;
            insert(alloc, *first, others.as_slice())
        }
        [] => Ok(Vec::new(alloc)),
    }
}

fn in_front<'a>(
    export: Export<'a>,
    others: Option<Vec<Export<'a>>>,
) -> Result<Option<Vec<Export<'a>>>, AllocError>
    ensures { IfOk result (λ o. (k : List state.Export → M) → with_exports_held others.entry (λ es. k (export_of export.entry ∷ es)) ≡ with_exports_held o k) }
{
    match others {
        Some(others) => {
            let mut all = others;
            put_first(&mut all, export)?;
            Ok(Some(all))
        }
        None => Ok(None),
    }
}

// What the entries are bound to, or `None` where a name is bound to nothing.
#[tactic(auto, unfolding(js_meaning::specs::Module::resolve_entries))]
fn resolve<'a>(
    alloc: Global,
    entries: &[Entry<'a>],
    env: &Env<'a>,
) -> Result<Option<Vec<Export<'a>>>, AllocError>
    ensures { IfOk result (λ o. (k : List state.Export → M) → resolve_entries (entries_held entries.now) env.now k ≡ with_exports_held o k) }
{
    match entries {
        [Entry::Local { exported, local }, others @ ..] => match env.look(local) {
            Some(slot) => {
                let name = *exported;
                let others = resolve(alloc, others, env)?;
                in_front(Export { name, slot }, others)
            }
            None => Ok(None),
        },
        [
            Entry::Import {
                exported,
                source,
                imported,
            },
            others @ ..,
        ] => {
            let slot = Slot::Imported {
                source: *source,
                name: *imported,
            };
            let name = *exported;
            let others = resolve(alloc, others, env)?;
            in_front(Export { name, slot }, others)
        }
        [] => Ok(Some(Vec::new(alloc))),
    }
}

/// Keeps what a module exports, by the row below its root and its environment: false where a name that is
/// exported is bound to nothing.
pub fn export_names<'a>(
    world: &mut World<'a>,
    alloc: Global,
    nodes: &'a [Option<Node>],
    env: &Env<'a>,
) -> Result<bool, AllocError>
    ensures does { IfOk result (λ b. (m : M) → at world.old (exporting (row nodes.now) env.now m) ≡ at world.new (if b then m else unknown)) }
{
    let entries = entries(alloc, nodes)?;
    let exports = resolve(alloc, entries.as_slice(), env)?;
    match exports {
        Some(exports) => {
            let exports = sorted(alloc, exports.as_slice())?;
            let stars = stars(alloc, nodes)?;
            world.set_exports(exports, stars);
            Ok(true)
        }
        None => Ok(false),
    }
}
