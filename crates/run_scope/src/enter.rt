// Declaration instantiation (ECMA-262 10.2.11, 14.2.3, 14.7.4.4, 14.15.2, 15.2.5, 16.2.1.6.4).
ghost use Rattle.std.specs.Prelude.{◌≡◌, false, [], IfOk, if◌then◌else◌};
ghost use Rattle.js_syntax.specs.Node.{row};
ghost use Rattle.js_meaning.specs.Value.{Env};
ghost use Rattle.js_meaning.specs.State.{M, unknown};
ghost use Rattle.js_meaning.specs.Scope.{scope, declare, start, copy, lexical, first_of, all_so, waiting, bound_names, function_decls, module_decls};
ghost use Rattle.js_meaning.specs.Expression.{function_value, fill_own};
ghost use Rattle.js_meaning.specs.Meaning.{take_this};
ghost use Rattle.js_meaning.specs.Module.{exporting};
ghost use Rattle.run_names.specs.Held.{maybe_held};
ghost use Rattle.run_value.specs.View.{value_of};
ghost use Rattle.run_world.specs.World.{at, replies};
ghost use Rattle.run_scope.specs.Entered.{with_env};

use crate::exports::export_names;
use js_syntax::FunctionKind;
use js_tree::Node;
use run_names::{
    Way, first_of, function_decls, lexical, module_decls, named_so, own_name, waiting_names,
};
use run_value::{Env, Value};
use run_world::{Reply, World, gives, unknown};
use std::alloc::{AllocError, Global};

/// A block, or the cases of a switch: its names, and the values of its functions.
pub fn enter_block<'a>(
    world: &mut World<'a>,
    alloc: Global,
    nodes: &'a [Option<Node>],
    env: Env<'a>,
) -> Result<Option<Env<'a>>, AllocError>
    ensures does { IfOk result (λ e. (k : Env → M) → at world.old (scope (row nodes.now) env.entry k) ≡ at world.new (with_env e k)) }
{
    let decls = lexical(alloc, nodes)?;
    let env = world.declare(alloc, decls.as_slice(), env)?;
    if world.start(nodes, &env)? {
        Ok(Some(env))
    } else {
        Ok(None)
    }
}

/// The names that a `for` declares, by the row below its node.
pub fn declare_loop_names<'a>(
    world: &mut World<'a>,
    alloc: Global,
    nodes: &'a [Option<Node>],
    env: Env<'a>,
) -> Result<Env<'a>, AllocError>
    ensures does { IfOk result (λ e. (k : Env → M) → at world.old (declare (lexical (first_of (row nodes.now))) env.entry k) ≡ at world.new (k e)) }
{
    let decls = lexical(alloc, first_of(nodes))?;
    let env = world.declare(alloc, decls.as_slice(), env)?;
    Ok(env)
}

/// Cells of their own for the names that a `for` declares, with the values of those before.
pub fn copy_loop_names<'a>(
    world: &mut World<'a>,
    alloc: Global,
    nodes: &'a [Option<Node>],
    env: Env<'a>,
) -> Result<Env<'a>, AllocError>
    ensures does { IfOk result (λ e. (k : Env → M) → at world.old (copy (lexical (first_of (row nodes.now))) env.entry k) ≡ at world.new (k e)) }
{
    let decls = lexical(alloc, first_of(nodes))?;
    let env = world.copy(alloc, decls.as_slice(), env)?;
    Ok(env)
}

/// The names of a catch clause's parameter, by the row below the clause.
pub fn enter_catch<'a>(
    world: &mut World<'a>,
    alloc: Global,
    nodes: &'a [Option<Node>],
    env: Env<'a>,
) -> Result<Env<'a>, AllocError>
    ensures does { IfOk result (λ e. (k : Env → M) → at world.old (declare (all_so (waiting false) (bound_names (first_of (row nodes.now)))) env.entry k) ≡ at world.new (k e)) }
{
    let decls = waiting_names(alloc, false, first_of(nodes))?;
    let env = world.declare(alloc, decls.as_slice(), env)?;
    Ok(env)
}

// Arrows have no `this` of their own (10.2.1.1): false where nothing is said of what follows.
fn take_this<'a>(
    world: &mut World<'a>,
    kind: FunctionKind,
    this: Value<'a>,
    env: &Env<'a>,
) -> Result<bool, AllocError>
    ensures does { IfOk result (λ b. (m : M) → at world.old (take_this kind (value_of this.entry) env.now m) ≡ at world.new (if b then m else unknown)) }
{
    match kind {
        FunctionKind::Arrow => Ok(true),
        _ => world.fill(env.look("this"), this),
    }
}

/// A function's entry, by the row below its node: its names, and its receiver.
pub fn enter_function<'a>(
    world: &mut World<'a>,
    alloc: Global,
    kind: FunctionKind,
    below: &'a [Option<Node>],
    env: Env<'a>,
    this: Value<'a>,
) -> Result<Option<Env<'a>>, AllocError>
    ensures does { IfOk result (λ e. (k : Env → M) → at world.old (declare (function_decls kind (row below.now)) env.entry (λ env. take_this kind (value_of this.entry) env (k env))) ≡ at world.new (with_env e k)) }
{
    let decls = function_decls(alloc, kind, below)?;
    let env = world.declare(alloc, decls.as_slice(), env)?;
    if take_this(world, kind, this, &env)? {
        Ok(Some(env))
    } else {
        Ok(None)
    }
}

// Gives a function expression's own name its value: false where nothing is said of what follows.
fn fill_own<'a>(
    world: &mut World<'a>,
    name: Option<&'a str>,
    env: &Env<'a>,
    value: &Value<'a>,
) -> Result<bool, AllocError>
    ensures does { IfOk result (λ b. (m : M) → at world.old (fill_own (maybe_held name.entry) env.now (value_of value.now) m) ≡ at world.new (if b then m else unknown)) }
{
    match name {
        Some(name) => {
            let value = value.copy()?;
            world.fill(env.look(name), value)
        }
        None => Ok(true),
    }
}

/// The value of a function expression or an arrow, by the row below its node.
pub fn make_function<'a>(
    world: &mut World<'a>,
    alloc: Global,
    kind: FunctionKind,
    below: &'a [Option<Node>],
    env: Env<'a>,
) -> Result<Reply<'a>, AllocError>
    ensures does { IfOk result (λ r. at world.old (function_value kind (row below.now) env.entry) ≡ at world.new (replies r)) }
{
    let name = own_name(kind, below);
    let decls = named_so(alloc, Way::Waiting(true), name)?;
    let env = world.declare(alloc, decls.as_slice(), env)?;
    let number = world.identity()?;
    let around = env.copy()?;
    let value = Value::Closure(number, kind, below, around);
    if fill_own(world, name, &env, &value)? {
        Ok(gives(value))
    } else {
        Ok(unknown())
    }
}

/// A module's entry, by the row below its root: its names, its exports, and the values of its functions.
pub fn enter_module<'a>(
    world: &mut World<'a>,
    alloc: Global,
    nodes: &'a [Option<Node>],
) -> Result<Option<Env<'a>>, AllocError>
    ensures does { IfOk result (λ e. (k : Env → M) → at world.old (declare (module_decls (row nodes.now)) [] (λ env. exporting (row nodes.now) env (start (row nodes.now) env (k env)))) ≡ at world.new (with_env e k)) }
{
    let decls = module_decls(alloc, nodes)?;
    let env = Env::new(alloc)?;
    let env = world.declare(alloc, decls.as_slice(), env)?;
    if export_names(world, alloc, nodes, &env)? {
        if world.start(nodes, &env)? {
            Ok(Some(env))
        } else {
            Ok(None)
        }
    } else {
        Ok(None)
    }
}
