// The run of a module (ECMA-262 16.2.1.6.5).
ghost use Rattle.std.specs.Prelude.{◌≡◌, [], IfOk};
ghost use Rattle.js_syntax.specs.Node.{row, forest_of, node, nowhere};
ghost use Rattle.js_syntax.specs.declared.node_kind.NodeKind.{NodeKind as Kind};
ghost use Rattle.js_meaning.specs.State.{bind, seq};
ghost use Rattle.js_meaning.specs.Scope.{declare, module_decls, start};
ghost use Rattle.js_meaning.specs.Node.{run, each};
ghost use Rattle.js_meaning.specs.Module.{exporting, load_all, distinct, requests};
ghost use Rattle.js_meaning.specs.Meaning.{eval};
ghost use Rattle.js_meaning.specs.Host.{Enter};
ghost use Rattle.js_meaning.specs.Run.{finish, module_does, program_does};
ghost use Rattle.run_world.specs.World.{at};
ghost use Rattle.run_plan.specs.Frame.{plans};
ghost use Rattle.run_core.specs.Body.{module_body};

use js_syntax::{NodeKind, SourceType};
use js_tree::{Node, Program};
use run_names::requests;
use run_plan::{
    AfterCompletion, AfterNormal, Front, Labels, Nodes, Plan, first_field, then_completion,
    then_normal, uncovered,
};
use run_scope::enter_module;
use run_statement::load_all;
use run_value::Env;
use run_world::World;
use std::alloc::{AllocError, Global};

fn load_requests<'a>(
    world: &mut World<'a>,
    alloc: Global,
    nodes: &'a [Option<Node>],
) -> Result<Plan<'a>, AllocError>
    ensures does { IfOk result (λ p. (E : Enter) → at world.old (load_all E (distinct (requests (row nodes.now)))) ≡ at world.new (plans E p)) }
{
    let sources = requests(alloc, nodes)?;
    load_all(world, alloc, sources)
}

// The requests of a module, and then its body.
fn load_and_run<'a>(
    world: &mut World<'a>,
    alloc: Global,
    nodes: &'a [Option<Node>],
    env: Env<'a>,
) -> Result<Plan<'a>, AllocError>
    ensures does { IfOk result (λ p. (E : Enter) → at world.old (seq (load_all E (distinct (requests (row nodes.now)))) (each (run []) (eval E (row nodes.now)) env.entry)) ≡ at world.new (plans E p)) }
{
    let plan = load_requests(world, alloc, nodes)?;
    then_normal(
        alloc,
        plan,
        AfterNormal::Each(Labels::none(), Nodes::new(nodes), env),
    )
}

fn run_module<'a>(
    world: &mut World<'a>,
    alloc: Global,
    nodes: &'a [Option<Node>],
) -> Result<Plan<'a>, AllocError>
    ensures does { IfOk result (λ p. (E : Enter) → at world.old (declare (module_decls (row nodes.now)) [] (λ env. exporting (row nodes.now) env (start (row nodes.now) env (seq (load_all E (distinct (requests (row nodes.now)))) (each (run []) (eval E (row nodes.now)) env))))) ≡ at world.new (plans E p)) }
{
    let env = enter_module(world, alloc, nodes)?;
    match env {
        Some(env) => load_and_run(world, alloc, nodes, env),
        None => uncovered(alloc),
    }
}

// A module up to where the host sees that it is done.
fn finish_module<'a>(
    world: &mut World<'a>,
    alloc: Global,
    nodes: &'a [Option<Node>],
) -> Result<Plan<'a>, AllocError>
    ensures does { IfOk result (λ p. (E : Enter) → at world.old (bind (declare (module_decls (row nodes.now)) [] (λ env. exporting (row nodes.now) env (start (row nodes.now) env (seq (load_all E (distinct (requests (row nodes.now)))) (each (run []) (eval E (row nodes.now)) env))))) (finish E)) ≡ at world.new (plans E p)) }
{
    let plan = run_module(world, alloc, nodes)?;
    then_completion(alloc, plan, AfterCompletion::Finish)
}

// A module: its functions are there first, then its requests are made, then its body runs.
#[tactic(auto, unfolding(js_meaning::specs::Run::module_does))]
fn do_module<'a>(
    world: &mut World<'a>,
    alloc: Global,
    nodes: &'a [Option<Node>],
) -> Result<Plan<'a>, AllocError>
    ensures does { IfOk result (λ p. (E : Enter) → at world.old (module_does E (row nodes.now)) ≡ at world.new (plans E p)) }
{
    let plan = finish_module(world, alloc, nodes)?;
    then_completion(alloc, plan, AfterCompletion::Finally)
}

// Statements with this below them, where nothing stands beside them.
fn do_alone<'a>(
    world: &mut World<'a>,
    alloc: Global,
    nodes: &'a [Option<Node>],
    others: &'a [Option<Node>],
) -> Result<Plan<'a>, AllocError>
    ensures does { IfOk result (λ p. (E : Enter) → at world.old (module_body E (node Kind.Statements nowhere (row nodes.now) (row others.now))) ≡ at world.new (plans E p)) }
{
    match first_field(others) {
        Front::End => do_module(world, alloc, nodes),
        Front::Node(_, _) => uncovered(alloc),
        Front::Absent(_) => uncovered(alloc),
    }
}

fn do_list<'a>(
    world: &mut World<'a>,
    alloc: Global,
    list: &'a Node,
    others: &'a [Option<Node>],
) -> Result<Plan<'a>, AllocError>
    ensures does { IfOk result (λ p. (E : Enter) → at world.old (module_body E (node list.now.kind nowhere list.now.below (row others.now))) ≡ at world.new (plans E p)) }
{
    match list.kind() {
        NodeKind::Statements => do_alone(world, alloc, list.children(), others),
        _ => uncovered(alloc),
    }
}

fn do_statements<'a>(
    world: &mut World<'a>,
    alloc: Global,
    nodes: &'a [Option<Node>],
) -> Result<Plan<'a>, AllocError>
    ensures does { IfOk result (λ p. (E : Enter) → at world.old (module_body E (row nodes.now)) ≡ at world.new (plans E p)) }
{
    match first_field(nodes) {
        Front::Node(list, others) => do_list(world, alloc, list, others),
        Front::Absent(_) => uncovered(alloc),
        Front::End => uncovered(alloc),
    }
}

/// A program: only modules have runs.
#[tactic(auto, using(crate::proofs::Below::module_below))]
pub fn enter_program<'a>(
    world: &mut World<'a>,
    alloc: Global,
    program: &'a Program,
) -> Result<Plan<'a>, AllocError>
    ensures does { IfOk result (λ p. (E : Enter) → at world.old (program_does E (forest_of program.now)) ≡ at world.new (plans E p)) }
{
    let root = program.root();
    match root.kind() {
        NodeKind::Program(SourceType::Module) => do_statements(world, alloc, root.children()),
        _ => uncovered(alloc),
    }
}
