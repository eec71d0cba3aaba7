// A run over a program: empty statements leave its lists, and then one pass follows another.
ghost use Rattle.std.specs.Prelude.{◌≡◌, ◌<◌, ◌^◌, IfOk};
ghost use Rattle.js_syntax.specs.Class.{root};
ghost use Rattle.js_syntax.specs.Node.{forest_of};
ghost use Rattle.js_tree.specs.Count.{node_count};
ghost use Rattle.form_rules.specs.Form.{IsWellFormed};
ghost use Rattle.js_scoping.specs.Build.{numbered};
ghost use Rattle.json_shape.specs.Shape.{Fits};
ghost use Rattle.steps.specs.Allowed.Exposure.{is_script, is_script_source};
ghost use Rattle.min_context.specs.declared.state.CompressionMode.TheVariants as mode;
ghost use Rattle.min_statements.specs.Walker.{names_of};
ghost use Rattle.min_peephole.specs.Between.{BetweenPasses};
ghost use Rattle.min_peephole.specs.Shaken.{IsShaken, IsMarked, Runs};

use crate::passes::run_passes;
use js_scoping::{Scoping, build};
use js_syntax::{NodeKind, SourceType};
use js_tree::Program;
use min_context::{CompressionMode, MinifierState, ReusableMinifierTraverseCtx};
use min_options::CompressOptions;
use min_pass::clear_program;
use min_statements::Statements;
use std::alloc::{AllocError, Global};

/// What a run leaves of a program.
#[derive(Drop)]
pub struct Shaken {
    /// Its tree, whose nodes are marked with the numbers of their scopes, symbols and references.
    pub program: Program,
    /// The table of these.
    pub scoping: Scoping,
    /// How many passes were followed by another.
    pub iterations: u64,
}

fn source_type_of(program: &Program) -> SourceType
    ensures { is_script_source result ≡ is_script (forest_of program.now) }
{
    match program.root().kind() {
        NodeKind::Program(source_type) => *source_type,
        _ => SourceType::Module,
    }
}

// The context of the first pass over a program that the table was made of.
fn first_context(
    alloc: Global,
    options: CompressOptions,
    program: &Program,
    scoping: Scoping,
) -> Result<ReusableMinifierTraverseCtx, AllocError>
    requires fits { Fits root (forest_of program.now) }
    requires marked { IsMarked (forest_of program.now) scoping }
    ensures between { IfOk result (λ c. BetweenPasses (names_of scoping (forest_of program.now)) c (forest_of program.now)) }
    ensures table { IfOk result (λ c. c.scoping ≡ scoping) }
    ensures options { IfOk result (λ c. c.options ≡ options) }
    ensures mode { IfOk result (λ c. c.mode ≡ mode.TreeShakeOnly) }
{
    let state = MinifierState::new(
        alloc,
        source_type_of(program),
        options,
        CompressionMode::TreeShakeOnly,
        &scoping,
    )?;
    Ok(ReusableMinifierTraverseCtx::new(alloc, state, scoping))
}

// What is handed on: the table is made of what is left, unless nothing left.
fn handed_on(
    alloc: Global,
    program: Program,
    scoping: Scoping,
    iterations: u64,
) -> Result<Shaken, AllocError>
    requires small { node_count (forest_of program) < 2 ^ 32 }
    requires marked { iterations ≡ 0 → IsMarked (forest_of program) scoping }
    ensures marked { IfOk result (λ s. IsMarked (forest_of s.program) s.scoping) }
    ensures numbered { IfOk result (λ s. forest_of s.program ≡ numbered (forest_of program)) }
    ensures iterations { IfOk result (λ s. s.iterations ≡ iterations) }
{
    let mut program = program;
    if iterations == 0 {
        return Ok(Shaken {
            program,
            scoping,
            iterations,
        });
    }
    let scoping = build(alloc, &mut program)?;
    Ok(Shaken {
        program,
        scoping,
        iterations,
    })
}

// Passes over a program that is marked as its table says.
fn settle(
    alloc: Global,
    options: CompressOptions,
    program: Program,
    scoping: Scoping,
) -> Result<Shaken, AllocError>
    requires small { node_count (forest_of program) < 2 ^ 32 }
    requires fits { Fits root (forest_of program) }
    requires marked { IsMarked (forest_of program) scoping }
    ensures runs { IfOk result (λ s. Runs options (forest_of program) (forest_of s.program) s.scoping s.iterations) }
{
    let mut program = program;
    let mut statements = Statements::new(alloc, &scoping, program.root())?;
    let mut ctx = first_context(alloc, options, &program, scoping)?;
    let iterations = run_passes(&mut statements, &mut program, &mut ctx)?;
    handed_on(alloc, program, ctx.into_scoping(), iterations)
}

/// What is left of a program that fits the table of node types and breaks no rule of form: without the empty statements of its lists,
/// behind the first pass that asks for no other. The options `unused` and `treeshake.invalid_import_side_effects` say what is kept that
/// nobody uses. The recursion goes as deep as the tree.
pub fn shake_program(
    alloc: Global,
    options: CompressOptions,
    program: Program,
) -> Result<Shaken, AllocError>
    requires small { node_count (forest_of program) < 2 ^ 32 }
    requires fits { Fits root (forest_of program) }
    requires well_formed { IsWellFormed (forest_of program) }
    ensures shaken { IfOk result (λ s. IsShaken options (forest_of program) (forest_of s.program) s.scoping s.iterations) }
{
    let mut cleared = clear_program(alloc, program)?;
    let scoping = build(alloc, &mut cleared)?;
    settle(alloc, options, cleared, scoping)
}
