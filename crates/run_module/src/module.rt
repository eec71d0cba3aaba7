// From bytes to the text of a run.
ghost use Rattle.std.specs.Prelude.{◌≡◌, Ok, IfOk, IfErr, string_bytes};
ghost use Rattle.serde_json.specs.View.{view};
ghost use Rattle.json_value.specs.View.{view as view_of};
ghost use Rattle.js_syntax.specs.Node.{forest_of};
ghost use Rattle.run_module.specs.Running.{HasProgram, HasRuns, IsRunOf, IsJson};
ghost use Rattle.run_module.specs.Answer.{Fails, IsCauseOf, script_fault};

use crate::error::RunError;
use js_tree::Program;
use json_read::{TreeError, read_program};
use json_value::{Scratch, ValueError, read_value};
use min_driver::check;
use run_core::run;
use run_covered::first_outside;
use run_script::{Field, ScriptError, read_script};
use run_text::write_trace;
use serde_json::{Category, Value};
use std::alloc::Global;

// The program that the value has.
fn program_in(alloc: Global, value: &json_value::Value<'_>) -> Result<Program, RunError>
    ensures ok { IfOk result (λ p. HasProgram (view_of value.now) (Ok (forest_of p))) }
    ensures err { IfErr result (λ e. Fails e (view_of value.now)) }
{
    match value.get("program") {
        Some(member) => match read_program(alloc, member) {
            Ok(program) => Ok(program),
            Err(error) => Err(RunError::Tree(error)),
        },
        None => Err(RunError::Bad {
            field: Field::Program,
        }),
    }
}

// The program that the value of the bytes has. Its texts are borrowed while it is read.
fn program(alloc: Global, bytes: &[u8]) -> Result<Program, RunError>
    ensures ok { IfOk result (λ p. (d : _) × IsJson bytes.now d × HasProgram d (Ok (forest_of p))) }
    ensures err { IfErr result (λ e. IsCauseOf e bytes.now) }
{
    let mut scratch = Scratch::new(alloc);
    match read_value(alloc, bytes, &mut scratch) {
        Ok(value) => program_in(alloc, &value),
        Err(ValueError::OutOfMemory) => Err(RunError::OutOfMemory),
        Err(ValueError::Syntax) => Err(RunError::Tree(TreeError::Syntax)),
    }
}

// Whether runs are defined for a program that the value has.
fn accept(alloc: Global, value: &Value, program: &Program) -> Result<(), RunError>
    requires read { HasProgram (view value.now) (Ok (forest_of program.now)) }
    ensures ok { IfOk result (λ _. HasRuns (forest_of program.now)) }
    ensures err { IfErr result (λ e. Fails e (view value.now)) }
{
    match check(alloc, program) {
        Ok(()) => match first_outside(program) {
            Some(place) => Err(RunError::NotCore { place }),
            None => Ok(()),
        },
        Err(error) => Err(RunError::Refused(error)),
    }
}

// The fault of a script, as one of the whole.
fn script_fault(error: ScriptError) -> RunError
    ensures { result ≡ script_fault error }
{
    match error {
        ScriptError::Bad { field } => RunError::Bad { field },
        ScriptError::OutOfMemory => RunError::OutOfMemory,
    }
}

// The text of the run of a program that the value has.
fn trace(alloc: Global, value: &Value, program: &Program) -> Result<String, RunError>
    requires read { HasProgram (view value.now) (Ok (forest_of program.now)) }
    requires runs { HasRuns (forest_of program.now) }
    ensures ok { IfOk result (λ s. IsRunOf (view value.now) (string_bytes s)) }
    ensures err { IfErr result (λ e. Fails e (view value.now)) }
{
    match read_script(alloc, value) {
        Ok(input) => {
            let trace = run(alloc, program, &input.script, input.bound)?;
            let text = write_trace(alloc, &trace)?;
            Ok(text)
        }
        Err(error) => Err(script_fault(error)),
    }
}

// The text of the run that a value asks for, of which this is the program.
fn trace_of_value(alloc: Global, value: &Value, program: &Program) -> Result<String, RunError>
    requires read { HasProgram (view value.now) (Ok (forest_of program.now)) }
    ensures ok { IfOk result (λ s. IsRunOf (view value.now) (string_bytes s)) }
    ensures err { IfErr result (λ e. Fails e (view value.now)) }
{
    accept(alloc, value, program)?;
    trace(alloc, value, program)
}

// The text of the run that bytes ask for, of which this is the program.
fn trace_of_bytes(alloc: Global, bytes: &[u8], program: &Program) -> Result<String, RunError>
    requires read { (d : _) × IsJson bytes.now d × HasProgram d (Ok (forest_of program.now)) }
    ensures ok { IfOk result (λ s. (d : _) × IsJson bytes.now d × IsRunOf d (string_bytes s)) }
    ensures err { IfErr result (λ e. IsCauseOf e bytes.now) }
{
    match Value::from_slice(alloc, bytes) {
        Ok(value) => trace_of_value(alloc, &value, program),
        Err(error) if error.classify() == Category::Memory => Err(RunError::OutOfMemory),
        Err(_) => Err(RunError::Tree(TreeError::Syntax)),
    }
}

/// The text of the run that bytes ask for, as JSON: `{"n":N,"program":TREE,"script":{"globals":[..],"moves":[..]}}`.
/// A line of JSON for each event, in the order in which they happen, and one for the ending. It runs at most `n`
/// entries of calls and loops.
pub fn run_text(alloc: Global, bytes: &[u8]) -> Result<String, RunError>
    ensures ok { IfOk result (λ s. (d : _) × IsJson bytes.now d × IsRunOf d (string_bytes s)) }
    ensures err { IfErr result (λ e. IsCauseOf e bytes.now) }
{
    let program = program(alloc, bytes)?;
    trace_of_bytes(alloc, bytes, &program)
}
