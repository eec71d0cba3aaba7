// The program, over any source and sinks.
ghost use Rattle.std.specs.Prelude.{◌≡◌, ◌≤◌, ◌⊎◌, ◌+◌, ◌++◌, ℕ, IfOk, IfErr, false, true, map, string_bytes};
ghost use Rattle.js_syntax.specs.Node.{forest_of};
ghost use Rattle.min_driver.specs.Minify.{IsCause};
ghost use Rattle.shake_streams.specs.Past.{StopsAtOnce};
ghost use Rattle.shake_streams.specs.Moves.{HasFailed, Known, SendsFront};
ghost use Rattle.shake_streams.specs.Reading.{IsLonger, LeavesRest};
ghost use Rattle.shake_words.specs.Meaning.{accepts};
ghost use Rattle.shake_words.specs.declared.answer.Command.TheVariants.{Dce};
ghost use Rattle.shake.specs.Line.{Says, status_line};
ghost use Rattle.shake.specs.Fault.{tree_status, minify_status, status_of, IsAnswerTo, refusal_line};
ghost use Rattle.shake.specs.Answer.{IsCauseOf, Answers};
ghost use Rattle.shake.specs.Run.{max_input, WasRead, IsSound, IsDceOutput, IsOutput, IsLineFor, Shakes, ShakesFront, IsRefused, IsLineOf, writes, Completes};
ghost use Rattle.shake.specs.Ran.{Took, Follows, Ran, Tells, IsLineGiven};

use crate::line::{refusal_text, say};
use crate::output::output;
use crate::status::Status;
use js_tree::Program;
use json_read::{TreeError, read_tree};
use min_driver::{CompressOptions, Minifier, MinifierOptions, MinifyError};
use run_module::{RunError, run_text};
use shake_streams::{ReadAllError, Sink, Source, read_all, write_all};
use shake_words::{Command, WordsError, parse};
use std::alloc::{AllocError, Global};

// How many bytes are read at most: 2^28.
const MAX_INPUT: u64 = 268_435_456;

fn out_of_memory<E: Sink>(err: &mut E) -> Status
    ensures answer { result ≡ Status.OutOfMemory }
    ensures line { Says (λ l. l ≡ status_line Status.OutOfMemory) (E.written err.old) (E.written err.new) (E.faults err.old) (E.faults err.new) }
    ensures told { Tells (λ l. l ≡ status_line Status.OutOfMemory) (E.taken err.old) (E.taken err.new) }
    ensures later { E.faults err.old ≤ E.faults err.new }
{
    say(err, "shake: out of memory\n");
    Status::OutOfMemory
}

fn tree_status(error: &TreeError) -> Status
    ensures { result ≡ tree_status error.now }
{
    match error {
        TreeError::Syntax => Status::Syntax,
        TreeError::OutOfMemory => Status::OutOfMemory,
        _ => Status::Tree,
    }
}

fn minify_status(error: MinifyError) -> Status
    ensures { result ≡ minify_status error }
{
    match error {
        MinifyError::TooLarge { .. } => Status::TooLarge,
        MinifyError::IllFormed { .. } => Status::IllFormed,
        MinifyError::OutOfMemory => Status::OutOfMemory,
    }
}

// The answer for what is refused.
fn status_of(error: &RunError) -> Status
    ensures { result ≡ status_of error.now }
{
    match error {
        RunError::Tree(error) => tree_status(error),
        RunError::Refused(error) => minify_status(*error),
        RunError::NotCore { .. } => Status::NotCore,
        RunError::Bad { .. } => Status::BadScript,
        RunError::OutOfMemory => Status::OutOfMemory,
    }
}

// Says why nothing is written for the bytes.
fn refuse<E: Sink>(alloc: Global, error: RunError, err: &mut E) -> Status
    ensures answer { IsAnswerTo error result }
    ensures line { Says (λ l. l ≡ refusal_line error result) (E.written err.old) (E.written err.new) (E.faults err.old) (E.faults err.new) }
    ensures told { Tells (λ l. l ≡ refusal_line error result) (E.taken err.old) (E.taken err.new) }
    ensures later { E.faults err.old ≤ E.faults err.new }
{
    match refusal_text(alloc, &error) {
        Ok(line) => {
            say(err, line.as_str());
            status_of(&error)
        }
        Err(_) => out_of_memory(err),
    }
}

// Sends what is written for a program that is within the limits.
fn send<K: Sink, E: Sink>(text: String, out: &mut K, err: &mut E) -> Status
    ensures sent { result ≡ Status.Ok → Known (λ w. w ++ string_bytes text) (K.written out.old) (K.written out.new) }
    ensures front { result ≡ Status.WriteFault → SendsFront (string_bytes text) (K.written out.old) (K.written out.new) × HasFailed (K.faults out.old) (K.faults out.new) }
    ensures answer { (result ≡ Status.Ok) ⊎ (result ≡ Status.WriteFault) }
    ensures line { Says (λ l. l ≡ status_line result) (E.written err.old) (E.written err.new) (E.faults err.old) (E.faults err.new) }
    ensures took { Took result (string_bytes text) (K.taken out.old) (K.taken out.new) }
    ensures told { Tells (λ l. l ≡ status_line result) (E.taken err.old) (E.taken err.new) }
    ensures out_later { K.faults out.old ≤ K.faults out.new }
    ensures err_later { E.faults err.old ≤ E.faults err.new }
{
    match write_all(out, text.as_bytes()) {
        Ok(()) => Status::Ok,
        Err(_) => {
            say(err, "shake: write fault\n");
            Status::WriteFault
        }
    }
}

// What is written for what is left of a program: its tree, and the line of counts.
fn shaken_text(alloc: Global, tree_only: bool, program: Program) -> Result<String, MinifyError>
    requires read { WasRead (forest_of program) }
    ensures output { IfOk result (λ s. IsDceOutput tree_only (forest_of program) (string_bytes s)) }
    ensures sound { IfOk result (λ _. IsSound (forest_of program)) }
    ensures err { IfErr result (λ e. IsCause e (forest_of program)) }
{
    let options = MinifierOptions {
        compress: Some(CompressOptions::dce(alloc)),
    };
    let (left, done) = Minifier::new(options).dce_fitting(alloc, program)?;
    let references = done.scoping.resolved_count();
    let text = output(alloc, tree_only, &left, done.iterations, references)?;
    Ok(text)
}

// What `dce` writes for the bytes.
fn dce_text(alloc: Global, tree_only: bool, bytes: Vec<u8>) -> Result<String, RunError>
    ensures ok { IfOk result (λ s. IsOutput (Dce tree_only) bytes.items (string_bytes s)) }
    ensures err { IfErr result (λ e. IsCauseOf (Dce tree_only) e bytes.items) }
{
    match read_tree(alloc, bytes.as_slice()) {
        Ok(program) => {
            drop(bytes);
            match shaken_text(alloc, tree_only, program) {
                Ok(text) => Ok(text),
                Err(error) => Err(RunError::Refused(error)),
            }
        }
        Err(error) => Err(RunError::Tree(error)),
    }
}

// What a command writes for the bytes.
fn command_text(alloc: Global, command: Command, bytes: Vec<u8>) -> Result<String, RunError>
    ensures ok { IfOk result (λ s. IsOutput command bytes.items (string_bytes s)) }
    ensures err { IfErr result (λ e. IsCauseOf command e bytes.items) }
{
    match command {
        Command::Dce { tree_only } => dce_text(alloc, tree_only, bytes),
        Command::Run => run_text(alloc, bytes.as_slice()),
    }
}

// Does what the command asks for with the bytes.
fn answer<K: Sink, E: Sink>(
    alloc: Global,
    command: Command,
    bytes: Vec<u8>,
    out: &mut K,
    err: &mut E,
) -> Status
    ensures answer { Answers command result bytes.items (K.written out.old) (K.written out.new) (K.faults out.old) (K.faults out.new) }
    ensures line { Says (IsLineFor command result bytes.items) (E.written err.old) (E.written err.new) (E.faults err.old) (E.faults err.new) }
    ensures follows { Follows command result bytes.items (K.taken out.old) (K.taken out.new) }
    ensures told { Tells (IsLineFor command result bytes.items) (E.taken err.old) (E.taken err.new) }
    ensures out_later { K.faults out.old ≤ K.faults out.new }
    ensures err_later { E.faults err.old ≤ E.faults err.new }
{
    match command_text(alloc, command, bytes) {
        Ok(text) => send(text, out, err),
        Err(error) => refuse(alloc, error, err),
    }
}

/// Runs the program: `shake_words` are the program's name and the words behind it, `source` the input, `out`
/// where the output goes, and `err` where a refusal says its reason, in one line.
///
/// `dce` reads one program as ESTree JSON, tests that it is well formed, takes out what does nothing, and
/// writes the JSON of what is left, a newline, `passes P references R` and a newline; with
/// `--tree-only` it leaves the last line out. `run` reads `{"n":N,"program":TREE,"script":SCRIPT}`, and writes the run of
/// that module: a line of JSON for each event, and one for the ending. Nothing is written before the whole output stands
/// in memory. The answers are tested in the order of their codes, memory at any point; in a run a missing program comes
/// before the faults of its tree, and what is no core module before what is no script.
pub fn shake<S: Source, K: Sink, E: Sink>(
    alloc: Global,
    words: &[String],
    source: &mut S,
    out: &mut K,
    err: &mut E,
) -> Status
    ensures ok { result ≡ Status.Ok → Shakes (map string_bytes words.now) (S.left source.old) (S.left source.new) (K.written out.old) (K.written out.new) }
    ensures usage { result ≡ Status.Usage → accepts (map string_bytes words.now) ≡ false }
    ensures accepted { (result ≡ Status.Usage → ⊥) → (result ≡ Status.OutOfMemory → ⊥) → accepts (map string_bytes words.now) ≡ true }
    ensures read_fault { result ≡ Status.ReadFault → HasFailed (S.faults source.old) (S.faults source.new) }
    ensures input_too_long { result ≡ Status.InputTooLong → IsLonger (S.left source.old) max_input }
    ensures syntax { result ≡ Status.Syntax → IsRefused Status.Syntax (map string_bytes words.now) (S.left source.old) }
    ensures tree { result ≡ Status.Tree → IsRefused Status.Tree (map string_bytes words.now) (S.left source.old) }
    ensures too_large { result ≡ Status.TooLarge → IsRefused Status.TooLarge (map string_bytes words.now) (S.left source.old) }
    ensures ill_formed { result ≡ Status.IllFormed → IsRefused Status.IllFormed (map string_bytes words.now) (S.left source.old) }
    ensures bad_script { result ≡ Status.BadScript → IsRefused Status.BadScript (map string_bytes words.now) (S.left source.old) }
    ensures not_core { result ≡ Status.NotCore → IsRefused Status.NotCore (map string_bytes words.now) (S.left source.old) }
    ensures write_fault { result ≡ Status.WriteFault → HasFailed (K.faults out.old) (K.faults out.new) }
    ensures write_front { result ≡ Status.WriteFault → ShakesFront (map string_bytes words.now) (S.left source.old) (K.written out.old) (K.written out.new) }

    // After any other refusal nothing was written.
    ensures unwritten { writes result ≡ false → K.written out.new ≡ K.written out.old }
    ensures line { Says (IsLineOf result (map string_bytes words.now) (S.left source.old)) (E.written err.old) (E.written err.new) (E.faults err.old) (E.faults err.new) }

    // The run itself, whatever the streams are: what the source gave, what the sink of the output took,
    // and what standard error was told.
    ensures run { Ran (map string_bytes words.now) result (S.given source.old) (S.given source.new) (K.taken out.old) (K.taken out.new) }
    ensures told { Tells (IsLineGiven (map string_bytes words.now) result (S.given source.old) (S.given source.new)) (E.taken err.old) (E.taken err.new) }

    // No call of a stream comes behind one that failed or told the end.
    ensures source_stops { StopsAtOnce (S.given source.old) (S.given source.new) }
    ensures out_stops { StopsAtOnce (K.taken out.old) (K.taken out.new) }
    ensures err_stops { StopsAtOnce (E.taken err.old) (E.taken err.new) }

    // What is left of the source, where it tells it.
    ensures rest { LeavesRest (S.left source.old) (S.left source.new) (max_input + 1) }

    // It succeeds where nothing stands in its way.
    ensures completes { Completes (map string_bytes words.now) (S.left source.old) (S.faults source.old) (S.faults source.new) (K.faults out.old) (K.faults out.new) result }

    // Faults are counted, and never taken back.
    ensures source_later { S.faults source.old ≤ S.faults source.new }
    ensures out_later { K.faults out.old ≤ K.faults out.new }
    ensures err_later { E.faults err.old ≤ E.faults err.new }
{
    let command = match parse(alloc, words) {
        Ok(command) => command,
        Err(WordsError::Usage) => {
            say(err, "shake: usage: shake dce [--tree-only], or shake run\n");
            return Status::Usage;
        }
        Err(WordsError::OutOfMemory) => return out_of_memory(err),
    };
    match read_all(alloc, source, MAX_INPUT) {
        Ok(bytes) => answer(alloc, command, bytes, out, err),
        Err(ReadAllError::Fault) => {
            say(err, "shake: read fault\n");
            Status::ReadFault
        }
        Err(ReadAllError::TooLong) => {
            say(err, "shake: input too long\n");
            Status::InputTooLong
        }
        Err(ReadAllError::OutOfMemory) => out_of_memory(err),
    }
}
