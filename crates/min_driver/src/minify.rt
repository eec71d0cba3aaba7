// The library call.
ghost use Rattle.std.specs.Prelude.{◌≡◌, ◌+◌, ◌≤◌, ◌<◌, ◌^◌, IfOk, IfErr, IsSomeAnd, Some, None, is_some, true, false};
ghost use Rattle.std.specs.List.{count_by};
ghost use Rattle.js_syntax.specs.Class.{root};
ghost use Rattle.js_syntax.specs.Facts.{weight};
ghost use Rattle.js_syntax.specs.Node.{bare, forest_of, total};
ghost use Rattle.js_tree.specs.Count.{node_count, levels};
ghost use Rattle.form_rules.specs.Form.{IsWellFormed};
ghost use Rattle.js_scoping.specs.Build.{table_of, numbered};
ghost use Rattle.min_driver.specs.Left.{IsLeft, IsShaken};
ghost use Rattle.min_driver.specs.Limit.{IsWithinLimits};
ghost use Rattle.min_driver.specs.Minify.{IsCleanBy, KeepsNothing, IsCause};
ghost use Rattle.min_options.specs.Options.{IsSmallest};
ghost use Rattle.min_pass.specs.Pass.{cleared};
ghost use Rattle.min_peephole.specs.Shaken.{IsMarked};
ghost use Rattle.scope_laws.specs.Exact.{Exact};
ghost use Rattle.scope_rules.specs.Binding.{resolved_references};
ghost use Rattle.scope_match.specs.Matches.{Matches};
ghost use Rattle.headline.specs.Headline.{Edits, Kept, KeptBack, is_core_module, loaded, root_names, HasSharedNames, ImportsAreUsed};
ghost use Rattle.json_shape.specs.Shape.{Fits};
ghost use Rattle.steps.specs.Allowed.Exposure.{is_script, evaluates_somewhere};

use crate::error::MinifyError;
use crate::limits::check_limits;
use form_check::{FormError, well_formed};
use js_scoping::{Scoping, build};
use js_tree::Program;
use js_tree_copy::try_clone;
use json_fits::fits;
use min_options::CompressOptions;
use min_pass::clear_program;
use min_peephole::{Shaken, shake_program};
use std::alloc::{AllocError, Global};

/// What the library call is to do.
#[derive(Drop)]
pub struct MinifierOptions {
    /// What is compressed. Without it no pass runs.
    pub compress: Option<CompressOptions>,
}

impl MinifierOptions {
    /// The smallest output.
    pub fn default(alloc: Global) -> MinifierOptions
        ensures compress { IsSomeAnd result.compress IsSmallest }
    {
        MinifierOptions {
            compress: Some(CompressOptions::smallest(alloc)),
        }
    }
}

/// What the library call answers beside the program.
#[derive(Drop)]
pub struct MinifierReturn {
    /// The scopes, symbols and references of what is left, whose nodes are marked with their numbers.
    pub scoping: Scoping,
    /// How many passes were followed by another, since they changed something: no more than the weight that is gone.
    pub iterations: u64,
}

/// The library call with its options.
#[derive(Drop)]
pub struct Minifier {
    options: MinifierOptions,
}

// Whether a program that is small enough breaks no rule of form.
fn check_form(alloc: Global, program: &Program) -> Result<(), MinifyError>
    requires within { IsWithinLimits (forest_of program.now) }
    ensures ok { IfOk result (λ _. IsWellFormed (forest_of program.now)) }
    ensures err { IfErr result (λ e. IsCause e (forest_of program.now)) }
{
    match well_formed(alloc, program) {
        Ok(()) => Ok(()),
        Err(FormError::IllFormed { rule, place }) => Err(MinifyError::IllFormed { rule, place }),
        Err(FormError::OutOfMemory) => Err(MinifyError::OutOfMemory),
    }
}

/// Whether a program is within the limits and breaks no rule of form. Its limits are asked first.
pub fn check(alloc: Global, program: &Program) -> Result<(), MinifyError>
    ensures within { IfOk result (λ _. IsWithinLimits (forest_of program.now)) }
    ensures well_formed { IfOk result (λ _. IsWellFormed (forest_of program.now)) }
    ensures err { IfErr result (λ e. IsCause e (forest_of program.now)) }
{
    check_limits(alloc, program)?;
    check_form(alloc, program)
}

// What passes leave of a program that fits the table of node types.
fn compress(
    alloc: Global,
    options: CompressOptions,
    program: Program,
) -> Result<(Program, MinifierReturn), AllocError>
    requires within { IsWithinLimits (forest_of program) }
    requires well_formed { IsWellFormed (forest_of program) }
    requires fits { Fits root (forest_of program) }
    ensures left { IfOk result (λ r. IsLeft (Some options) (forest_of program) (forest_of r.0) r.1.scoping r.1.iterations) }
{
    let Shaken {
        program: left,
        scoping,
        iterations,
    } = shake_program(alloc, options, program)?;
    Ok((
        left,
        MinifierReturn {
            scoping,
            iterations,
        },
    ))
}

// A program that stays, its nodes marked.
fn mark(alloc: Global, program: Program) -> Result<(Program, MinifierReturn), AllocError>
    requires small { node_count (forest_of program) < 2 ^ 32 }
    ensures numbered { IfOk result (λ r. forest_of r.0 ≡ numbered (forest_of program)) }
    ensures marked { IfOk result (λ r. IsMarked (forest_of r.0) r.1.scoping) }
    ensures iterations { IfOk result (λ r. r.1.iterations ≡ 0) }
{
    let mut left = program;
    let scoping = build(alloc, &mut left)?;
    Ok((
        left,
        MinifierReturn {
            scoping,
            iterations: 0,
        },
    ))
}

// A program without the empty statements of its lists, its nodes marked.
fn clear(alloc: Global, program: Program) -> Result<(Program, MinifierReturn), AllocError>
    requires small { node_count (forest_of program) < 2 ^ 32 }
    ensures numbered { IfOk result (λ r. forest_of r.0 ≡ numbered (cleared (forest_of program))) }
    ensures marked { IfOk result (λ r. IsMarked (forest_of r.0) r.1.scoping) }
    ensures iterations { IfOk result (λ r. r.1.iterations ≡ 0) }
{
    let cleared = clear_program(alloc, program)?;
    mark(alloc, cleared)
}

// Compresses a program. Of one that doesn't fit the table nothing is known that passes could go by.
fn compress_any(
    alloc: Global,
    options: CompressOptions,
    program: Program,
) -> Result<(Program, MinifierReturn), AllocError>
    requires within { IsWithinLimits (forest_of program) }
    requires well_formed { IsWellFormed (forest_of program) }
    ensures left { IfOk result (λ r. IsLeft (Some options) (forest_of program) (forest_of r.0) r.1.scoping r.1.iterations) }
{
    if fits(&program) {
        return compress(alloc, options, program);
    }
    clear(alloc, program)
}

// Compresses a program, or only marks its nodes.
fn minify(
    alloc: Global,
    options: Option<CompressOptions>,
    program: Program,
) -> Result<(Program, MinifierReturn), AllocError>
    requires within { IsWithinLimits (forest_of program) }
    requires well_formed { IsWellFormed (forest_of program) }
    ensures left { IfOk result (λ r. IsLeft options (forest_of program) (forest_of r.0) r.1.scoping r.1.iterations) }
{
    match options {
        None => mark(alloc, program),
        Some(options) => compress_any(alloc, options, program),
    }
}

// The same of a program that fits the table of node types.
fn minify_fitting(
    alloc: Global,
    options: Option<CompressOptions>,
    program: Program,
) -> Result<(Program, MinifierReturn), AllocError>
    requires within { IsWithinLimits (forest_of program) }
    requires well_formed { IsWellFormed (forest_of program) }
    requires fits { Fits root (forest_of program) }
    ensures left { IfOk result (λ r. IsLeft options (forest_of program) (forest_of r.0) r.1.scoping r.1.iterations) }
{
    match options {
        None => mark(alloc, program),
        Some(options) => compress(alloc, options, program),
    }
}

// The same of a program that is left as it is.
fn minify_copy(
    alloc: Global,
    options: Option<CompressOptions>,
    program: &Program,
) -> Result<(Program, MinifierReturn), AllocError>
    requires within { IsWithinLimits (forest_of program.now) }
    requires well_formed { IsWellFormed (forest_of program.now) }
    ensures left { IfOk result (λ r. IsLeft options (forest_of program.now) (forest_of r.0) r.1.scoping r.1.iterations) }
{
    let copy = try_clone(alloc, program)?;
    minify(alloc, options, copy)
}

impl Minifier {
    pub fn new(options: MinifierOptions) -> Minifier
        ensures options { result.options ≡ options }
    {
        Minifier { options }
    }

    // The options of the passes.
    fn into_compress(self) -> Option<CompressOptions>
        ensures { result ≡ self.options.compress }
    {
        let Minifier { options } = self;
        let MinifierOptions { compress } = options;
        compress
    }

    /// Dead code elimination: what is left of the program is put in its place, its nodes marked with the numbers of
    /// their scopes, symbols and references. Where the program fits the table of node types, edits that are allowed lead
    /// to what is left, and no part of that is dead code, by the options: it asks for the same modules, no name of an import
    /// is left to which nothing refers, but in a script or beside a direct call of `eval`, and there the names of the
    /// program's own scope stay. The program is tested for its limits first, and
    /// then for the rules of form; what is left is of a copy. After an error it is as it was.
    pub fn dce(self, alloc: Global, program: &mut Program) -> Result<MinifierReturn, MinifyError>
        ensures edits { IfOk result (λ _. Fits root (forest_of program.old) → Edits (forest_of program.old) (forest_of program.new)) }
        ensures kept { IfOk result (λ _. Fits root (forest_of program.old) → is_core_module (forest_of program.old) ≡ true → Kept (forest_of program.old) (forest_of program.new)) }
        ensures back { IfOk result (λ _. Fits root (forest_of program.old) → is_core_module (forest_of program.old) ≡ true → KeptBack (forest_of program.old) (forest_of program.new)) }
        ensures fits { IfOk result (λ _. Fits root (forest_of program.old) → Fits root (forest_of program.new)) }
        ensures formed { IfOk result (λ _. Fits root (forest_of program.old) → IsWellFormed (forest_of program.new)) }
        ensures clean { IfOk result (λ _. Fits root (forest_of program.old) → IsCleanBy self.options.compress (forest_of program.new)) }
        ensures loads { IfOk result (λ _. Fits root (forest_of program.old) → loaded (forest_of program.new) ≡ loaded (forest_of program.old)) }
        ensures shared { IfOk result (λ _. Fits root (forest_of program.old) → HasSharedNames (forest_of program.old) (forest_of program.new) → root_names (forest_of program.new) ≡ root_names (forest_of program.old)) }
        ensures imports { IfOk result (λ _. Fits root (forest_of program.old) → KeepsNothing self.options.compress → is_script (forest_of program.new) ≡ false → evaluates_somewhere (forest_of program.new) ≡ false → ImportsAreUsed (forest_of program.new)) }
        ensures nodes { IfOk result (λ _. node_count (forest_of program.new) ≤ node_count (forest_of program.old)) }
        ensures levels { IfOk result (λ _. levels (forest_of program.new) ≤ levels (forest_of program.old)) }
        ensures small { IfOk result (λ _. IsWithinLimits (forest_of program.new)) }
        ensures marked { IfOk result (λ _. forest_of program.new ≡ numbered (forest_of program.new)) }
        ensures scoping { IfOk result (λ r. r.scoping ≡ table_of (forest_of program.new)) }
        ensures exact { IfOk result (λ r. Exact r.scoping (forest_of program.new)) }
        ensures matches { IfOk result (λ r. Matches r.scoping (forest_of program.new)) }
        ensures resolved { IfOk result (λ r. count_by (λ r. is_some r.symbol) r.scoping.references ≡ resolved_references (forest_of program.new)) }
        ensures untouched { IfOk result (λ r. self.options.compress ≡ None → (forest_of program.new ≡ numbered (forest_of program.old)) × (r.iterations ≡ 0)) }
        ensures few { IfOk result (λ r. r.iterations + total weight (forest_of program.new) ≤ total weight (forest_of program.old)) }
        ensures none { IfOk result (λ r. is_some self.options.compress ≡ true → r.iterations ≡ 0 → bare (forest_of program.new) ≡ bare (cleared (forest_of program.old))) }
        ensures within { IfOk result (λ _. IsWithinLimits (forest_of program.old)) }
        ensures well_formed { IfOk result (λ _. IsWellFormed (forest_of program.old)) }
        ensures err { IfErr result (λ e. IsCause e (forest_of program.old)) }
        ensures unchanged { IfErr result (λ _. program.new ≡ program.old) }
    {
        check(alloc, program)?;
        let (left, done) = minify_copy(alloc, self.into_compress(), program)?;
        *program = left;
        Ok(done)
    }

    /// The same of a program that is given up, which is not copied: what is left of it is answered. After an error it is
    /// dropped.
    pub fn dce_owned(
        self,
        alloc: Global,
        program: Program,
    ) -> Result<(Program, MinifierReturn), MinifyError>
        ensures left { IfOk result (λ r. IsLeft self.options.compress (forest_of program) (forest_of r.0) r.1.scoping r.1.iterations) }
        ensures within { IfOk result (λ _. IsWithinLimits (forest_of program)) }
        ensures well_formed { IfOk result (λ _. IsWellFormed (forest_of program)) }
        ensures err { IfErr result (λ e. IsCause e (forest_of program)) }
    {
        check(alloc, &program)?;
        let done = minify(alloc, self.into_compress(), program)?;
        Ok(done)
    }

    /// The same of a program that fits the table of node types, as each does that was read: edits lead to what is left, it
    /// fits the table, breaks no rule of form, keeps the runs of a core module, and no part of it is dead code, by the
    /// options.
    pub fn dce_fitting(
        self,
        alloc: Global,
        program: Program,
    ) -> Result<(Program, MinifierReturn), MinifyError>
        requires fits { Fits root (forest_of program) }
        ensures shaken { IfOk result (λ r. IsShaken self.options.compress (forest_of program) (forest_of r.0) r.1.scoping r.1.iterations) }
        ensures within { IfOk result (λ _. IsWithinLimits (forest_of program)) }
        ensures well_formed { IfOk result (λ _. IsWellFormed (forest_of program)) }
        ensures err { IfErr result (λ e. IsCause e (forest_of program)) }
    {
        check(alloc, &program)?;
        let done = minify_fitting(alloc, self.into_compress(), program)?;
        Ok(done)
    }
}
