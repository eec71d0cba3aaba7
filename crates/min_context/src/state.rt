// What passes know beside the table.
ghost use Rattle.std.specs.Prelude.{◌≡◌, [], length, false, IfOk};
ghost use Rattle.min_context.specs.State.{Begins};

use js_syntax::{ScopeId, SourceType};
use min_options::CompressOptions;
use min_symbols::PassChanges;
use scope_table::Scoping;
use std::alloc::{AllocError, Global};

/// Which rewritings a run does.
#[derive(Clone, Copy)]
pub enum CompressionMode {
    /// All of them.
    Full,
    /// Those that take out dead code.
    TreeShakeOnly,
}

/// The body of a program or a function while a walk is in it.
#[derive(Clone, Copy)]
pub struct BodyFrame {
    /// The scope of its statements.
    pub scope_id: ScopeId,
    /// Whether code that has run may have read a variable before its initialiser ran.
    pub hoisted_var_inlining_unsafe: bool,
    /// From which place on `this` is initialised. It has no use yet.
    pub this_initialized_at: Option<u32>,
}

/// What passes know of a program beside the table of its scopes, symbols and references.
pub struct MinifierState {
    pub source_type: SourceType,
    pub options: CompressOptions,
    pub mode: CompressionMode,
    pub body_frames: Vec<BodyFrame>,
    pub pass_changes: PassChanges,
}

impl Drop for MinifierState {
    fn drop(self) {
        let MinifierState {
            source_type: _,
            options: _,
            mode: _,
            body_frames: _,
            pass_changes: _,
        } = self;
    }
}

impl MinifierState {
    /// What passes know before the first of them: there is room for a mark of each reference of the table. It fails only for
    /// want of memory.
    pub fn new(
        alloc: Global,
        source_type: SourceType,
        options: CompressOptions,
        mode: CompressionMode,
        scoping: &Scoping,
    ) -> Result<MinifierState, AllocError>
        ensures begins { IfOk result (λ s. Begins source_type options mode (length scoping.now.references) s) }
    {
        let pass_changes = PassChanges::new(alloc, scoping.references_len() as u32)?;
        Ok(MinifierState {
            source_type,
            options,
            mode,
            body_frames: Vec::new(alloc),
            pass_changes,
        })
    }
}
