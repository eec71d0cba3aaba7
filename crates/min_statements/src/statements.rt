// The walker.
ghost use Rattle.std.specs.Prelude.{◌≡◌, IfOk};
ghost use Rattle.js_syntax.specs.Node.{forest_of};
ghost use Rattle.min_statements.specs.Walker.{facts_of, keeps_imports, keeps_unused, names_of};

use crate::emptied::empty_statement;
use crate::facts::Facts;
use crate::ifs::try_fold_if;
use crate::imports::{remove_repeated_imports, remove_unused_import_specifiers};
use crate::merged::merge_module_imports;
use crate::passed::merge_import_export;
use crate::stated::state_value;
use crate::trimmed::trim_statements;
use exported_names::{bound_references, exported_symbols};
use js_syntax::SourceType;
use js_tree::Node;
use min_context::MinifierTraverseCtx;
use min_expressions::PeepholeOptimizations;
use min_options::{CompressOptions, CompressOptionsUnused};
use min_traverse::{Hook, Traverse};
use scope_table::Scoping;
use std::alloc::{AllocError, Global};
use std::marker::Model;

/// Takes dead code out of lists of statements and unused names out of imports, lets imports of one module come together and those that only
/// statements elsewhere and branches and bodies that do nothing, makes statements of the values of names that nothing uses, and lets
/// feed exports become exports, empties silent
/// expressions and `if`s that known tests decide come to the part that counts, alone or behind a zero,
/// operations, arrays, objects and sequences of which nobody takes the value to what of them acts, and operations that don't act to their
/// values.
pub struct Statements {
    // Of each reference by its id, whether it has a symbol: this stays through a run.
    bound: Vec<bool>,
    // Of each symbol by its number, whether an exported declaration declares it.
    exported: Vec<bool>,
}

impl Drop for Statements {
    fn drop(self) {
        let Statements {
            bound: _,
            exported: _,
        } = self;
    }
}

impl Model for Statements {
    ghost use Rattle.min_statements.specs.Walker.{Names};

    ghost Value = { Names };

    ghost view = { λ s. record { bound = s.bound.items; exported = s.exported.items } };
}

fn keeps_unused(options: &CompressOptions) -> bool
    ensures { result ≡ keeps_unused options.now }
{
    matches!(options.unused, CompressOptionsUnused::Keep)
}

pub(crate) fn keeps_imports(options: &CompressOptions) -> bool
    ensures { result ≡ keeps_imports options.now }
{
    options.treeshake.invalid_import_side_effects
}

impl Statements {
    /// A walker of a program, given by its root, whose nodes are marked as the table says. It fails only for want of memory; the recursion
    /// goes as deep as the tree.
    pub fn new(alloc: Global, scoping: &Scoping, root: &Node) -> Result<Statements, AllocError>
        ensures names { IfOk result (λ s. s ≡ names_of scoping.now (forest_of root.now)) }
    {
        let bound = bound_references(alloc, scoping)?;
        let exported = exported_symbols(alloc, scoping, root)?;
        Ok(Statements { bound, exported })
    }

    // What is known of the program, and what is kept of it.
    pub(crate) fn facts<'a>(&'a self, ctx: &'a MinifierTraverseCtx) -> Facts<'a>
        ensures { result ≡ facts_of self.now ctx.now }
    {
        Facts {
            scoping: ctx.scoping(),
            bound: self.bound.as_slice(),
            exported: self.exported.as_slice(),
            is_script: matches!(ctx.source_type(), SourceType::Script),
            keeps_unused: keeps_unused(ctx.options()),
            keeps_imports: keeps_imports(ctx.options()),
        }
    }
}

impl Traverse for Statements {
    ghost use Rattle.min_statements.specs.Own.{AnyEdit, Own, Visited, is_written};

    ghost edit = { AnyEdit };

    ghost own = { Own };

    ghost written = { is_written };

    ghost visits = { Visited };

    fn has(hook: Hook) -> bool {
        matches!(
            hook,
            Hook::ExitStatements | Hook::ExitStatement | Hook::ExitExpression | Hook::ExitProgram
        )
    }

    fn exit_statements(
        &mut self,
        node: &mut Node,
        ctx: &mut MinifierTraverseCtx,
    ) -> Result<(), AllocError> {
        if trim_statements(self, node, ctx) {
            return Ok(());
        }
        remove_repeated_imports(node, ctx)?;
        Ok(())
    }

    fn exit_statement(
        &mut self,
        node: &mut Node,
        ctx: &mut MinifierTraverseCtx,
    ) -> Result<(), AllocError> {
        if empty_statement(self, node, ctx) {
            return Ok(());
        }
        if state_value(self, node, ctx) {
            return Ok(());
        }
        if try_fold_if(node, ctx)? {
            return Ok(());
        }
        remove_unused_import_specifiers(self, node, ctx);
        Ok(())
    }

    fn exit_expression(
        &mut self,
        node: &mut Node,
        ctx: &mut MinifierTraverseCtx,
    ) -> Result<(), AllocError> {
        PeepholeOptimizations::fold_expression(node, ctx)?;
        Ok(())
    }

    fn exit_program(
        &mut self,
        node: &mut Node,
        ctx: &mut MinifierTraverseCtx,
    ) -> Result<(), AllocError> {
        if merge_module_imports(self, node, ctx)? {
            return Ok(());
        }
        merge_import_export(self, node, ctx)?;
        Ok(())
    }
}
