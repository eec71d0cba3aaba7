// Copies of options.
ghost use Rattle.std.specs.Prelude.{◌≡◌, IfOk};
ghost use Rattle.min_options.specs.Options.{IsSmallest, SameOptions, SameTreeShake};

use crate::options::{CompressOptions, TreeShakeOptions};
use js_syntax::Text;
use std::alloc::{AllocError, Global};

fn texts(alloc: Global, texts: &[Text]) -> Result<Vec<Text>, AllocError>
    ensures { IfOk result (λ v. v.items ≡ texts.now) }
{
    let mut copies = Vec::new(alloc);
    for text in texts {
        copies.push(text.try_clone(alloc)?)?;
    }
    Ok(copies)
}

impl TreeShakeOptions {
    /// The same options again. It fails only for want of memory.
    pub fn try_clone(&self, alloc: Global) -> Result<TreeShakeOptions, AllocError>
        ensures same { IfOk result (λ o. SameTreeShake o self.now) }
    {
        Ok(TreeShakeOptions {
            annotations: self.annotations,
            manual_pure_functions: texts(alloc, &self.manual_pure_functions)?,
            property_read_side_effects: self.property_read_side_effects,
            property_write_side_effects: self.property_write_side_effects,
            unknown_global_side_effects: self.unknown_global_side_effects,
            invalid_import_side_effects: self.invalid_import_side_effects,
        })
    }
}

impl CompressOptions {
    /// The crate's default, which is `smallest`.
    pub fn default(alloc: Global) -> CompressOptions
        ensures smallest { IsSmallest result }
    {
        CompressOptions::smallest(alloc)
    }

    /// The same options again. It fails only for want of memory.
    pub fn try_clone(&self, alloc: Global) -> Result<CompressOptions, AllocError>
        ensures same { IfOk result (λ o. SameOptions o self.now) }
    {
        let treeshake = self.treeshake.try_clone(alloc)?;
        let drop_labels = texts(alloc, &self.drop_labels)?;
        Ok(CompressOptions {
            drop_debugger: self.drop_debugger,
            drop_console: self.drop_console,
            join_vars: self.join_vars,
            sequences: self.sequences,
            unused: self.unused,
            keep_names: self.keep_names,
            treeshake,
            drop_labels,
            max_iterations: self.max_iterations,
        })
    }
}
