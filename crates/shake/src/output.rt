// The text that the program writes.
ghost use Rattle.std.specs.Prelude.{◌≡◌, ◌++◌, IfOk, codes, string_bytes};
ghost use Rattle.js_syntax.specs.Node.{forest_of};
ghost use Rattle.shake.specs.Run.{dce_output, counts_of, IsInUtf8};

use js_tree::Program;
use json_write::write_tree;
use std::alloc::{AllocError, Global};

// The text, and behind it a newline.
fn with_newline(mut text: String) -> Result<String, AllocError>
    ensures { IfOk result (λ s. string_bytes s ≡ string_bytes text ++ codes "\n") }
{
    text.push('\n')?;
    Ok(text)
}

// The text, and behind it a newline and the line of counts.
fn with_counts(mut text: String, passes: u64, references: u64) -> Result<String, AllocError>
    ensures { IfOk result (λ s. string_bytes s ≡ string_bytes text ++ counts_of passes references) }
{
    write!(text, "\npasses {passes} references {references}\n")?;
    Ok(text)
}

/// The program's tree as JSON, and then the line of counts, unless the tree alone is asked for.
pub fn output(
    alloc: Global,
    tree_only: bool,
    program: &Program,
    passes: u64,
    references: u64,
) -> Result<String, AllocError>
    ensures output { IfOk result (λ s. string_bytes s ≡ dce_output tree_only (forest_of program.now) passes references) }
    ensures utf8 { IfOk result (λ _. IsInUtf8 (forest_of program.now)) }
{
    let text = write_tree(alloc, program)?.into_string();
    if tree_only {
        with_newline(text)
    } else {
        with_counts(text, passes, references)
    }
}
