// A program, and the bytes that it is read from.
ghost use Rattle.std.specs.Prelude.{◌≡◌, IfOk, IfErr, Ok};
ghost use Rattle.json_value.specs.View.{view};
ghost use Rattle.js_syntax.specs.Class.{root};
ghost use Rattle.js_syntax.specs.Node.{forest_of};
ghost use Rattle.json_text.specs.Answer.{Gives, IsReadAs, IsCauseOf};
ghost use Rattle.json_text.specs.Reading as reading;
ghost use Rattle.json_shape.specs.Shape.{Fits};

use crate::walk::read_node;
use js_tree::Program;
use json_scan::Place;
use json_table::Wanted;
use json_text::TreeError;
use json_value::{Scratch, Value, ValueError, read_value};
use std::alloc::Global;

// One more than the arrays and objects that JSON may nest.
const MAX_LEVELS: usize = 128;

// The program that a JSON value is.
fn program(alloc: Global, value: &Value<'_>) -> Result<Program, TreeError>
    ensures { Gives forest_of result (reading.read_program (view value.now)) }
{
    let place = Place {
        kind: "",
        field: "type",
    };
    let root = read_node(alloc, Wanted::Root, value, place, MAX_LEVELS)?;
    Ok(Program::new(root))
}

/// The program that a JSON value is, as ESTree JSON. Each node of it stands where the table of node types takes it
/// (`json_shape`). A value that JSON's limit of nesting lets in is never refused for its levels.
pub fn read_program(alloc: Global, value: &Value<'_>) -> Result<Program, TreeError>
    ensures exact { Gives forest_of result (reading.read_program (view value.now)) }
    ensures fits { IfOk result (λ p. Fits root (forest_of p)) }
{
    program(alloc, value)
}

/// The program that the bytes are, as ESTree JSON (RFC 8259, read as `serde_json` reads it: of a key
/// that comes twice the last value counts, and at most 127 arrays and objects nest). Each node of it
/// stands where the table of node types takes it (`json_shape`).
pub fn read_tree(alloc: Global, bytes: &[u8]) -> Result<Program, TreeError>
    ensures ok { IfOk result (λ p. IsReadAs bytes.now (Ok (forest_of p))) }
    ensures fits { IfOk result (λ p. Fits root (forest_of p)) }
    ensures err { IfErr result (λ e. IsCauseOf e bytes.now) }
{
    let mut scratch = Scratch::new(alloc);
    match read_value(alloc, bytes, &mut scratch) {
        Ok(value) => read_program(alloc, &value),
        Err(ValueError::OutOfMemory) => Err(TreeError::OutOfMemory),
        Err(ValueError::Syntax) => Err(TreeError::Syntax),
    }
}
