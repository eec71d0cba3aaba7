// From a tree to its text.
ghost use Rattle.std.specs.Prelude.{◌≡◌, [], Ok, IfOk, IsUtf8};
ghost use Rattle.json.specs.Lex.{tokens};
ghost use Rattle.json.specs.Print.{print};
ghost use Rattle.js_syntax.specs.Node.{forest_of, bare};
ghost use Rattle.json_text.specs.Answer.{IsReadAs};
ghost use Rattle.json_text.specs.Text.{text_of};
ghost use Rattle.json_shape.specs.Readable.{IsReadable};

use crate::node::write_node;
use js_tree::{Program, Text};
use json::Writer;
use std::alloc::{AllocError, Global};

/// The program as JSON, in UTF-8. A node's span and id aren't written, and a negative number is unary
/// minus on its magnitude. It fails only where memory is short.
pub fn write_tree(alloc: Global, program: &Program) -> Result<Text, AllocError>
    ensures text { IfOk result (λ t. t ≡ text_of (forest_of program.now)) }
    ensures utf8 { IfOk result (λ t. IsUtf8 t) }
    ensures reads_back { IfOk result
        (λ t. IsReadable (forest_of program.now)
        → IsReadAs t (Ok (bare (forest_of program.now)))) }
{
    let mut out = Writer::new(Vec::new(alloc));
    write_node(&mut out, program.root())?;
    Ok(into_text(out))
}

fn into_text(out: Writer) -> Text
    requires { out.before ≡ [] }
    ensures printed { result ≡ print out.tokens }
    ensures reads_back { tokens result ≡ out.tokens }
    ensures utf8 { IsUtf8 result }
{
    Text::new(String::from_utf8(out.into_inner()).unwrap())
}
