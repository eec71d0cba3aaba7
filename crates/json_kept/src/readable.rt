// Which trees are read back from their text.
ghost use Rattle.std.specs.Prelude.{ℕ, List, Ok, IsUtf8};
ghost use Rattle.js_syntax.specs.Node.{Forest, bare};
ghost use Rattle.json_text.specs.Answer.{IsReadAs};
ghost use Rattle.json_text.specs.Text.{text_of};
ghost use Rattle.json_shape.specs.Readable.{IsReadable};
ghost use Rattle.json_kept.specs.Respelled.{IsWrittenAsItIs};

/// Law: a tree that was read is readable, where each of its values is written as what it is.
pub fn what_was_read_is_readable()
    ensures { (bytes : List ℕ) (t : Forest) → IsReadAs bytes (Ok t) → IsWrittenAsItIs t → IsReadable t }
{}

/// Law: the text of a readable tree is read as that tree, without spans and ids, if its own texts are UTF-8.
pub fn texts_are_read_back()
    ensures { (t : Forest) → IsReadable t → IsUtf8 (text_of t) → IsReadAs (text_of t) (Ok (bare t)) }
{}
