// What doesn't depend on spans and marks.
ghost use Rattle.std.specs.Prelude.{◌≡◌};
ghost use Rattle.js_syntax.specs.Node.{Forest, bare};
ghost use Rattle.json_shape.specs.Readable.{IsReadable};
ghost use Rattle.json_text.specs.Text.{text_of};

/// Law: two trees that are the same without their spans and marks have one text.
pub fn notes_are_not_written()
    ensures { (t u : Forest) → bare t ≡ bare u → text_of t ≡ text_of u }
{}

/// Law: if one of them is read back from its text, so is the other.
pub fn notes_are_not_read()
    ensures { (t u : Forest) → bare t ≡ bare u → IsReadable t → IsReadable u }
{}
