// What holds of the definitions.
ghost use Rattle.std.specs.Prelude.{◌≡◌, Ok};
ghost use Rattle.serde_json.specs.Data.{Data};
ghost use Rattle.js_syntax.specs.Class.{root};
ghost use Rattle.js_syntax.specs.Node.{Forest, bare};
ghost use Rattle.json_text.specs.Reading.{read_program};
ghost use Rattle.json_text.specs.Text.{data_of};
ghost use Rattle.json_shape.specs.Shape.{Fits};
ghost use Rattle.json_shape.specs.Readable.{IsReadable};

/// Law: what is written for a readable tree is read as that tree, without spans and ids.
pub fn trees_are_read_back()
    ensures { (t : Forest) → IsReadable t → read_program (data_of t) ≡ Ok (bare t) }
{}

/// Law: a tree that was read fits the table.
pub fn trees_fit()
    ensures { (d : Data) (t : Forest) → read_program d ≡ Ok t → Fits root t }
{}
