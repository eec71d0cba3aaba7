// What holds of the definitions themselves.
ghost use Rattle.std.specs.Prelude.{◌≢◌, ◌≤◌, Err};
ghost use Rattle.serde_json.specs.Data.{Data, depth};
ghost use Rattle.serde_json.specs.Read.{max_depth};
ghost use Rattle.json_text.specs.Fault.{too_deep};
ghost use Rattle.json_text.specs.Reading.{read_program};

/// Law: on a value that JSON's limit of nesting lets in, reading never runs out of levels.
pub fn levels_suffice()
    ensures { (d : Data) → depth d ≤ max_depth → read_program d ≢ Err too_deep }
{}
