// How deep the text of a tree nests.
ghost use Rattle.std.specs.Prelude.{◌≡◌, ◌≤◌, ℕ, suc, List, Ok};
ghost use Rattle.serde_json.specs.Data.{Data, depth};
ghost use Rattle.serde_json.specs.Read.{max_depth};
ghost use Rattle.js_syntax.specs.Node.{Forest, total};
ghost use Rattle.json_text.specs.Answer.{IsReadAs};
ghost use Rattle.json_text.specs.Reading.{read_program};
ghost use Rattle.json_text.specs.Text.{data_of};
ghost use Rattle.json_kept.specs.Respelled.{negative};

/// Law: the text of a tree that was read nests no deeper than what it was read from, and one level deeper at the most
/// where a number of it is negative. So it keeps JSON's limit of nesting, or passes it by one level.
pub fn texts_nest_as_read()
    ensures plain { (d : Data) (t : Forest) → read_program d ≡ Ok t → total negative t ≡ 0 → depth (data_of t) ≤ depth d }
    ensures signed { (d : Data) (t : Forest) → read_program d ≡ Ok t → depth (data_of t) ≤ suc (depth d) }
    ensures plain_limit { (bytes : List ℕ) (t : Forest) → IsReadAs bytes (Ok t) → total negative t ≡ 0 → depth (data_of t) ≤ max_depth }
    ensures signed_limit { (bytes : List ℕ) (t : Forest) → IsReadAs bytes (Ok t) → depth (data_of t) ≤ suc max_depth }
{}
