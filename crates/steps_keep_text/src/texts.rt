// What the text of what edits leave is read as. The law is a contract, so that the check proves it.
ghost use Rattle.std.specs.Prelude.{◌≡◌, ◌≤◌, ℕ, List, Ok, IsUtf8};
ghost use Rattle.serde_json.specs.Data.{depth};
ghost use Rattle.serde_json.specs.Read.{max_depth};
ghost use Rattle.js_syntax.specs.Node.{Forest, bare, total};
ghost use Rattle.js_meaning_near.specs.Signed.{signed, MayBeSigned};
ghost use Rattle.json_text.specs.Answer.{IsReadAs};
ghost use Rattle.json_text.specs.Text.{data_of, text_of};
ghost use Rattle.json_kept.specs.Respelled.{negative, misnamed, IsWrittenAsItIs};
ghost use Rattle.steps.specs.Allowed.Edits.{Edits};

/// Law: where edits lead from a program that was read, and the text of what they leave keeps JSON's limit of nesting, that text is
/// read as what they leave, without spans and ids, if each value of the program is written as what it is. Else it is read as that
/// with unary minus on their magnitudes in the place of negative numbers, if each name of the program is one; and signs may be
/// applied so for its runs, however deep its text nests.
pub fn texts_of_edits_are_read_back()
    ensures as_it_is { (bytes : List ℕ) (t u : Forest) → IsReadAs bytes (Ok t) → Edits t u → IsWrittenAsItIs t → depth (data_of u) ≤ max_depth → IsUtf8 (text_of u) → IsReadAs (text_of u) (Ok (bare u)) }
    ensures with_signs { (bytes : List ℕ) (t u : Forest) → IsReadAs bytes (Ok t) → Edits t u → total misnamed t ≡ 0 → depth (data_of u) ≤ max_depth → IsUtf8 (text_of u)
        → IsReadAs (text_of u) (Ok (bare (signed u))) }
    ensures without_negative_numbers { (bytes : List ℕ) (t u : Forest) → IsReadAs bytes (Ok t) → Edits t u → total negative t ≡ 0 → signed u ≡ u }
    ensures runs { (bytes : List ℕ) (t u : Forest) → IsReadAs bytes (Ok t) → Edits t u → total misnamed t ≡ 0 → MayBeSigned u }
{}
