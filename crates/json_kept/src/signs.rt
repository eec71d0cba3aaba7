// Trees with negative numbers, which are written as unary minus on their magnitudes.
ghost use Rattle.std.specs.Prelude.{◌≡◌, ◌≤◌, ℕ, List, Ok};
ghost use Rattle.serde_json.specs.Data.{depth};
ghost use Rattle.serde_json.specs.Read.{max_depth};
ghost use Rattle.js_syntax.specs.Class.{root};
ghost use Rattle.js_syntax.specs.Node.{Forest, total};
ghost use Rattle.json_text.specs.Answer.{IsReadAs};
ghost use Rattle.json_text.specs.Text.{data_of, text_of};
ghost use Rattle.json_shape.specs.Shape.{Fits};
ghost use Rattle.json_shape.specs.Readable.{IsReadable};
ghost use Rattle.js_meaning_near.specs.Signed.{signed, MayBeSigned};
ghost use Rattle.json_kept.specs.Respelled.{misnamed, negative};
ghost use Rattle.json_kept.specs.Signs.{inexact_size, IsSignable};

/// Law: a tree and what it is with unary minus on its magnitude in the place of each negative number have one text.
pub fn signs_are_written_alike()
    ensures values { (t : Forest) → data_of (signed t) ≡ data_of t }
    ensures text { (t : Forest) → text_of (signed t) ≡ text_of t }
{}

/// Law: where no number of a tree is negative, that is the tree.
pub fn without_negative_numbers_no_sign_is_applied()
    ensures { (t : Forest) → total negative t ≡ 0 → signed t ≡ t }
{}

/// Law: of a tree that was read the latter is readable, where each name of the tree is one and its text keeps JSON's limit of
/// nesting; and it runs as the tree does (`signs_may_be_applied` of js_meaning_near), where the tree fits the table of node types
/// and its values are exact but for their signs, as they are where each name of a tree that was read is one.
pub fn what_was_read_is_signable()
    ensures exact_sizes { (bytes : List ℕ) (t : Forest) → IsReadAs bytes (Ok t) → total misnamed t ≡ 0 → total inexact_size t ≡ 0 }
    ensures signable { (bytes : List ℕ) (t : Forest) → IsReadAs bytes (Ok t) → total misnamed t ≡ 0 → depth (data_of t) ≤ max_depth → IsSignable t }
    ensures readable { (t : Forest) → IsSignable t → IsReadable (signed t) }
    ensures runs { (t : Forest) → Fits root t → total inexact_size t ≡ 0 → MayBeSigned t }
{}
