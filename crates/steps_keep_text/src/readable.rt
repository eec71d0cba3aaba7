// Which trees edits leave that are read back from their text. Each law is a contract, so that the check proves it.
ghost use Rattle.std.specs.Prelude.{◌≡◌, ◌≤◌};
ghost use Rattle.serde_json.specs.Data.{depth};
ghost use Rattle.serde_json.specs.Read.{max_depth};
ghost use Rattle.js_syntax.specs.Class.{root};
ghost use Rattle.js_syntax.specs.Node.{Forest, total};
ghost use Rattle.json_text.specs.Text.{data_of};
ghost use Rattle.json_shape.specs.Shape.{Fits};
ghost use Rattle.json_shape.specs.Exact.{IsExact};
ghost use Rattle.json_shape.specs.Readable.{IsReadable};
ghost use Rattle.json_kept.specs.Respelled.{negative, misnamed, IsWrittenAsItIs};
ghost use Rattle.json_kept.specs.Signs.{inexact_size, IsSignable};
ghost use Rattle.steps.specs.Allowed.Edits.{TreeEdits, Edits};

/// Law: what edits leave of a program that fits the table of node types and whose values are exact has exact values, and is
/// readable where its text keeps JSON's limit of nesting; and where its values are exact but for their signs, so is it with unary
/// minus in the place of negative numbers.
pub fn edits_leave_readable_trees()
    ensures readable_tree { (t u : Forest) → TreeEdits t u → Fits root t → IsExact t → depth (data_of u) ≤ max_depth → IsReadable u }
    ensures signable_tree { (t u : Forest) → TreeEdits t u → Fits root t → total inexact_size t ≡ 0 → depth (data_of u) ≤ max_depth → IsSignable u }
    ensures exact_tree { (t u : Forest) → TreeEdits t u → Fits root t → IsExact t → IsExact u }
    ensures readable { (t u : Forest) → Edits t u → Fits root t → IsExact t → depth (data_of u) ≤ max_depth → IsReadable u }
    ensures signable { (t u : Forest) → Edits t u → Fits root t → total inexact_size t ≡ 0 → depth (data_of u) ≤ max_depth → IsSignable u }
    ensures exact { (t u : Forest) → Edits t u → Fits root t → IsExact t → IsExact u }
{}

/// Law: edits bring no negative number and no name that is none, each of which is written as something else; so where each
/// value was written as what it is, each is.
pub fn edits_bring_no_respelled_values()
    ensures misnamed_tree { (t u : Forest) → TreeEdits t u → Fits root t → total misnamed u ≤ total misnamed t }
    ensures negative_tree { (t u : Forest) → TreeEdits t u → Fits root t → total negative u ≤ total negative t }
    ensures misnamed { (t u : Forest) → Edits t u → Fits root t → total misnamed u ≤ total misnamed t }
    ensures negative { (t u : Forest) → Edits t u → Fits root t → total negative u ≤ total negative t }
    ensures as_it_is { (t u : Forest) → Edits t u → Fits root t → IsWrittenAsItIs t → IsWrittenAsItIs u }
{}
