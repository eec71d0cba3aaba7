// The law. It is a contract, so that the check proves it.
ghost use Rattle.js_syntax.specs.Class.{root};
ghost use Rattle.js_syntax.specs.Node.{Forest};
ghost use Rattle.json_shape.specs.Shape.{Fits};
ghost use Rattle.min_context.specs.Place.{top};
ghost use Rattle.rules.specs.DeadCode.Quiet.{EachNode};
ghost use Rattle.rules.specs.Slots.Had.{HasSlots};

/// Law: in a tree that fits the table of node types each node has the slot of its sort.
pub fn nodes_have_their_slots()
    ensures { (t : Forest) → Fits root t → EachNode HasSlots top t }
{}
