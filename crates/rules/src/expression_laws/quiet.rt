// Where the rules change nothing of a program. The law is a contract, so that the check proves it.
ghost use Rattle.js_syntax.specs.Node.{Forest};
ghost use Rattle.min_context.specs.Place.{top};
ghost use Rattle.rules.specs.DeadCode.Quiet.{EachNode};
ghost use Rattle.rules.specs.Expressions.Settled.{IsSettledAt, IsSettled};

/// Law: a walk sees that they change nothing, node by node.
pub fn walks_see_what_is_settled()
    ensures { (t : Forest) → EachNode IsSettledAt top t → IsSettled t }
{}
