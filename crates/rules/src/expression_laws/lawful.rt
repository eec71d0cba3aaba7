// What the rules owe so that a hook may apply them. The law is a contract, so that the check proves it.
ghost use Rattle.js_syntax.specs.Node.{Forest};
ghost use Rattle.steps.specs.Allowed.Edits.{Edit};
ghost use Rattle.min_options.specs.declared.options.CompressOptions.{CompressOptions};
ghost use Rattle.min_traverse.specs.Lawful.{Lawful};
ghost use Rattle.rules.specs.Expressions.Known.{fold_conditional, fold_logical, at_expression_end};
ghost use Rattle.rules.specs.Expressions.Unused.{fold_unused};
ghost use Rattle.rules.specs.Expressions.Lists.{fold_unused_list};
ghost use Rattle.rules.specs.Expressions.Indirect.{fold_indirect};
ghost use Rattle.rules.specs.Expressions.OneSided.{fold_one_sided};
ghost use Rattle.rules.specs.Expressions.Sequences.{fold_sequence};
ghost use Rattle.rules.specs.Expressions.TwoSides.{fold_two_sides};
ghost use Rattle.rules.specs.Expressions.Objects.{fold_object};
ghost use Rattle.rules.specs.Expressions.Operations.{fold_known};
ghost use Rattle.rules.specs.Expressions.Ifs.{fold_if};
ghost use Rattle.rules.specs.Expressions.EmptyIfs.{fold_empty_if};
ghost use Rattle.rules.specs.Expressions.EmptyAlternates.{fold_empty_alternate};
ghost use Rattle.rules.specs.Expressions.Jumps.{cut_list};
ghost use Rattle.rules.specs.Expressions.Untaken.{rid_if};

use min_traverse::Traverse;

/// Law: each rule is lawful for a walker that may make the edits of a dead code remover, and so are all, one after the other.
pub fn rules_are_lawful<T: Traverse>()
    ensures conditional { ((o : CompressOptions) (t u : Forest) → Edit t u → T.edit o t u) → Lawful T.edit fold_conditional }
    ensures logical { ((o : CompressOptions) (t u : Forest) → Edit t u → T.edit o t u) → Lawful T.edit fold_logical }
    ensures unused { ((o : CompressOptions) (t u : Forest) → Edit t u → T.edit o t u) → Lawful T.edit fold_unused }
    ensures list { ((o : CompressOptions) (t u : Forest) → Edit t u → T.edit o t u) → Lawful T.edit fold_unused_list }
    ensures indirect { ((o : CompressOptions) (t u : Forest) → Edit t u → T.edit o t u) → Lawful T.edit fold_indirect }
    ensures one_sided { ((o : CompressOptions) (t u : Forest) → Edit t u → T.edit o t u) → Lawful T.edit fold_one_sided }
    ensures sequence { ((o : CompressOptions) (t u : Forest) → Edit t u → T.edit o t u) → Lawful T.edit fold_sequence }
    ensures two_sides { ((o : CompressOptions) (t u : Forest) → Edit t u → T.edit o t u) → Lawful T.edit fold_two_sides }
    ensures object { ((o : CompressOptions) (t u : Forest) → Edit t u → T.edit o t u) → Lawful T.edit fold_object }
    ensures known { ((o : CompressOptions) (t u : Forest) → Edit t u → T.edit o t u) → Lawful T.edit fold_known }
    ensures statement { ((o : CompressOptions) (t u : Forest) → Edit t u → T.edit o t u) → Lawful T.edit fold_if }
    ensures empty_if { ((o : CompressOptions) (t u : Forest) → Edit t u → T.edit o t u) → Lawful T.edit fold_empty_if }
    ensures empty_alternate { ((o : CompressOptions) (t u : Forest) → Edit t u → T.edit o t u) → Lawful T.edit fold_empty_alternate }
    ensures untaken { ((o : CompressOptions) (t u : Forest) → Edit t u → T.edit o t u) → Lawful T.edit rid_if }
    ensures jumps { ((o : CompressOptions) (t u : Forest) → Edit t u → T.edit o t u) → Lawful T.edit cut_list }
    ensures all { ((o : CompressOptions) (t u : Forest) → Edit t u → T.edit o t u) → Lawful T.edit at_expression_end }
{}
