//! Laws, each the contract of a function that does nothing.
ghost use Rattle.std.specs.Prelude.{◌≡◌, true};
ghost use Rattle.js_syntax.specs.Class.{root};
ghost use Rattle.js_syntax.specs.Node.{Forest};
ghost use Rattle.json_shape.specs.Shape.{Fits};
ghost use Rattle.headline.specs.Clean.{Clean};
ghost use Rattle.min_options.specs.Options.{IsDce, IsSmallest};
ghost use Rattle.min_options.specs.declared.options.CompressOptions.{CompressOptions};
ghost use Rattle.min_peephole.specs.CleanBy.{CleanBy};
ghost use Rattle.min_peephole.specs.Quiet.{is_quiet};

/// Law: a program of the table of node types that the rules leave as it is has no dead code.
pub fn what_rules_leave_as_it_is_is_clean()
    ensures { (t : Forest) → Fits root t → is_quiet t ≡ true → Clean t }
{}

/// Law: the options for dead code elimination alone keep nothing that is dead code, nor do the smallest ones.
pub fn options_that_keep_nothing()
    ensures dce { (o : CompressOptions) (t : Forest) → IsDce o → CleanBy o t → Clean t }
    ensures smallest { (o : CompressOptions) (t : Forest) → IsSmallest o → CleanBy o t → Clean t }
{}
