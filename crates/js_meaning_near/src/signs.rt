// Negative numbers as unary minus. The law is a contract, so that the check proves it.
ghost use Rattle.js_syntax.specs.Node.{Note, Forest};
ghost use Rattle.js_meaning.specs.Kept.{Refined};
ghost use Rattle.js_meaning_near.specs.Near.{fields, module_of};
ghost use Rattle.js_meaning_near.specs.Fit.{whole};
ghost use Rattle.js_meaning_near.specs.Avoid.{InPlace};
ghost use Rattle.js_meaning_near.specs.Signed.{signed, MayBeSigned};

/// Law: a module runs as it does with unary minus on its magnitude in the place of each negative number.
pub fn signs_may_be_applied()
    ensures { (n m : Note) (a : Forest) → InPlace whole fields (module_of n m a) → MayBeSigned a → Refined (module_of n m a) (module_of n m (signed a)) }
{}
