//! Programs with their tables, told by hand, as the definitions compute them.
ghost use Rattle.js_scoping.specs.Worked.{AreRight, rows};

/// Declarations of one name are one symbol, and a hidden name of a function expression is a symbol that no
/// reference has.
pub fn tables()
    ensures { AreRight rows }
{}
