// The law. It is a contract, so that the check proves it.
ghost use Rattle.std.specs.Prelude.{◌≡◌, Bool};
ghost use Rattle.js_syntax.specs.Node.{Forest, bare};
ghost use Rattle.headline.specs.Clean.{CleanBut};

/// Law: spans and ids don't matter, whatever is kept: trees that are the same but for them are one program.
pub fn notes_hide_no_dead_code()
    ensures { (unused imports : Bool) (t u : Forest) → bare t ≡ bare u → CleanBut unused imports t → CleanBut unused imports u }
{}
