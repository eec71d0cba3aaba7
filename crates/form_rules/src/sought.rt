// How names are declared, and what is sought of them.

/// How a name is declared. `Hoisted` is a function at the top of a script, a function or a static block,
/// and `Repeatable` one in a block of code that isn't strict.
#[derive(Clone, Copy, Debug, PartialEq, Eq)]
pub enum Sort {
    Lexical,
    Repeatable,
    Hoisted,
    Variable,
    Parameter,
    CatchParameter,
}

/// What is sought in a row of nodes.
#[derive(Clone, Copy, Debug, PartialEq, Eq)]
pub enum Sought {
    Nothing,
    /// The names among them, as those of a function or class.
    Names(Sort),
    /// What patterns bind.
    Bound(Sort),
    /// What statements declare in their scope, functions so, and by `var` in all that lies below.
    Scope(Sort),
    /// What they declare by `var` alone.
    Variables,
    /// The parameters of a function, and what the body behind them declares.
    FunctionScope,
    /// Those of a catch, and what its body declares, functions so.
    CatchScope(Sort),
}
