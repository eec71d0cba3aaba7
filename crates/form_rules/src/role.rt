// What a function or a member of a class is.

/// What the function at a place is.
#[derive(Clone, Copy, Debug, PartialEq, Eq)]
pub enum Role {
    Plain,
    Method,
    DerivedConstructor,
}

/// Which half of a property a member of a class is.
#[derive(Clone, Copy, Debug, PartialEq, Eq)]
pub enum Half {
    Getter,
    Setter,
    Whole,
}
