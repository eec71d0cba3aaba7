// Where names are declared.

/// Which names of a scope. A function has its parameters around the names of its body, and a function
/// expression its own name around both (ECMA-262 10.2.11, 15.2.5); every other scope has a body alone.
#[derive(Clone, Copy, Debug, PartialEq, Eq)]
pub enum Part {
    OwnName,
    Parameters,
    Body,
}

/// Names that stand together: those of one part of the scope of this number.
#[derive(Clone, Copy, Debug, PartialEq, Eq)]
pub struct Layer {
    pub scope: u32,
    pub part: Part,
}

/// How what stands at a place is used: its value, or it is assigned, or its value and a write
/// (ECMA-262 13.15, 13.4), or as the object of a member that is assigned.
#[derive(Clone, Copy, Debug, PartialEq, Eq)]
pub enum Role {
    Read,
    Write,
    ReadAndWrite,
    Object,
}
