// What is known of the uses of names.
use scope_table::Scoping;
use std::marker::Model;

/// What is known of the uses of names: the table, and of each symbol by its number, whether an exported declaration declares it.
#[derive(Drop)]
pub struct Uses<'a> {
    pub scoping: &'a Scoping,
    pub exported: &'a [bool],
}

impl<'a> Model for Uses<'a> {
    ghost use Rattle.rules.specs.DeadCode.Rules.{Facts};
    ghost use Rattle.min_imports.specs.Passing.{uses_of};

    ghost Value = { Facts };

    ghost view = { λ u. uses_of u.scoping.now u.exported.now };
}
