// Names that a scope declares and that clash (ECMA-262 14.2.1, 15.1.1, 14.15.1).
ghost use Rattle.std.specs.Prelude.{◌≡◌, not, IfOk};
ghost use Rattle.form_rules.specs.Break.{least, merged, unless};
ghost use Rattle.form_rules.specs.Scope.{later, clash, both_parameters, variable_of_catch};
ghost use Rattle.form_names.specs.Sorts.{any_clash};
ghost use Rattle.form_rules.specs.Rules.{each_breaks, declared_places};

use crate::places::first_unless;
use crate::sorts::{Sorts, declare};
use form_rules::{Break, Declared};
use std::alloc::{AllocError, Global};
use std::collections::BTreeMap;

/// The first clashes of a scope's names, by rule.
#[derive(Clone, Copy, Debug, PartialEq, Eq)]
pub struct Clashes {
    /// Of lexical names with any others: rule 1.
    pub lexical: Option<Break>,
    /// Of parameters with each other: rule 2.
    pub parameters: Option<Break>,
    /// Of variables with a catch's parameters: rule 9.
    pub variables: Option<Break>,
}

impl Clashes {
    // With those of one more name, which was declared before in these ways.
    fn with(self, declared: &Declared, before: Sorts) -> Clashes
        ensures lexical { result.lexical ≡ merged self.lexical (least (unless (not (any_clash clash declared.now.sort before)) declared.now.place 1)) }
        ensures parameters { result.parameters ≡ merged self.parameters (least (unless (not (any_clash both_parameters declared.now.sort before)) declared.now.place 2)) }
        ensures variables { result.variables ≡ merged self.variables (least (unless (not (any_clash variable_of_catch declared.now.sort before)) declared.now.place 9)) }
    {
        let sort = declared.sort();
        let place = declared.place();
        Clashes {
            lexical: first_unless(self.lexical, !before.clash_with(sort), place, 1),
            parameters: first_unless(self.parameters, !before.have_parameter(sort), place, 2),
            variables: first_unless(self.variables, !before.are_caught(sort), place, 9),
        }
    }
}

/// The first clashes among names that one scope declares.
pub fn first_clashes(alloc: Global, found: &[Declared]) -> Result<Clashes, AllocError>
    ensures lexical { IfOk result (λ c. c.lexical ≡ least (each_breaks 1 (declared_places (later clash found.now)))) }
    ensures parameters { IfOk result (λ c. c.parameters ≡ least (each_breaks 2 (declared_places (later both_parameters found.now)))) }
    ensures variables { IfOk result (λ c. c.variables ≡ least (each_breaks 9 (declared_places (later variable_of_catch found.now)))) }
{
    let mut known = BTreeMap::new(alloc);
    let mut first = Clashes {
        lexical: None,
        parameters: None,
        variables: None,
    };
    for declared in found {
        let before = declare(&mut known, declared.name(), declared.sort())?;
        first = first.with(declared, before);
    }
    Ok(first)
}
