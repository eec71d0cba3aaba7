// In which ways a name was declared so far.
ghost use Rattle.std.specs.Prelude.{◌≡◌, ℕ, List, IfOk, if◌then◌else◌};
ghost use Rattle.std.specs.Str.{bytes_eq};
ghost use Rattle.form_rules.specs.Scope.{clash, both_parameters, variable_of_catch};
ghost use Rattle.form_names.specs.Names.{known_at};
ghost use Rattle.form_names.specs.Sorts.{no_sorts, with_sort, any_clash};

use form_rules::Sort;
use name_digest::digest;
use std::alloc::AllocError;
use std::collections::BTreeMap;

/// A flag for each sort.
#[derive(Clone, Copy, Debug, PartialEq, Eq)]
pub(crate) struct Sorts {
    lexical: bool,
    repeatable: bool,
    hoisted: bool,
    variable: bool,
    parameter: bool,
    catch_parameter: bool,
}

impl Sorts {
    fn none() -> Sorts
        ensures { result ≡ no_sorts }
    {
        Sorts {
            lexical: false,
            repeatable: false,
            hoisted: false,
            variable: false,
            parameter: false,
            catch_parameter: false,
        }
    }

    fn with(self, sort: Sort) -> Sorts
        ensures { result ≡ with_sort sort self }
    {
        let mut sorts = self;
        match sort {
            Sort::Lexical => sorts.lexical = true,
            Sort::Repeatable => sorts.repeatable = true,
            Sort::Hoisted => sorts.hoisted = true,
            Sort::Variable => sorts.variable = true,
            Sort::Parameter => sorts.parameter = true,
            Sort::CatchParameter => sorts.catch_parameter = true,
        }
        sorts
    }

    /// Whether one more name clashes: one of the two is lexical, and they aren't two functions that may repeat.
    #[tactic(auto, unfolding(crate::specs::Sorts::or_if))]
    pub(crate) fn clash_with(self, sort: Sort) -> bool
        ensures { result ≡ any_clash clash sort self }
    {
        let others = self.hoisted || self.variable || self.parameter || self.catch_parameter;
        match sort {
            Sort::Lexical => self.lexical || self.repeatable || others,
            Sort::Repeatable => self.lexical || others,
            Sort::Hoisted | Sort::Variable | Sort::Parameter | Sort::CatchParameter => {
                self.lexical || self.repeatable
            }
        }
    }

    /// Whether one more parameter, of a function or of a catch, repeats one of the same.
    #[tactic(auto, unfolding(crate::specs::Sorts::or_if))]
    pub(crate) fn have_parameter(self, sort: Sort) -> bool
        ensures { result ≡ any_clash both_parameters sort self }
    {
        match sort {
            Sort::Parameter => self.parameter,
            Sort::CatchParameter => self.catch_parameter,
            Sort::Lexical | Sort::Repeatable | Sort::Hoisted | Sort::Variable => false,
        }
    }

    /// Whether one more variable has the name of a catch's parameter.
    #[tactic(auto, unfolding(crate::specs::Sorts::or_if))]
    pub(crate) fn are_caught(self, sort: Sort) -> bool
        ensures { result ≡ any_clash variable_of_catch sort self }
    {
        match sort {
            Sort::Variable => self.catch_parameter,
            Sort::Lexical
            | Sort::Repeatable
            | Sort::Hoisted
            | Sort::Parameter
            | Sort::CatchParameter => false,
        }
    }
}

/// Declares a name, and tells how it was declared before.
pub(crate) fn declare<'a>(
    known: &mut BTreeMap<(u64, &'a str), Sorts>,
    name: &'a str,
    sort: Sort,
) -> Result<Sorts, AllocError>
    ensures before { IfOk result (λ before. before ≡ known_at no_sorts known.old name.now) }
    ensures after { IfOk result (λ _. (q : List ℕ) →
        known_at no_sorts known.new q
        ≡ if bytes_eq name.now q then with_sort sort (known_at no_sorts known.old q) else known_at no_sorts known.old q) }
{
    let key = (digest(0, name), name);
    let before = known.get(&key).copied().unwrap_or(Sorts::none());
    known.insert(key, before.with(sort))?;
    Ok(before)
}
