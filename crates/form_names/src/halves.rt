// As what a private name was declared so far.
ghost use Rattle.std.specs.Prelude.{◌≡◌, ℕ, List, IfOk, if◌then◌else◌};
ghost use Rattle.std.specs.Str.{bytes_eq};
ghost use Rattle.form_names.specs.Names.{known_at};
ghost use Rattle.form_names.specs.Halves.{no_halves, with_half, any_repeated};

use form_rules::Half;
use name_digest::digest;
use std::alloc::AllocError;
use std::collections::BTreeMap;

/// A flag for a whole property, and for each half of one by whether it is static.
#[derive(Clone, Copy, Debug, PartialEq, Eq)]
pub(crate) struct Halves {
    whole: bool,
    getter: bool,
    setter: bool,
    static_getter: bool,
    static_setter: bool,
}

impl Halves {
    fn none() -> Halves
        ensures { result ≡ no_halves }
    {
        Halves {
            whole: false,
            getter: false,
            setter: false,
            static_getter: false,
            static_setter: false,
        }
    }

    fn with(self, half: Half, is_static: bool) -> Halves
        ensures { result ≡ with_half half is_static self }
    {
        let mut halves = self;
        match (half, is_static) {
            (Half::Whole, _) => halves.whole = true,
            (Half::Getter, false) => halves.getter = true,
            (Half::Setter, false) => halves.setter = true,
            (Half::Getter, true) => halves.static_getter = true,
            (Half::Setter, true) => halves.static_setter = true,
        }
        halves
    }

    /// Whether one more is a repetition: all but the other half of a pair are.
    #[tactic(auto, unfolding(crate::specs::Sorts::or_if))]
    pub(crate) fn are_repeated(self, half: Half, is_static: bool) -> bool
        ensures { result ≡ any_repeated half is_static self }
    {
        let placed = self.getter || self.setter;
        let placed_static = self.static_getter || self.static_setter;
        self.whole
            || match (half, is_static) {
                (Half::Whole, _) => placed || placed_static,
                (Half::Getter, false) => self.getter || placed_static,
                (Half::Setter, false) => self.setter || placed_static,
                (Half::Getter, true) => placed || self.static_getter,
                (Half::Setter, true) => placed || self.static_setter,
            }
    }
}

/// Declares a private name, and tells as what it was declared before.
pub(crate) fn declare_half<'a>(
    known: &mut BTreeMap<(u64, &'a str), Halves>,
    name: &'a str,
    half: Half,
    is_static: bool,
) -> Result<Halves, AllocError>
    ensures before { IfOk result (λ before. before ≡ known_at no_halves known.old name.now) }
    ensures after { IfOk result (λ _. (q : List ℕ) →
        known_at no_halves known.new q
        ≡ if bytes_eq name.now q then with_half half is_static (known_at no_halves known.old q) else known_at no_halves known.old q) }
{
    let key = (digest(0, name), name);
    let before = known.get(&key).copied().unwrap_or(Halves::none());
    known.insert(key, before.with(half, is_static))?;
    Ok(before)
}
