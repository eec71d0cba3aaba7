// Environments.
ghost use Rattle.std.specs.Prelude.{◌≡◌, [], ◌∷◌, IfOk, map};
ghost use Rattle.std.specs.Option.{option_map};
ghost use Rattle.js_meaning.specs.Value.{bound};
ghost use Rattle.js_meaning.specs.Scope.{look};
ghost use Rattle.run_value.specs.Name.{slot_of, bound_of, maybe_slot};

use std::alloc::{AllocError, Global};
use std::marker::Model;
use std::rc::Rc;

/// What a name is bound to: the cell of a number, what the module of a source exports under a name, or
/// the arguments object.
#[derive(Clone, Copy, Drop)]
pub enum Slot<'a> {
    Local(usize),
    Imported { source: &'a str, name: &'a str },
    ArgumentsObject,
}

/// A name and what it is bound to.
#[derive(Clone, Copy, Drop)]
pub struct Bound<'a> {
    pub name: &'a str,
    pub slot: Slot<'a>,
}

/// The names around a piece of a program, the innermost first.
pub struct Env<'a> {
    names: Rc<Vec<Bound<'a>>>,
}

impl<'a> Drop for Env<'a> {
    fn drop(self) {
        let Env { names: _ } = self;
    }
}

impl<'a> Model for Env<'a> {
    ghost use Rattle.std.specs.Prelude.{map};
    ghost use Rattle.js_meaning.specs.Value.{Env};
    ghost use Rattle.run_value.specs.Code.{env_code};

    ghost Value = { Env };

    ghost coded = { env_code };

    ghost use Rattle.run_value.specs.Name.{bound_of};

    ghost view = { λ e. map bound_of e.names.value.items };
}

fn slot_among<'a>(names: &[Bound<'a>], name: &str) -> Option<Slot<'a>>
    ensures { maybe_slot result ≡ look (map bound_of names.now) name.now }
{
    for bound in names {
        if bound.name == name {
            return Some(bound.slot);
        }
    }
    None
}

fn in_front<'a>(
    alloc: Global,
    first: Bound<'a>,
    names: &[Bound<'a>],
) -> Result<Vec<Bound<'a>>, AllocError>
    ensures { IfOk result (λ v. map bound_of v.items ≡ bound_of first.entry ∷ map bound_of names.now) }
{
    let mut all = Vec::new(alloc);
    all.push(first)?;
    for bound in names {
        all.push(*bound)?;
    }
    Ok(all)
}

impl<'a> Env<'a> {
    /// No names.
    pub fn new(alloc: Global) -> Result<Env<'a>, AllocError>
        ensures { IfOk result (λ e. e ≡ []) }
    {
        let names = Rc::new(alloc, Vec::new(alloc))?;
        Ok(Env { names })
    }

    /// The same once more.
    pub fn copy(&self) -> Result<Env<'a>, AllocError>
        ensures { IfOk result (λ e. e ≡ self.now) }
    {
        let names = self.names.clone()?;
        Ok(Env { names })
    }

    /// What a name is bound to: the innermost counts.
    pub fn look(&self, name: &str) -> Option<Slot<'a>>
        ensures { maybe_slot result ≡ look self.now name.now }
    {
        slot_among(self.names.as_slice(), name)
    }

    /// These with one more, which is the innermost.
    pub fn with(&self, alloc: Global, name: &'a str, slot: Slot<'a>) -> Result<Env<'a>, AllocError>
        ensures { IfOk result (λ e. e ≡ bound name.now (slot_of slot.entry) ∷ self.now) }
    {
        let names = in_front(alloc, Bound { name, slot }, self.names.as_slice())?;
        let names = Rc::new(alloc, names)?;
        Ok(Env { names })
    }
}
