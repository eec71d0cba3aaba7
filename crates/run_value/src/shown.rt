// Values as the host sees them, and as it hands them in.
ghost use Rattle.std.specs.Prelude.{◌≡◌};
ghost use Rattle.run_value.specs.ShownView.{parts_of};

use crate::Plain;
use std::marker::Model;
use std::rc::Rc;

/// What an own object is.
#[derive(Clone, Copy)]
pub enum Sort {
    AFunction,
    AnObject,
    AnArray,
    ATypeError,
    AReferenceError,
}

/// A value as the host sees it. An own object has its number in the order of first showing; where it is
/// shown first, what it is and what a literal holds stand beside.
#[cycle(shown)]
pub enum Shown {
    Plainly(Plain),
    Again(usize),
    First(usize, Sort, Parts),
}

impl Drop for Shown {
    #[cycle(drop)]
    fn drop(self) {
        match self {
            Shown::Plainly(_) => {}
            Shown::Again(_) => {}
            Shown::First(_, _, _) => {}
        }
    }
}

/// What a literal is shown to hold: values, the first of which have keys.
#[cycle(shown)]
pub struct Parts {
    keys: Vec<Rc<String>>,
    values: Vec<Shown>,
}

impl Drop for Parts {
    #[cycle(drop)]
    fn drop(self) {
        let Parts { keys: _, values: _ } = self;
    }
}

impl Model for Parts {
    ghost use Rattle.js_meaning.specs.Value.{Parts};
    ghost use Rattle.run_value.specs.ShownCode.{parts_code};

    ghost Value = { Parts };

    ghost coded = { parts_code };

    ghost use Rattle.run_value.specs.ShownView.{parts_of};

    ghost view = { λ p. parts_of p.keys.items p.values.items };

    ghost use Rattle.run_value.specs.ShownWeight.{parts_size};

    ghost size = { parts_size };

    ghost use Rattle.run_value.specs.ShownSize.{deepest_in_parts};

    ghost size_decreases = { λ p h. deepest_in_parts p.keys.items p.values.items };
}

impl Parts {
    // These values, the first of which have these keys.
    pub(crate) fn new(keys: Vec<Rc<String>>, values: Vec<Shown>) -> Parts
        ensures { result ≡ parts_of keys.items values.items }
    {
        Parts { keys, values }
    }

    /// The keys and the values.
    pub fn parts(&self) -> (&[Rc<String>], &[Shown])
        ensures { parts_of result.0.now result.1.now ≡ self.now }
    {
        (self.keys.as_slice(), self.values.as_slice())
    }
}

/// A value as the host hands it in: an own object by the number under which it was shown.
pub enum Given {
    Plain(Plain),
    Own(usize),
}

impl Drop for Given {
    fn drop(self) {
        match self {
            Given::Plain(_) => {}
            Given::Own(_) => {}
        }
    }
}
