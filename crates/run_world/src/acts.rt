// The acts that all others are made of.
ghost use Rattle.std.specs.Prelude.{◌≡◌, ◌∷◌, ℕ, List, Option, Some, IfOk, OnOk, map, string_bytes, if◌then◌else◌};
ghost use Rattle.js_meaning.specs.Value as meant;
ghost use Rattle.js_meaning.specs.State.{M, alloc, read, store, identity, raise, get_global, set_global, get_import, set_import, spend, with_moves, set_moves, set_exports, done, stop};
ghost use Rattle.js_meaning.specs.Trace as trace;
ghost use Rattle.js_meaning.specs.State as state;
ghost use Rattle.run_value.specs.View.{value_of, error_of};
ghost use Rattle.run_names.specs.Held.{held};
ghost use Rattle.run_world.specs.World.{at, cell_of, export_of, stored, named_in, foreign_in, maybe_value, completion_of, moves_of};

use crate::world::{Cell, Completion, Export, Foreign, Move, Named, Stored, World};
use run_value::{ErrorKind, Value};
use std::alloc::{AllocError, Global};
use std::rc::Rc;

pub(crate) fn copy_maybe<'a>(value: &Option<Value<'a>>) -> Result<Option<Value<'a>>, AllocError>
    ensures { IfOk result (λ v. maybe_value v ≡ maybe_value value.now) }
{
    match value {
        Some(value) => {
            let value = value.copy()?;
            Ok(Some(value))
        }
        None => Ok(None),
    }
}

fn stored<'a>(cells: &[Stored<'a>], number: usize) -> Result<Cell<'a>, AllocError>
    ensures { IfOk result (λ c. cell_of c ≡ stored cells.now number) }
{
    match cells {
        [first, others @ ..] => {
            if first.number == number {
                let value = copy_maybe(&first.cell.value)?;
                let constant = first.cell.constant;
                Ok(Cell { constant, value })
            } else {
                stored(others, number)
            }
        }
        [] => Ok(Cell {
            constant: true,
            value: None,
        }),
    }
}

fn named_in<'a>(named: &[Named<'a>], name: &str) -> Result<Option<Value<'a>>, AllocError>
    ensures { IfOk result (λ v. maybe_value v ≡ named_in named.now name.now) }
{
    match named {
        [first, others @ ..] => {
            if name == first.name.as_str() {
                copy_maybe(&first.value)
            } else {
                named_in(others, name)
            }
        }
        [] => Ok(None),
    }
}

fn foreign_in<'a>(
    foreign: &[Foreign<'a>],
    source: &str,
    name: &str,
) -> Result<Option<Value<'a>>, AllocError>
    ensures { IfOk result (λ v. maybe_value v ≡ foreign_in foreign.now source.now name.now) }
{
    match foreign {
        [first, others @ ..] => {
            if source == first.source.as_str() && name == first.name.as_str() {
                copy_maybe(&first.value)
            } else {
                foreign_in(others, source, name)
            }
        }
        [] => Ok(None),
    }
}

pub(crate) fn put_first<T: Drop>(items: &mut Vec<T>, first: T) -> Result<(), AllocError>
    ensures put { OnOk result (items.new.items ≡ first ∷ items.old.items) }
{
    items.insert(0, first)?;
    Ok(())
}

pub(crate) fn in_front<T: Drop>(first: T, others: Vec<T>) -> Result<Vec<T>, AllocError>
    ensures { IfOk result (λ v. v.items ≡ first ∷ others.items) }
{
    let mut all = others;
    all.insert(0, first)?;
    Ok(all)
}

impl<'a> World<'a> {
    /// Makes a cell, and answers its number. Should the numbers end, that is an end of memory.
    #[tactic(auto, unfolding(js_meaning::specs::State::alloc))]
    pub fn alloc(&mut self, cell: Cell<'a>) -> Result<usize, AllocError>
        ensures does { IfOk result (λ i. (k : ℕ → M) → at self.old (alloc (cell_of cell.entry) k) ≡ at self.new (k i)) }
    {
        let number = self.fresh;
        if number == usize::MAX {
            return Err(AllocError);
        }
        put_first(&mut self.cells, Stored { number, cell })?;
        self.fresh = number + 1;
        Ok(number)
    }

    /// The cell of a number.
    #[tactic(auto, unfolding(js_meaning::specs::State::read))]
    pub fn read(&self, number: usize) -> Result<Cell<'a>, AllocError>
        ensures { IfOk result (λ c. (k : state.Cell → M) → at self.now (read number k) ≡ at self.now (k (cell_of c))) }
    {
        stored(self.cells.as_slice(), number)
    }

    /// Puts a cell in the place of the one of this number.
    #[tactic(auto, unfolding(js_meaning::specs::State::store))]
    pub fn store(&mut self, number: usize, cell: Cell<'a>) -> Result<(), AllocError>
        ensures does { OnOk result ((m : M) → at self.old (store number (cell_of cell.entry) m) ≡ at self.new m) }
    {
        put_first(&mut self.cells, Stored { number, cell })
    }

    /// The number of a new object. Should the numbers end, that is an end of memory.
    #[tactic(auto, unfolding(js_meaning::specs::State::identity))]
    pub fn identity(&mut self) -> Result<usize, AllocError>
        ensures does { IfOk result (λ i. (k : ℕ → M) → at self.old (identity k) ≡ at self.new (k i)) }
    {
        let number = self.fresh;
        if number == usize::MAX {
            return Err(AllocError);
        }
        self.fresh = number + 1;
        Ok(number)
    }

    /// Throws an error of this kind.
    pub fn raise(&mut self, kind: ErrorKind) -> Result<Completion<'a>, AllocError>
        ensures does { IfOk result (λ c. at self.old (raise (error_of kind)) ≡ at self.new (done (completion_of c))) }
    {
        let number = self.identity()?;
        Ok(Completion::Throws(Value::Error(number, kind)))
    }

    /// The global of a name.
    #[tactic(auto, unfolding(js_meaning::specs::State::get_global))]
    pub fn get_global(&self, name: &str) -> Result<Option<Value<'a>>, AllocError>
        ensures { IfOk result (λ v. (k : Option meant.Value → M) → at self.now (get_global name.now k) ≡ at self.now (k (maybe_value v))) }
    {
        named_in(self.globals.as_slice(), name)
    }

    /// Sets or removes a global.
    #[tactic(auto, unfolding(js_meaning::specs::State::set_global))]
    pub fn set_global(
        &mut self,
        name: Rc<String>,
        value: Option<Value<'a>>,
    ) -> Result<(), AllocError>
        ensures does { OnOk result ((m : M) → at self.old (set_global (string_bytes name.value) (maybe_value value.entry) m) ≡ at self.new m) }
    {
        put_first(&mut self.globals, Named { name, value })
    }

    /// What a source exports under a name.
    #[tactic(auto, unfolding(js_meaning::specs::State::get_import))]
    pub fn get_import(&self, source: &str, name: &str) -> Result<Option<Value<'a>>, AllocError>
        ensures { IfOk result (λ v. (k : Option meant.Value → M) → at self.now (get_import source.now name.now k) ≡ at self.now (k (maybe_value v))) }
    {
        foreign_in(self.imports.as_slice(), source, name)
    }

    /// Sets what a source exports under a name, or makes it uninitialised.
    #[tactic(auto, unfolding(js_meaning::specs::State::set_import))]
    pub fn set_import(
        &mut self,
        source: Rc<String>,
        name: Rc<String>,
        value: Option<Value<'a>>,
    ) -> Result<(), AllocError>
        ensures does { OnOk result ((m : M) → at self.old (set_import (string_bytes source.value) (string_bytes name.value) (maybe_value value.entry) m) ≡ at self.new m) }
    {
        put_first(
            &mut self.imports,
            Foreign {
                source,
                name,
                value,
            },
        )
    }

    /// Spends one entry, or answers that none is left.
    #[tactic(auto, unfolding(js_meaning::specs::State::spend, js_meaning::specs::State::stop))]
    pub fn spend(&mut self) -> bool
        ensures { (m : M) → at self.old (spend m) ≡ at self.new (if result then m else stop trace.Ending.out) }
    {
        if self.budget == 0 {
            false
        } else {
            self.budget -= 1;
            true
        }
    }

    /// What the host has still to do.
    #[tactic(auto, unfolding(js_meaning::specs::State::with_moves))]
    pub fn moves(&self) -> &'a [Move]
        ensures { (k : List trace.Move → M) → at self.now (with_moves k) ≡ at self.now (k (moves_of result.now)) }
    {
        self.moves
    }

    /// Leaves the host these moves.
    #[tactic(auto, unfolding(js_meaning::specs::State::set_moves))]
    pub fn set_moves(&mut self, moves: &'a [Move])
        ensures does { (m : M) → at self.old (set_moves (moves_of moves.now) m) ≡ at self.new m }
    {
        self.moves = moves;
    }

    /// Makes these the exports.
    #[tactic(auto, unfolding(js_meaning::specs::State::set_exports))]
    pub fn set_exports(&mut self, exports: Vec<Export<'a>>, stars: Vec<&'a str>)
        ensures does { (m : M) → at self.old (set_exports (map export_of exports.entry.items) (held stars.entry.items) m) ≡ at self.new m }
    {
        self.exports = exports;
        self.stars = stars;
    }
}
