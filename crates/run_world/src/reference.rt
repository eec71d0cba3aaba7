// Reading and writing names (ECMA-262 6.2.5, 9.1).
ghost use Rattle.std.specs.Prelude.{◌≡◌, Option, Some, false, codes, IfOk};
ghost use Rattle.js_meaning.specs.State.{M, give, raise, set_global, store, unknown};
ghost use Rattle.js_meaning.specs.State.{cell as state_cell};
ghost use Rattle.js_meaning.specs.Value as meant;
ghost use Rattle.js_meaning.specs.Value.{undef};
ghost use Rattle.js_meaning.specs.Reference.{global_named, if_set, cell_value, slot_value, if_there, global_value, name_value, or_undefined, typeof_name, assign_cell, assign_import, assign_slot, assign_present, assign_global, name_place};
ghost use Rattle.run_value.specs.View.{value_of, error_of};
ghost use Rattle.run_value.specs.Name.{slot_of, maybe_slot};
ghost use Rattle.run_world.specs.World.{at, cell_of, maybe_value, replies};
ghost use Rattle.run_world.specs.Named.{global_of, found};

use crate::world::{Cell, Completion, Place, Reply, World};
use run_value::{Act, Ending, ErrorKind, Plain, Slot, Value};
use std::alloc::{AllocError, Global};
use std::rc::Rc;

// The global names that no script sets (19.1).
#[derive(Clone, Copy)]
enum Fixed {
    Undefined,
    NoWholeNumber,
    Usual,
}

// What is found of a global name: what it says by itself, or what a script gave.
enum Found<'a> {
    Says(Reply<'a>),
    Holds(Option<Value<'a>>),
}

fn global_named(name: &str) -> Fixed
    ensures { global_of result ≡ global_named name.now }
{
    if name == "undefined" {
        Fixed::Undefined
    } else if name == "NaN" || name == "Infinity" {
        Fixed::NoWholeNumber
    } else {
        Fixed::Usual
    }
}

fn undefined<'a>() -> Value<'a>
    ensures { value_of result ≡ undef }
{
    Value::Plain(Plain::Undefined)
}

/// Gives a value, with no receiver.
pub fn gives<'a>(value: Value<'a>) -> Reply<'a>
    ensures { replies result ≡ give (value_of value.entry) }
{
    Reply::Completes(Completion::Gives(value, undefined()))
}

/// Nothing is said of what follows.
pub fn unknown<'a>() -> Reply<'a>
    ensures { replies result ≡ unknown }
{
    Reply::Stops(Ending::Uncovered)
}

fn if_set<'a>(value: Option<Value<'a>>) -> Reply<'a>
    ensures { replies result ≡ if_set (maybe_value value.entry) }
{
    match value {
        Some(value) => gives(value),
        None => unknown(),
    }
}

impl<'a> World<'a> {
    /// The value of what a name is bound to.
    pub fn slot_value(&self, slot: Slot<'a>) -> Result<Reply<'a>, AllocError>
        ensures { IfOk result (λ r. at self.now (slot_value (slot_of slot.entry)) ≡ at self.now (replies r)) }
    {
        match slot {
            Slot::Local(number) => {
                let cell = self.read(number)?;
                Ok(if_set(cell.into_value()))
            }
            Slot::Imported { source, name } => {
                let value = self.get_import(source, name)?;
                Ok(if_set(value))
            }
            Slot::ArgumentsObject => Ok(unknown()),
        }
    }

    // An error of this kind is thrown.
    fn raises(&mut self, kind: ErrorKind) -> Result<Reply<'a>, AllocError>
        ensures does { IfOk result (λ r. at self.old (raise (error_of kind)) ≡ at self.new (replies r)) }
    {
        let thrown = self.raise(kind)?;
        Ok(Reply::Completes(thrown))
    }

    // What a global name says by itself, or what there is of this name.
    fn look_up(&self, name: &str) -> Result<Found<'a>, AllocError>
        ensures { IfOk result (λ g. (k : Option meant.Value → M) → at self.now (global_value (global_named name.now) name.now k) ≡ at self.now (found g k)) }
    {
        match global_named(name) {
            Fixed::Undefined => Ok(Found::Says(gives(undefined()))),
            Fixed::NoWholeNumber => Ok(Found::Says(unknown())),
            Fixed::Usual => {
                let value = self.get_global(name)?;
                Ok(Found::Holds(value))
            }
        }
    }

    /// The value of a global, which has to be there (6.2.5.5).
    pub fn global_value(&mut self, name: &str) -> Result<Reply<'a>, AllocError>
        ensures does { IfOk result (λ r. at self.old (global_value (global_named name.now) name.now if_there) ≡ at self.new (replies r)) }
    {
        match self.look_up(name)? {
            Found::Says(reply) => Ok(reply),
            Found::Holds(Some(value)) => Ok(gives(value)),
            Found::Holds(None) => self.raises(ErrorKind::ReferenceError),
        }
    }

    // `typeof` of a global that isn't there is that of undefined (13.5.3).
    fn global_or_undefined(&self, name: &str) -> Result<Reply<'a>, AllocError>
        ensures { IfOk result (λ r. at self.now (global_value (global_named name.now) name.now or_undefined) ≡ at self.now (replies r)) }
    {
        match self.look_up(name)? {
            Found::Says(reply) => Ok(reply),
            Found::Holds(Some(value)) => Ok(gives(value)),
            Found::Holds(None) => Ok(gives(undefined())),
        }
    }

    /// The value of a name.
    pub fn name_value(
        &mut self,
        slot: Option<Slot<'a>>,
        name: &str,
    ) -> Result<Reply<'a>, AllocError>
        ensures does { IfOk result (λ r. at self.old (name_value (maybe_slot slot.entry) name.now) ≡ at self.new (replies r)) }
    {
        match slot {
            Some(slot) => self.slot_value(slot),
            None => self.global_value(name),
        }
    }

    /// The value of a name as the operand of `typeof`.
    pub fn typeof_name(
        &mut self,
        slot: Option<Slot<'a>>,
        name: &str,
    ) -> Result<Reply<'a>, AllocError>
        ensures does { IfOk result (λ r. at self.old (typeof_name (maybe_slot slot.entry) name.now) ≡ at self.new (replies r)) }
    {
        match slot {
            Some(slot) => self.slot_value(slot),
            None => self.global_or_undefined(name),
        }
    }

    /// What a name refers to, as the target of an assignment (9.4.2).
    pub fn name_place(
        &mut self,
        slot: Option<Slot<'a>>,
        name: &'a str,
    ) -> Result<Reply<'a>, AllocError>
        ensures does { IfOk result (λ r. at self.old (name_place (maybe_slot slot.entry) name.now) ≡ at self.new (replies r)) }
    {
        match slot {
            Some(slot) => Ok(Reply::Completes(Completion::Refers(Place::Slot(slot)))),
            None => {
                let value = self.get_global(name)?;
                let there = value.is_some();
                Ok(Reply::Completes(Completion::Refers(Place::Global(name, there))))
            }
        }
    }

    // The cell takes the value, which is given.
    fn put_value(&mut self, number: usize, value: Value<'a>) -> Result<Reply<'a>, AllocError>
        ensures does { IfOk result (λ r. at self.old (store number (state_cell false (Some (value_of value.entry))) (give (value_of value.entry))) ≡ at self.new (replies r)) }
    {
        let kept = value.copy()?;
        let constant = false;
        let value = Some(value);
        self.store(number, Cell { constant, value })?;
        Ok(gives(kept))
    }

    // SetMutableBinding (9.1.1.1.5) in strict code.
    fn assign_cell(
        &mut self,
        number: usize,
        value: Value<'a>,
        cell: &Cell<'a>,
    ) -> Result<Reply<'a>, AllocError>
        ensures does { IfOk result (λ r. at self.old (assign_cell number (value_of value.entry) (cell_of cell.now)) ≡ at self.new (replies r)) }
    {
        match &cell.value {
            None => Ok(unknown()),
            Some(_) => {
                if cell.constant {
                    self.raises(ErrorKind::TypeError)
                } else {
                    self.put_value(number, value)
                }
            }
        }
    }

    /// Writes what a name is bound to.
    pub fn assign_slot(&mut self, slot: Slot<'a>, value: Value<'a>) -> Result<Reply<'a>, AllocError>
        ensures does { IfOk result (λ r. at self.old (assign_slot (slot_of slot.entry) (value_of value.entry)) ≡ at self.new (replies r)) }
    {
        match slot {
            Slot::Local(number) => {
                let cell = self.read(number)?;
                self.assign_cell(number, value, &cell)
            }
            Slot::Imported { source, name } => {
                let old = self.get_import(source, name)?;
                match old {
                    Some(_) => self.raises(ErrorKind::TypeError),
                    None => Ok(unknown()),
                }
            }
            Slot::ArgumentsObject => Ok(unknown()),
        }
    }

    // The global takes the value, which is given.
    fn put_global(
        &mut self,
        alloc: Global,
        name: &str,
        value: Value<'a>,
    ) -> Result<Reply<'a>, AllocError>
        ensures does { IfOk result (λ r. at self.old (set_global name.now (Some (value_of value.entry)) (give (value_of value.entry))) ≡ at self.new (replies r)) }
    {
        let kept = value.copy()?;
        let text = String::from_str(alloc, name)?;
        let text = Rc::new(alloc, text)?;
        self.set_global(text, Some(value))?;
        Ok(gives(kept))
    }

    // A global that has to be there still (9.1.1.2.5).
    fn assign_present(
        &mut self,
        alloc: Global,
        name: &str,
        value: Value<'a>,
        old: &Option<Value<'a>>,
    ) -> Result<Reply<'a>, AllocError>
        ensures does { IfOk result (λ r. at self.old (assign_present name.now (value_of value.entry) (maybe_value old.now)) ≡ at self.new (replies r)) }
    {
        match old {
            Some(_) => {
                let shown = self.show(alloc, &value)?;
                let text = String::from_str(alloc, name)?;
                if self.emit(
                    alloc,
                    Act::Write {
                        name: text,
                        value: shown,
                    },
                )? {
                    self.put_global(alloc, name, value)
                } else {
                    Ok(unknown())
                }
            }
            None => self.raises(ErrorKind::ReferenceError),
        }
    }

    /// Writes a global, which was there or not when the assignment began.
    #[tactic(auto, unfolding(js_meaning::specs::State::choose))]
    pub fn assign_global(
        &mut self,
        alloc: Global,
        name: &str,
        there: bool,
        value: Value<'a>,
    ) -> Result<Reply<'a>, AllocError>
        ensures does { IfOk result (λ r. at self.old (assign_global (global_named name.now) name.now there (value_of value.entry)) ≡ at self.new (replies r)) }
    {
        match global_named(name) {
            Fixed::Undefined => self.raises(ErrorKind::TypeError),
            Fixed::NoWholeNumber => self.raises(ErrorKind::TypeError),
            Fixed::Usual => {
                if there {
                    let old = self.get_global(name)?;
                    self.assign_present(alloc, name, value, &old)
                } else {
                    self.raises(ErrorKind::ReferenceError)
                }
            }
        }
    }
}
