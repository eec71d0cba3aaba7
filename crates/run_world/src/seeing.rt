// What the host is shown, and what it names.
ghost use Rattle.std.specs.Prelude.{◌≡◌, List, map, IfOk, OnOk, codes, if◌then◌else◌};
ghost use Rattle.js_meaning.specs.Value as meant;
ghost use Rattle.js_meaning.specs.Trace as trace;
ghost use Rattle.js_meaning.specs.State as state;
ghost use Rattle.js_meaning.specs.State.{M, unknown, put_event};
ghost use Rattle.js_meaning.specs.Show.{show, show_all, show_cell, show_export, show_exports, with_shown_exports, emit, nth, named, if_some, resolve, resolve_all};
ghost use Rattle.run_value.specs.View.{value_of};
ghost use Rattle.run_value.specs.Name.{slot_of};
ghost use Rattle.run_value.specs.ShownView.{shown_of, given_of};
ghost use Rattle.run_value.specs.Trace.{act_of, all_of, export_of, exports_of, texts_of};
ghost use Rattle.run_world.specs.World.{at, cell_of, maybe_value, values_of, givens_of};
ghost use Rattle.run_world.specs.World as world;
ghost use Rattle.run_world.specs.Going.{goes_on, goes_on_all, goes_on_shown, if_all};

use crate::acts::in_front;
use crate::world::{Cell, Export, World};
use run_value::{Act, Event, Given, Shown, ShownExport, ShownExports, Slot, Value, show_value};
use std::alloc::{AllocError, Global};

fn copy_exports<'a>(alloc: Global, exports: &[Export<'a>]) -> Result<Vec<Export<'a>>, AllocError>
    ensures { IfOk result (λ v. v.items ≡ exports.now) }
{
    let mut copies = Vec::new(alloc);
    for export in exports {
        copies.push(*export)?;
    }
    Ok(copies)
}

fn texts(alloc: Global, names: &[&str]) -> Result<Vec<String>, AllocError>
    ensures { IfOk result (λ v. texts_of v.items ≡ map (λ s. s.now) names.now) }
{
    let mut all = Vec::new(alloc);
    for name in names {
        let text = String::from_str(alloc, name)?;
        all.push(text)?;
    }
    Ok(all)
}

fn nth<'a>(seen: &[Value<'a>], number: usize) -> Result<Option<Value<'a>>, AllocError>
    ensures { IfOk result (λ v. maybe_value v ≡ nth (values_of seen.now) number) }
{
    match seen {
        [first, others @ ..] => {
            if number == 0 {
                let value = first.copy()?;
                Ok(Some(value))
            } else {
                nth(others, number - 1)
            }
        }
        [] => Ok(None),
    }
}

impl<'a> World<'a> {
    /// Shows a value.
    #[tactic(auto, unfolding(js_meaning::specs::Show::show))]
    pub fn show(&mut self, alloc: Global, value: &Value<'a>) -> Result<Shown, AllocError>
        ensures does { IfOk result (λ x. (k : meant.Shown → M) → at self.old (show (value_of value.now) k) ≡ at self.new (k (shown_of x))) }
    {
        let shown = show_value(alloc, value, &mut self.seen)?;
        Ok(shown)
    }

    /// Shows values, one after another.
    #[tactic(auto, unfolding(js_meaning::specs::Show::show_all))]
    pub fn show_all(
        &mut self,
        alloc: Global,
        values: &[Value<'a>],
    ) -> Result<Vec<Shown>, AllocError>
        ensures does { IfOk result (λ xs. (k : List meant.Shown → M) → at self.old (show_all (values_of values.now) k) ≡ at self.new (k (all_of xs.items))) }
    {
        match values {
            [first, others @ ..] => {
                let first = self.show(alloc, first)?;
                let others = self.show_all(alloc, others)?;
                in_front(first, others)
            }
            [] => Ok(Vec::new(alloc)),
        }
    }

    fn show_cell(
        &mut self,
        alloc: Global,
        name: &str,
        cell: &Cell<'a>,
    ) -> Result<ShownExport, AllocError>
        ensures does { IfOk result (λ x. (k : trace.ShownExport → M) → at self.old (show_cell name.now (cell_of cell.now) k) ≡ at self.new (k (export_of x))) }
    {
        let name = String::from_str(alloc, name)?;
        match &cell.value {
            Some(value) => {
                let shown = self.show(alloc, value)?;
                Ok(ShownExport::Value { name, shown })
            }
            None => Ok(ShownExport::Uninitialised(name)),
        }
    }

    fn show_export(
        &mut self,
        alloc: Global,
        export: Export<'a>,
    ) -> Result<Option<ShownExport>, AllocError>
        ensures does { IfOk result (λ x. (k : trace.ShownExport → M) → at self.old (show_export export.entry.name.now (slot_of export.entry.slot) k) ≡ at self.new (goes_on x k)) }
    {
        match export.slot {
            Slot::Local(number) => {
                let cell = self.read(number)?;
                let shown = self.show_cell(alloc, export.name, &cell)?;
                Ok(Some(shown))
            }
            Slot::Imported { source, name } => {
                let imported = String::from_str(alloc, name)?;
                let source = String::from_str(alloc, source)?;
                let name = String::from_str(alloc, export.name)?;
                Ok(Some(ShownExport::Import {
                    name,
                    source,
                    imported,
                }))
            }
            Slot::ArgumentsObject => Ok(None),
        }
    }

    #[tactic(auto, unfolding(js_meaning::specs::Show::show_exports))]
    fn show_exports(
        &mut self,
        alloc: Global,
        exports: &[Export<'a>],
    ) -> Result<Option<Vec<ShownExport>>, AllocError>
        ensures does { IfOk result (λ xs. (k : List trace.ShownExport → M) → at self.old (show_exports (map world.export_of exports.now) k) ≡ at self.new (goes_on_all xs k)) }
    {
        match exports {
            [first, others @ ..] => {
                let first = self.show_export(alloc, *first)?;
                match first {
                    Some(first) => {
                        let others = self.show_exports(alloc, others)?;
                        match others {
                            Some(others) => {
                                let all = in_front(first, others)?;
                                Ok(Some(all))
                            }
                            None => Ok(None),
                        }
                    }
                    None => Ok(None),
                }
            }
            [] => Ok(Some(Vec::new(alloc))),
        }
    }

    /// The exports as they are now: `None` where nothing is said of them.
    #[tactic(auto, unfolding(js_meaning::specs::State::with_exports))]
    pub fn shown_exports(&mut self, alloc: Global) -> Result<Option<ShownExports>, AllocError>
        ensures does { IfOk result (λ x. (k : trace.ShownExports → M) → at self.old (with_shown_exports k) ≡ at self.new (goes_on_shown x k)) }
    {
        let exports = copy_exports(alloc, self.exports.as_slice())?;
        let stars = texts(alloc, self.stars.as_slice())?;
        let names = self.show_exports(alloc, exports.as_slice())?;
        match names {
            Some(names) => Ok(Some(ShownExports { names, stars })),
            None => Ok(None),
        }
    }

    #[tactic(auto, unfolding(js_meaning::specs::State::put_event))]
    fn put_event(&mut self, act: Act, exports: ShownExports) -> Result<(), AllocError>
        ensures does { OnOk result ((m : M) → at self.old (put_event (record { act = act_of act; exports = exports_of exports }) m) ≡ at self.new m) }
    {
        self.trace.push(Event { act, exports })?;
        Ok(())
    }

    /// An event, with the exports as they are then: false where nothing is said of what follows.
    #[tactic(auto, unfolding(js_meaning::specs::Show::emit))]
    pub fn emit(&mut self, alloc: Global, act: Act) -> Result<bool, AllocError>
        ensures does { IfOk result (λ b. (m : M) → at self.old (emit (act_of act) m) ≡ at self.new (if b then m else unknown)) }
    {
        let exports = self.shown_exports(alloc)?;
        match exports {
            Some(exports) => {
                self.put_event(act, exports)?;
                Ok(true)
            }
            None => Ok(false),
        }
    }

    /// The value that the host names: `None` where it has seen no such own object.
    #[tactic(auto, unfolding(js_meaning::specs::Show::resolve))]
    pub fn resolve(&self, given: &Given) -> Result<Option<Value<'a>>, AllocError>
        ensures { IfOk result (λ v. (k : meant.Value → M) → at self.now (resolve (given_of given.now) k) ≡ at self.now (if_some (maybe_value v) k)) }
    {
        match given {
            Given::Plain(plain) => {
                let plain = plain.copy()?;
                Ok(Some(Value::Plain(plain)))
            }
            Given::Own(number) => nth(self.seen.as_slice(), *number),
        }
    }

    /// The values that the host names, or `None` where it can't name one of them.
    #[tactic(auto, unfolding(js_meaning::specs::Show::resolve_all))]
    pub fn resolve_all(
        &self,
        alloc: Global,
        givens: &[Given],
    ) -> Result<Option<Vec<Value<'a>>>, AllocError>
        ensures { IfOk result (λ vs. (k : List meant.Value → M) → at self.now (resolve_all (givens_of givens.now) k) ≡ at self.now (if_all vs k)) }
    {
        match givens {
            [first, others @ ..] => {
                let first = self.resolve(first)?;
                match first {
                    Some(first) => {
                        let others = self.resolve_all(alloc, others)?;
                        match others {
                            Some(others) => {
                                let all = in_front(first, others)?;
                                Ok(Some(all))
                            }
                            None => Ok(None),
                        }
                    }
                    None => Ok(None),
                }
            }
            [] => Ok(Some(Vec::new(alloc))),
        }
    }
}
