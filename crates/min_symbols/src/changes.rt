// What a pass did.
ghost use Rattle.std.specs.Prelude.{◌≡◌, ◌<◌, ◌^◌, length, true, false, IfOk, IfErr};
ghost use Rattle.symbol_sets.specs.Numbers.{has, with_number, none_below};

use js_syntax::ReferenceId;
use std::alloc::{AllocError, Global};
use std::marker::Model;
use symbol_sets::{SymbolSet, VecSet};

/// What a pass did to the program: which references left, whether a direct call of `eval` left, and whether another
/// pass is asked for. There is room for a mark of each reference from the start, so no call but `new` takes memory.
#[derive(Drop)]
pub struct PassChanges {
    removed_references: VecSet,
    direct_eval_dropped: bool,
    revisit_requested: bool,
}

impl Model for PassChanges {
    ghost use Rattle.min_symbols.specs.Changes.{Changes};

    ghost Value = { Changes };

    ghost view = { λ c. record { marked = c.removed_references; eval_dropped = c.direct_eval_dropped; requested = c.revisit_requested } };
}

impl PassChanges {
    /// Nothing is done yet to a program with so many references. It fails only for want of memory.
    pub fn new(alloc: Global, references_len: u32) -> Result<PassChanges, AllocError>
        ensures nothing { IfOk result (λ c. c ≡ record { marked = none_below references_len; eval_dropped = false; requested = false }) }
    {
        let removed_references = VecSet::new(alloc, references_len)?;
        Ok(PassChanges {
            removed_references,
            direct_eval_dropped: false,
            revisit_requested: false,
        })
    }

    /// The references that left.
    pub fn removed_references(&self) -> &VecSet
        ensures marked { result.now ≡ self.now.marked }
    {
        &self.removed_references
    }

    /// Whether a direct call of `eval` left.
    pub fn direct_eval_dropped(&self) -> bool
        ensures dropped { result ≡ self.now.eval_dropped }
    {
        self.direct_eval_dropped
    }

    /// Whether another pass is asked for.
    pub fn revisit_requested(&self) -> bool
        ensures requested { result ≡ self.now.requested }
    {
        self.revisit_requested
    }

    /// A reference leaves. One past those that there is room for is not noted.
    pub fn mark(&mut self, reference: ReferenceId)
        ensures marked { self.new ≡ record self.old { marked = with_number reference.0 self.old.marked } }
    {
        self.removed_references.set_bit(reference.0);
    }

    /// A direct call of `eval` leaves.
    pub fn drop_eval(&mut self)
        ensures dropped { self.new ≡ record self.old { eval_dropped = true } }
    {
        self.direct_eval_dropped = true;
    }

    /// Another pass is asked for.
    pub fn request_revisit(&mut self)
        ensures requested { self.new ≡ record self.old { requested = true } }
    {
        self.revisit_requested = true;
    }

    /// Nothing is done yet, in the next pass.
    pub fn clear(&mut self)
        ensures nothing { self.new ≡ record { marked = none_below (length self.old.marked); eval_dropped = false; requested = false } }
    {
        self.removed_references.clear();
        self.direct_eval_dropped = false;
        self.revisit_requested = false;
    }
}
