// The context of a walk.
ghost use Rattle.std.specs.Prelude.{◌≡◌, ◌++◌, [], ◌∷◌, OnOk, OnErr, List, true};
ghost use Rattle.min_context.specs.declared.ancestor.Ancestor.{Ancestor};
ghost use Rattle.min_context.specs.Above.{is_within};
ghost use Rattle.std.specs.Borrow.{sem};
ghost use Rattle.min_context.specs.Lending.{LendsState};
ghost use Rattle.min_context.specs.Asked.{seen_of, is_tree_shake_only, is_global};
ghost use Rattle.min_context.specs.Place.{Place, inside, number_or, scope_inside, told_of};

use crate::ancestor::{Above, Ancestor, Parent, Within};
use crate::state::{CompressionMode, MinifierState};
use js_syntax::{ReferenceId, ScopeId, SourceType};
use js_traverse::TraverseScoping;
use js_tree::Node;
use min_options::CompressOptions;
use min_symbols::PassChanges;
use scope_table::Scoping;
use std::alloc::{AllocError, Global};
use std::marker::Model;

/// What a walk that edits carries: the table, the nodes above, the scopes around, and what passes know.
pub struct MinifierTraverseCtx {
    pub(crate) alloc: Global,
    pub(crate) scoping: TraverseScoping,
    pub(crate) state: MinifierState,
    pub(crate) ancestors: Vec<Ancestor>,
}

/// The numbers of the innermost scope, of that in which `var` declares, and of that of the list of statements around.
#[derive(Clone, Copy)]
pub struct CurrentScopes {
    pub scope: u32,
    pub hoist_scope: u32,
    pub block_scope: u32,
}

impl Drop for MinifierTraverseCtx {
    fn drop(self) {
        let MinifierTraverseCtx {
            alloc: _,
            scoping: _,
            state: _,
            ancestors: _,
        } = self;
    }
}

impl Model for MinifierTraverseCtx {
    ghost use Rattle.min_context.specs.Seen.{Seen};

    ghost Value = { Seen };

    ghost view = { λ c. record {
      scoping = c.scoping.scoping;
      uids = c.scoping.uids;
      marked = c.state.pass_changes.marked;
      eval_dropped = c.state.pass_changes.eval_dropped;
      requested = c.state.pass_changes.requested;
      source_type = c.state.source_type;
      options = c.state.options;
      mode = c.state.mode;
      frames = c.state.body_frames.items;
      place = record { ancestors = c.ancestors.items; scope = c.scoping.current; hoist_scope = c.scoping.hoist; block_scope = c.scoping.block };
    } };
}

fn number_or(old: u32, id: Option<u32>) -> u32
    ensures { result ≡ number_or old id }
{
    match id {
        Some(id) => id,
        None => old,
    }
}

fn is_within(within: Within, at: u32) -> bool
    ensures { result ≡ is_within within at }
{
    match within {
        Within::None => false,
        Within::All => true,
        Within::BehindFirst => at != 0,
    }
}

fn scope_inside(old: u32, above: Above, at: u32, counts: bool) -> u32
    ensures { result ≡ scope_inside old above at counts }
{
    if counts && is_within(above.within, at) {
        number_or(old, above.id)
    } else {
        old
    }
}

fn told_of(parent: Parent, at: u32, previous: bool, more: bool) -> Parent
    ensures { result ≡ told_of parent at previous more }
{
    match parent {
        Parent::Class(_) => Parent::Class(at == 2 && previous),
        Parent::Expressions(_) => Parent::Expressions(more),
        _ => parent,
    }
}

impl MinifierTraverseCtx {
    // At no place of the program.
    pub(crate) fn at_rest(
        alloc: Global,
        state: MinifierState,
        scoping: Scoping,
    ) -> MinifierTraverseCtx
        ensures rest { result ≡ seen_of state scoping }
    {
        MinifierTraverseCtx {
            alloc,
            scoping: TraverseScoping::new(scoping),
            state,
            ancestors: Vec::new(alloc),
        }
    }

    pub(crate) fn into_scoping(self) -> Scoping
        ensures scoping { result ≡ self.scoping }
    {
        let MinifierTraverseCtx {
            alloc: _,
            scoping,
            state: _,
            ancestors: _,
        } = self;
        scoping.into_scoping()
    }

    /// The table of scopes, symbols and references.
    pub fn scoping(&self) -> &Scoping
        ensures scoping { result.now ≡ self.now.scoping }
    {
        self.scoping.scoping()
    }

    /// What passes know beside the table, to be changed.
    pub fn state_mut(&mut self) -> &mut MinifierState
        ensures* writes_back { sem 𝓛 (LendsState self.entry result) }
    {
        &mut self.state
    }

    /// How the run compresses.
    pub fn options(&self) -> &CompressOptions
        ensures options { result.now ≡ self.now.options }
    {
        &self.state.options
    }

    /// What the program is.
    pub fn source_type(&self) -> SourceType
        ensures source_type { result ≡ self.now.source_type }
    {
        self.state.source_type
    }

    /// Whether dead code alone is taken out.
    pub fn is_tree_shake_only(&self) -> bool
        ensures only { result ≡ is_tree_shake_only self.now.mode }
    {
        matches!(self.state.mode, CompressionMode::TreeShakeOnly)
    }

    /// What was done since the lists were last pruned.
    pub fn pass_changes(&self) -> &PassChanges
        ensures marked { result.now.marked ≡ self.now.marked }
        ensures eval_dropped { result.now.eval_dropped ≡ self.now.eval_dropped }
        ensures requested { result.now.requested ≡ self.now.requested }
    {
        &self.state.pass_changes
    }

    /// Whether another pass is asked for.
    pub fn revisit_requested(&self) -> bool
        ensures requested { result ≡ self.now.requested }
    {
        self.state.pass_changes.revisit_requested()
    }

    /// Whether a direct call of `eval` left.
    pub fn direct_eval_dropped(&self) -> bool
        ensures dropped { result ≡ self.now.eval_dropped }
    {
        self.state.pass_changes.direct_eval_dropped()
    }

    /// Whether a reference means a name that nothing declares. A node without the number of a reference is taken for one.
    pub fn is_global_reference(&self, reference: &Node) -> bool
        ensures global { result ≡ is_global self.now.scoping reference.now.note.id }
    {
        match reference.id() {
            Some(id) if (id as usize) < self.scoping().references_len() => self
                .scoping()
                .get_reference(ReferenceId(id))
                .symbol_id()
                .is_none(),
            _ => true,
        }
    }

    /// What takes memory for the program takes it from here.
    pub fn alloc(&self) -> Global {
        self.alloc
    }

    /// The nodes above, the outermost first.
    pub fn ancestors_above(&self) -> &[Ancestor]
        ensures { result.now ≡ self.now.place.ancestors }
    {
        self.ancestors.as_slice()
    }

    /// The scopes around.
    pub fn current_scopes(&self) -> CurrentScopes
        ensures scope { result.scope ≡ self.now.place.scope }
        ensures hoist_scope { result.hoist_scope ≡ self.now.place.hoist_scope }
        ensures block_scope { result.block_scope ≡ self.now.place.block_scope }
    {
        CurrentScopes {
            scope: self.scoping.current_scope_id().0,
            hoist_scope: self.scoping.current_hoist_scope_id().0,
            block_scope: self.scoping.current_block_scope_id().0,
        }
    }

    fn set_current_scopes(&mut self, scopes: CurrentScopes)
        ensures { self.new ≡ record self.old { place = record { ancestors = self.old.place.ancestors; scope = scopes.scope; hoist_scope = scopes.hoist_scope; block_scope = scopes.block_scope } } }
    {
        self.scoping.set_current_scope_id(ScopeId(scopes.scope));
        self.scoping
            .set_current_hoist_scope_id(ScopeId(scopes.hoist_scope));
        self.scoping
            .set_current_block_scope_id(ScopeId(scopes.block_scope));
    }

    /// The walk goes to the child at an index below a node; `previous` says whether the one before it is there, and `more` whether there
    /// are more behind it.
    pub fn enter(
        &mut self,
        above: Above,
        at: u32,
        previous: bool,
        more: bool,
    ) -> Result<(), AllocError>
        ensures entered { OnOk result (self.new ≡ record self.old { place = inside self.old.place above at previous more }) }
    {
        self.ancestors.push(Ancestor::Field(told_of(above.parent, at, previous, more), at))?;
        let scopes = self.current_scopes();
        self.set_current_scopes(CurrentScopes {
            scope: scope_inside(scopes.scope, above, at, true),
            hoist_scope: scope_inside(scopes.hoist_scope, above, at, above.hoists),
            block_scope: scope_inside(scopes.block_scope, above, at, above.is_of_list),
        });
        Ok(())
    }

    /// The walk goes back to the parent, in whose place these were the scopes.
    pub fn leave(&mut self, scopes: CurrentScopes)
        ensures left { (p : Place) (a : Ancestor) → self.old.place.ancestors ≡ p.ancestors ++ (a ∷ []) → p.scope ≡ scopes.scope → p.hoist_scope ≡ scopes.hoist_scope → p.block_scope ≡ scopes.block_scope → self.new ≡ record self.old { place = p } }
    {
        self.ancestors.pop();
        self.set_current_scopes(scopes);
    }

    /// Another pass is asked for.
    pub fn notice_change(&mut self)
        ensures requested { self.new ≡ record self.old { requested = true } }
    {
        self.state.pass_changes.request_revisit();
    }
}
