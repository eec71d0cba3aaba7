// What a walk has found so far.
ghost use Rattle.std.specs.Prelude.{◌≡◌, [], ◌∷◌, OnOk, OnErr};
ghost use Rattle.scope_rules.specs.Site.{added, scope_site, binding_site, reference_site, scopes_among, bindings_among, references_among};

use crate::site::{BindingSite, ReferenceSite, ScopeSite};
use std::alloc::{AllocError, Global};
use std::marker::Model;

/// The scopes, declared names and used names that a walk has found, each sort in the order in which it came.
pub struct Found<'a> {
    scopes: Vec<ScopeSite>,
    bindings: Vec<BindingSite<'a>>,
    references: Vec<ReferenceSite<'a>>,
}

impl<'a> Drop for Found<'a> {
    fn drop(self) {
        let Found {
            scopes: _,
            bindings: _,
            references: _,
        } = self;
    }
}

impl<'a> Model for Found<'a> {
    ghost use Rattle.scope_rules.specs.Site.{Found};

    ghost Value = { Found };

    ghost view = { λ f. record { scopes = f.scopes.items; bindings = f.bindings.items; references = f.references.items } };
}

impl<'a> Found<'a> {
    /// Nothing so far.
    pub fn new(alloc: Global) -> Found<'a>
        ensures empty { result ≡ record { scopes = []; bindings = []; references = [] } }
    {
        Found {
            scopes: Vec::new(alloc),
            bindings: Vec::new(alloc),
            references: Vec::new(alloc),
        }
    }

    pub fn scopes(&self) -> &[ScopeSite]
        ensures scopes { result.now ≡ self.now.scopes }
    {
        self.scopes.as_slice()
    }

    pub fn bindings(&self) -> &[BindingSite<'a>]
        ensures bindings { result.now ≡ self.now.bindings }
    {
        self.bindings.as_slice()
    }

    pub fn references(&self) -> &[ReferenceSite<'a>]
        ensures references { result.now ≡ self.now.references }
    {
        self.references.as_slice()
    }

    pub fn push_scope(&mut self, scope: ScopeSite) -> Result<(), AllocError>
        ensures added { OnOk result (self.new ≡ added self.old (scope_site scope ∷ [])) }
        ensures kept { OnErr result (self.new ≡ self.old) }
    {
        self.scopes.push(scope)?;
        Ok(())
    }

    pub fn push_binding(&mut self, binding: BindingSite<'a>) -> Result<(), AllocError>
        ensures added { OnOk result (self.new ≡ added self.old (binding_site binding.entry ∷ [])) }
        ensures kept { OnErr result (self.new ≡ self.old) }
    {
        self.bindings.push(binding)?;
        Ok(())
    }

    pub fn push_reference(&mut self, reference: ReferenceSite<'a>) -> Result<(), AllocError>
        ensures added { OnOk result (self.new ≡ added self.old (reference_site reference.entry ∷ [])) }
        ensures kept { OnErr result (self.new ≡ self.old) }
    {
        self.references.push(reference)?;
        Ok(())
    }
}
