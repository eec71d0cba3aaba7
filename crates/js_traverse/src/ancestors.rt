// The scopes around a scope, one after another.
ghost use Rattle.std.specs.Prelude.{◌≡◌, option_map};
ghost use Rattle.std.specs.Iterator.{YieldsFirstBy, item_count};
ghost use Rattle.scope_table.specs.Reading.{scope_at, ancestors};

use js_syntax::ScopeId;
use scope_table::Scoping;
use std::marker::Model;

/// Scopes from one up, the innermost first. They are no more than the table has, even if it said that scopes stand in a
/// circle.
#[derive(Drop)]
pub struct AncestorScopes<'a> {
    scoping: &'a Scoping,
    next: Option<ScopeId>,
    left: usize,
}

impl<'a> Model for AncestorScopes<'a> {
    ghost use Rattle.std.specs.Prelude.{ℕ, List, option_map};
    ghost use Rattle.scope_table.specs.Reading.{scopes_up};

    ghost Value = { List ℕ };

    ghost view = { λ a. scopes_up a.left a.scoping.now (option_map (λ n. n.0) a.next) };
}

fn parent_of(scoping: &Scoping, scope: ScopeId) -> Option<ScopeId>
    ensures { option_map (λ p. p.0) result ≡ (scope_at scoping.now scope.0).parent }
{
    if (scope.0 as usize) < scoping.scopes_len() {
        scoping.scope_parent_id(scope)
    } else {
        None
    }
}

impl<'a> AncestorScopes<'a> {
    pub(crate) fn of(scoping: &'a Scoping, scope: ScopeId) -> AncestorScopes<'a>
        ensures { result ≡ ancestors scoping.now scope.0 }
    {
        AncestorScopes {
            scoping,
            next: Some(scope),
            left: scoping.scopes_len(),
        }
    }
}

impl<'a> Iterator for AncestorScopes<'a> {
    type Item = ScopeId;

    ghost next_gives = { YieldsFirstBy (λ s. s.0) (λ s. s) };

    ghost remaining = { item_count (λ s. s) };

    #[tactic(auto, using(crate::proofs::Upward::none_up, crate::proofs::Upward::one_up))]
    fn next(&mut self) -> Option<ScopeId> {
        if self.left == 0 {
            return None;
        }
        let Some(scope) = self.next else {
            return None;
        };
        self.left -= 1;
        self.next = parent_of(self.scoping, scope);
        Some(scope)
    }
}
