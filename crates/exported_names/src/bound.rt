// Which references have a symbol.
ghost use Rattle.std.specs.Prelude.{◌≡◌, ◌<◌, length, IfOk};
ghost use Rattle.rules.specs.DeadCode.Knows.{TellsBound};
ghost use Rattle.exported_names.specs.Answers.{is_bound, bound_of};

use js_syntax::ReferenceId;
use scope_table::Scoping;
use std::alloc::{AllocError, Global};

fn is_bound(scoping: &Scoping, reference: ReferenceId) -> bool
    requires { reference.0 < length scoping.now.references }
    ensures { result ≡ is_bound scoping.now reference.0 }
{
    scoping.get_reference(reference).symbol_id().is_some()
}

/// Of each reference by its id, whether it has a symbol.
pub fn bound_references(alloc: Global, scoping: &Scoping) -> Result<Vec<bool>, AllocError>
    ensures exact { IfOk result (λ v. v.items ≡ bound_of scoping.now) }
    ensures bound { IfOk result (λ v. TellsBound scoping.now v.items) }
{
    let mut bound = Vec::new(alloc);
    for number in 0..scoping.references_len() {
        bound.push(is_bound(scoping, ReferenceId(number as u32)))?;
    }
    Ok(bound)
}
