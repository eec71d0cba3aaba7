// The pass, on a program.
ghost use Rattle.std.specs.Prelude.{◌≡◌, ◌<◌, ◌^◌, length, IfOk, OnOk, false};
ghost use Rattle.js_syntax.specs.Class.{root};
ghost use Rattle.js_syntax.specs.Node.{forest_of};
ghost use Rattle.js_tree.specs.Count.{node_count};
ghost use Rattle.js_scoping.specs.Build.{numbered};
ghost use Rattle.json_shape.specs.Shape.{Fits};
ghost use Rattle.min_context.specs.Place.{outside};
ghost use Rattle.min_traverse.specs.Edits.{Edits};
ghost use Rattle.steps.specs.Allowed.Edits.{TreeEdits};
ghost use Rattle.symbol_sets.specs.Numbers.{none_below};
ghost use Rattle.test_traverse.specs.Bodies.{empty_in_bodies};
ghost use Rattle.test_traverse.specs.Cleaning.{BodyEdit};

use crate::cleaner::BodyCleaner;
use js_scoping::build;
use js_syntax::SourceType;
use js_tree::Program;
use min_context::{CompressionMode, MinifierState, ReusableMinifierTraverseCtx};
use min_options::CompressOptions;
use min_traverse::traverse_mut_with_ctx;
use scope_table::Scoping;
use std::alloc::{AllocError, Global};

// The context of a program with this table, of which nothing is marked.
fn context_of(alloc: Global, scoping: Scoping) -> Result<ReusableMinifierTraverseCtx, AllocError>
    ensures scoping { IfOk result (λ c. c.scoping ≡ scoping) }
    ensures marked { IfOk result (λ c. c.marked ≡ none_below (length scoping.references)) }
    ensures outside { IfOk result (λ c. c.place ≡ outside) }
{
    let state = MinifierState::new(
        alloc,
        SourceType::Module,
        CompressOptions::dce(alloc),
        CompressionMode::TreeShakeOnly,
        &scoping,
    )?;
    Ok(ReusableMinifierTraverseCtx::new(alloc, state, scoping))
}

/// Takes the empty statements out of the bodies of a program's functions by one walk, and answers whether another is asked for.
/// Elsewhere they stay. The program's nodes are marked with the numbers of its scopes, symbols and references before.
///
/// It fails where memory is wanting. Then the program may be dropped, and nothing else is known of it.
pub(crate) fn clean_bodies(alloc: Global, program: &mut Program) -> Result<bool, AllocError>
    requires small { node_count (forest_of program.old) < 2 ^ 32 }
    requires fits { Fits root (forest_of program.old) }
    ensures edits { OnOk result (Edits BodyEdit (numbered (forest_of program.old)) (forest_of program.new)) }
    ensures allowed { OnOk result (TreeEdits (numbered (forest_of program.old)) (forest_of program.new)) }
    ensures fits { OnOk result (Fits root (forest_of program.new)) }
    ensures same { IfOk result (λ again. again ≡ false → forest_of program.new ≡ numbered (forest_of program.old)) }
    ensures clean { IfOk result (λ again. again ≡ false → empty_in_bodies (forest_of program.new) ≡ 0) }
{
    let scoping = build(alloc, program)?;
    let mut context = context_of(alloc, scoping)?;
    let mut cleaner = BodyCleaner {};
    traverse_mut_with_ctx(&mut cleaner, program, &mut context)?;
    Ok(context.get().revisit_requested())
}
