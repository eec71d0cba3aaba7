// Rewritings of one expression.
ghost use Rattle.std.specs.Prelude.{◌≡◌, false, None, IfOk, IfErr};
ghost use Rattle.min_traverse.specs.Lawful.{Does, either};
ghost use Rattle.rules.specs.Expressions.Known.{fold_conditional, fold_logical, at_expression_end};
ghost use Rattle.rules.specs.Expressions.Unused.{fold_unused};
ghost use Rattle.rules.specs.Expressions.Lists.{fold_unused_list};
ghost use Rattle.rules.specs.Expressions.Indirect.{fold_behind_zero, fold_behind_test, fold_indirect};
ghost use Rattle.rules.specs.Expressions.OneSided.{fold_one_sided};
ghost use Rattle.rules.specs.Expressions.Sequences.{fold_sequence};
ghost use Rattle.rules.specs.Expressions.TwoSides.{fold_two_sides};
ghost use Rattle.rules.specs.Expressions.Objects.{fold_object};
ghost use Rattle.rules.specs.Expressions.Operations.{fold_to_literal, fold_to_negative, fold_known};
ghost use Rattle.rules.specs.Expressions.Uses.{spot_of};
ghost use Rattle.min_expressions.specs.Kept.{matters_at};
ghost use Rattle.min_expressions.specs.TwoSides.{sides_go, text_goes};
ghost use Rattle.min_expressions.specs.Foldable.{may_fold};

use crate::bare::matters_here;
use crate::behind_test::{branch_leaves, keep_both, keep_branch, right_follows};
use crate::indirect::{goes_behind, keep_behind_zero};
use crate::kept::{conditional_keeps, keep_child, logical_keeps};
use crate::list::{keep_list, list_goes};
use crate::object::{keep_object, object_goes};
use crate::one_sided::{keep_one_side, stays_one_sided};
use crate::operation::{known_literal, known_negative, put_literal, put_negative};
use crate::sequence::{keep_sequence, sequence_goes};
use crate::template::{keep_substitutions, template_goes};
use crate::texts::{empty_texts, texts_go};
use crate::two_sides::{empty_text, keep_two_sides, sides_go, text_goes};
use crate::unused::{keep_needed, unused_keeps};
use js_syntax::NodeKind;
use js_tree::Node;
use min_context::MinifierTraverseCtx;
use std::alloc::AllocError;

// What is decided by what is known.
fn fold_decided(node: &mut Node, ctx: &mut MinifierTraverseCtx) -> bool
    ensures { Does (either fold_conditional fold_logical) ctx.old node.old result ctx.new node.new }
{
    PeepholeOptimizations::try_fold_conditional_expression(node, ctx)
        || PeepholeOptimizations::fold_logical_expr(node, ctx)
}

// What is decided by what is known, and what becomes of an operation of which nobody takes the value.
fn fold_operation(node: &mut Node, ctx: &mut MinifierTraverseCtx) -> bool
    ensures { Does (either (either fold_conditional fold_logical) fold_unused) ctx.old node.old result ctx.new node.new }
{
    fold_decided(node, ctx) || PeepholeOptimizations::remove_unused_expression(node, ctx)
}

// What is tried before a zero is made. It takes no memory.
fn fold_without_memory(node: &mut Node, ctx: &mut MinifierTraverseCtx) -> bool
    ensures { Does (either (either (either fold_conditional fold_logical) fold_unused) fold_unused_list) ctx.old node.old result ctx.new node.new }
{
    fold_operation(node, ctx) || PeepholeOptimizations::remove_unused_list(node, ctx)
}

// What comes to stand behind a zero, or behind a test that acts.
fn fold_indirect(node: &mut Node, ctx: &mut MinifierTraverseCtx) -> Result<bool, AllocError>
    ensures does { IfOk result (λ b. Does fold_indirect ctx.old node.old b ctx.new node.new) }
    ensures refused { IfErr result (λ e. (node.new ≡ node.old) × (ctx.new ≡ ctx.old)) }
{
    if PeepholeOptimizations::put_behind_zero(node, ctx)? {
        return Ok(true);
    }
    PeepholeOptimizations::put_behind_test(node, ctx)
}

// What is tried without memory, and what comes to stand behind something.
fn fold_to_parts(node: &mut Node, ctx: &mut MinifierTraverseCtx) -> Result<bool, AllocError>
    ensures does { IfOk result (λ b. Does (either (either (either (either fold_conditional fold_logical) fold_unused) fold_unused_list) fold_indirect) ctx.old node.old b ctx.new node.new) }
    ensures refused { IfErr result (λ e. (node.new ≡ node.old) × (ctx.new ≡ ctx.old)) }
{
    if fold_without_memory(node, ctx) {
        return Ok(true);
    }
    fold_indirect(node, ctx)
}

// The same, and what becomes of a conditional of which nobody takes the value.
fn fold_but_sequences(node: &mut Node, ctx: &mut MinifierTraverseCtx) -> Result<bool, AllocError>
    ensures does { IfOk result (λ b. Does (either (either (either (either (either fold_conditional fold_logical) fold_unused) fold_unused_list) fold_indirect) fold_one_sided) ctx.old node.old b ctx.new node.new) }
    ensures refused { IfErr result (λ e. (node.new ≡ node.old) × (ctx.new ≡ ctx.old)) }
{
    if fold_to_parts(node, ctx)? {
        return Ok(true);
    }
    Ok(PeepholeOptimizations::fold_one_sided_choice(node, ctx))
}

// The same, and what becomes of a sequence.
fn fold_to_sequences(node: &mut Node, ctx: &mut MinifierTraverseCtx) -> Result<bool, AllocError>
    ensures does { IfOk result (λ b. Does (either (either (either (either (either (either fold_conditional fold_logical) fold_unused) fold_unused_list) fold_indirect) fold_one_sided) fold_sequence) ctx.old node.old b ctx.new node.new) }
    ensures refused { IfErr result (λ e. (node.new ≡ node.old) × (ctx.new ≡ ctx.old)) }
{
    if fold_but_sequences(node, ctx)? {
        return Ok(true);
    }
    Ok(PeepholeOptimizations::remove_sequence_expression(node, ctx))
}

// What becomes of a template that has texts.
fn fold_texts(node: &mut Node, ctx: &mut MinifierTraverseCtx) -> bool
    requires stays { sides_go (spot_of ctx.old.place) node.old.kind node.old.below ≡ false }
    requires no_sum { text_goes (spot_of ctx.old.place) node.old.kind node.old.below ≡ None }
    ensures { Does fold_two_sides ctx.old node.old result ctx.new node.new }
{
    if texts_go(node, ctx) {
        empty_texts(node, ctx);
        true
    } else {
        false
    }
}

// What becomes of a sum of a text and what acts, and of a template that has texts.
fn fold_text(node: &mut Node, ctx: &mut MinifierTraverseCtx) -> bool
    requires stays { sides_go (spot_of ctx.old.place) node.old.kind node.old.below ≡ false }
    ensures { Does fold_two_sides ctx.old node.old result ctx.new node.new }
{
    match text_goes(node, ctx) {
        Some(index) => {
            empty_text(node, index, ctx);
            true
        }
        None => fold_texts(node, ctx),
    }
}

// The same, and what becomes of an operation on two sides of which nobody takes the value.
fn fold_but_objects(node: &mut Node, ctx: &mut MinifierTraverseCtx) -> Result<bool, AllocError>
    ensures does { IfOk result (λ b. Does (either (either (either (either (either (either (either fold_conditional fold_logical) fold_unused) fold_unused_list) fold_indirect) fold_one_sided) fold_sequence) fold_two_sides) ctx.old node.old b ctx.new node.new) }
    ensures refused { IfErr result (λ e. (node.new ≡ node.old) × (ctx.new ≡ ctx.old)) }
{
    if fold_to_sequences(node, ctx)? {
        return Ok(true);
    }
    PeepholeOptimizations::fold_two_sides(node, ctx)
}

// The same, and what becomes of an object literal of which nobody takes the value.
fn fold_but_operations(node: &mut Node, ctx: &mut MinifierTraverseCtx) -> Result<bool, AllocError>
    ensures does { IfOk result (λ b. Does (either (either (either (either (either (either (either (either fold_conditional fold_logical) fold_unused) fold_unused_list) fold_indirect) fold_one_sided) fold_sequence) fold_two_sides) fold_object) ctx.old node.old b ctx.new node.new) }
    ensures refused { IfErr result (λ e. (node.new ≡ node.old) × (ctx.new ≡ ctx.old)) }
{
    if fold_but_objects(node, ctx)? {
        return Ok(true);
    }
    PeepholeOptimizations::remove_unused_object(node, ctx)
}

// What becomes of an operation of which the value is known and has a literal.
fn fold_to_literal(node: &mut Node, ctx: &mut MinifierTraverseCtx) -> Result<bool, AllocError>
    ensures does { IfOk result (λ b. Does fold_to_literal ctx.old node.old b ctx.new node.new) }
    ensures refused { IfErr result (λ e. (node.new ≡ node.old) × (ctx.new ≡ ctx.old)) }
{
    match known_literal(node, ctx.alloc())? {
        Some(value) => {
            put_literal(node, value, ctx);
            Ok(true)
        }
        None => Ok(false),
    }
}

// What becomes of one that gives a negative number.
fn fold_to_negative(node: &mut Node, ctx: &mut MinifierTraverseCtx) -> Result<bool, AllocError>
    ensures does { IfOk result (λ b. Does fold_to_negative ctx.old node.old b ctx.new node.new) }
    ensures refused { IfErr result (λ e. (node.new ≡ node.old) × (ctx.new ≡ ctx.old)) }
{
    match known_negative(node, ctx.alloc())? {
        Some(magnitude) => {
            put_negative(node, magnitude, ctx)?;
            Ok(true)
        }
        None => Ok(false),
    }
}

// Whether something may become of an expression. Of those of other kinds, as of names, literals, calls and functions, nothing does,
// whatever stands around them.
fn may_fold(kind: &NodeKind) -> bool
    ensures { result ≡ may_fold kind.now }
{
    matches!(
        kind,
        NodeKind::UnaryExpression(_)
            | NodeKind::BinaryExpression(_)
            | NodeKind::LogicalExpression(_)
            | NodeKind::ConditionalExpression
            | NodeKind::SequenceExpression
            | NodeKind::ArrayExpression
            | NodeKind::ObjectExpression
            | NodeKind::TemplateLiteral
    )
}

/// What a walk does behind a node, to that node alone. Each call answers whether it did anything.
pub struct PeepholeOptimizations;

impl PeepholeOptimizations {
    /// A conditional on a test that is known becomes the branch that is taken, unless it matters there that this stands there itself.
    pub fn try_fold_conditional_expression(node: &mut Node, ctx: &mut MinifierTraverseCtx) -> bool
        ensures does { Does fold_conditional ctx.old node.old result ctx.new node.new }
    {
        match conditional_keeps(node, ctx) {
            Some(at) => {
                keep_child(node, at, ctx);
                true
            }
            None => false,
        }
    }

    /// A logical expression of which the left side is known becomes the side that counts, unless it matters there that this stands
    /// there itself.
    pub fn fold_logical_expr(node: &mut Node, ctx: &mut MinifierTraverseCtx) -> bool
        ensures does { Does fold_logical ctx.old node.old result ctx.new node.new }
    {
        match logical_keeps(node, ctx) {
            Some(at) => {
                keep_child(node, at, ctx);
                true
            }
            None => false,
        }
    }

    /// Where nobody takes the value, an operation of which one operand alone acts becomes that operand, and that again.
    pub fn remove_unused_expression(node: &mut Node, ctx: &mut MinifierTraverseCtx) -> bool
        ensures does { Does fold_unused ctx.old node.old result ctx.new node.new }
    {
        match unused_keeps(node, ctx) {
            Some(at) => {
                keep_needed(node, at, ctx);
                true
            }
            None => false,
        }
    }

    /// Where nobody takes the value, an array, a sequence of which not all parts act, and a template whose substitutions are primitive
    /// by their form, become the parts that act: one that may stand there itself, or a sequence of them; or an array, where not all parts
    /// of one act and one that does is spread.
    pub fn remove_unused_list(node: &mut Node, ctx: &mut MinifierTraverseCtx) -> bool
        ensures does { Does fold_unused_list ctx.old node.old result ctx.new node.new }
    {
        if list_goes(node, ctx) {
            keep_list(node, ctx);
            true
        } else if template_goes(node, ctx) {
            keep_substitutions(node, ctx);
            true
        } else {
            false
        }
    }

    /// An expression that what is known decides, where it matters that the part that counts doesn't stand there itself, becomes that
    /// part behind a zero, as `(0, o.f)()`. It fails only for want of memory; then all is as it was.
    pub fn put_behind_zero(
        node: &mut Node,
        ctx: &mut MinifierTraverseCtx,
    ) -> Result<bool, AllocError>
        ensures does { IfOk result (λ b. Does fold_behind_zero ctx.old node.old b ctx.new node.new) }
        ensures refused { IfErr result (λ e. (node.new ≡ node.old) × (ctx.new ≡ ctx.old)) }
    {
        match goes_behind(node, ctx) {
            Some(at) => {
                keep_behind_zero(node, at, ctx)?;
                Ok(true)
            }
            None => Ok(false),
        }
    }

    /// A conditional on a test that acts, of which its form tells whether it is true, becomes the sequence of the test and the branch that
    /// is taken, and a logical expression whose left side acts, of which it is known that the right one is evaluated, that of both
    /// sides, as `(f(), 1), g()`. It fails only for want of memory; then all is as it was.
    pub fn put_behind_test(
        node: &mut Node,
        ctx: &mut MinifierTraverseCtx,
    ) -> Result<bool, AllocError>
        ensures does { IfOk result (λ b. Does fold_behind_test ctx.old node.old b ctx.new node.new) }
        ensures refused { IfErr result (λ e. (node.new ≡ node.old) × (ctx.new ≡ ctx.old)) }
    {
        if let Some(at) = branch_leaves(node, ctx.alloc()) {
            keep_branch(node, at, ctx)?;
            return Ok(true);
        }
        if right_follows(node, ctx.alloc()) {
            keep_both(node, ctx)?;
            return Ok(true);
        }
        Ok(false)
    }

    /// Where nobody takes the value, a conditional of which one branch alone acts becomes `test && consequent` or
    /// `test || alternate`.
    pub fn fold_one_sided_choice(node: &mut Node, ctx: &mut MinifierTraverseCtx) -> bool
        ensures does { Does fold_one_sided ctx.old node.old result ctx.new node.new }
    {
        match stays_one_sided(node, ctx) {
            Some(operator) => {
                keep_one_side(node, operator, ctx);
                true
            }
            None => false,
        }
    }

    /// Of a sequence the parts leave that don't act, but the last. Where that is left alone it takes the place of the whole: behind a
    /// zero, as in `(0, o.f)()`, if it matters there that this doesn't stand there itself.
    pub fn remove_sequence_expression(node: &mut Node, ctx: &mut MinifierTraverseCtx) -> bool
        ensures does { Does fold_sequence ctx.old node.old result ctx.new node.new }
    {
        if sequence_goes(node, ctx) {
            keep_sequence(node, ctx);
            true
        } else {
            false
        }
    }

    /// Where nobody takes the value, an operation of which both sides act becomes a sequence of these, as `f(), g()`, if it does nothing
    /// itself: it compares, or both sides are primitive by their form. What does nothing but give a text on a side of a sum, beside what
    /// acts, becomes the empty one, as `"a" + f()` becomes `"" + f()`, and so do the texts of a template. It fails only for want of memory;
    /// then all is as it was.
    pub fn fold_two_sides(
        node: &mut Node,
        ctx: &mut MinifierTraverseCtx,
    ) -> Result<bool, AllocError>
        ensures does { IfOk result (λ b. Does fold_two_sides ctx.old node.old b ctx.new node.new) }
        ensures refused { IfErr result (λ e. (node.new ≡ node.old) × (ctx.new ≡ ctx.old)) }
    {
        if sides_go(node, ctx) {
            keep_two_sides(node, ctx)?;
            return Ok(true);
        }
        Ok(fold_text(node, ctx))
    }

    /// Where nobody takes the value, an object literal becomes the values of its properties that act, and before each its key, if that is an
    /// expression that acts: one part that may stand there itself, or a sequence of them. Each key is known, or known to be primitive. It
    /// fails only for want of memory; then all is as it was.
    pub fn remove_unused_object(
        node: &mut Node,
        ctx: &mut MinifierTraverseCtx,
    ) -> Result<bool, AllocError>
        ensures does { IfOk result (λ b. Does fold_object ctx.old node.old b ctx.new node.new) }
        ensures refused { IfErr result (λ e. (node.new ≡ node.old) × (ctx.new ≡ ctx.old)) }
    {
        if object_goes(node, ctx) {
            keep_object(node, ctx)?;
            return Ok(true);
        }
        Ok(false)
    }

    /// An operation that doesn't act becomes a literal of its value, as `1 + 2` becomes `3`, or unary minus on one, as `1 - 3` becomes
    /// `-2`, as far as that is known. It fails only for want of memory; then all is as it was.
    pub fn fold_known_operation(
        node: &mut Node,
        ctx: &mut MinifierTraverseCtx,
    ) -> Result<bool, AllocError>
        ensures does { IfOk result (λ b. Does fold_known ctx.old node.old b ctx.new node.new) }
        ensures refused { IfErr result (λ e. (node.new ≡ node.old) × (ctx.new ≡ ctx.old)) }
    {
        if fold_to_literal(node, ctx)? {
            return Ok(true);
        }
        fold_to_negative(node, ctx)
    }

    /// What becomes of an expression behind which the walk is. It fails only for want of memory; then all is as it was.
    pub fn fold_expression(
        node: &mut Node,
        ctx: &mut MinifierTraverseCtx,
    ) -> Result<bool, AllocError>
        ensures does { IfOk result (λ b. Does at_expression_end ctx.old node.old b ctx.new node.new) }
        ensures refused { IfErr result (λ e. (node.new ≡ node.old) × (ctx.new ≡ ctx.old)) }
    {
        if !may_fold(node.kind()) {
            return Ok(false);
        }
        if fold_but_operations(node, ctx)? {
            return Ok(true);
        }
        PeepholeOptimizations::fold_known_operation(node, ctx)
    }

    /// Whether it matters that an expression stands itself where the walk is, as what a call calls, or what `typeof` or `delete`
    /// takes: then the value of another may not become it.
    pub fn should_keep_indirect_access(node: &Node, ctx: &MinifierTraverseCtx) -> bool
        ensures keeps { result ≡ matters_at (spot_of ctx.now.place) node.now }
    {
        matters_here(node, ctx)
    }
}
