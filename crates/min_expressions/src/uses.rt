// What an expression is used for, and whether anybody takes its value, as the nodes above it tell.
ghost use Rattle.std.specs.Prelude.{◌≡◌};
ghost use Rattle.steps.specs.Allowed.Unused.{somebody, is_nobody, nobody_if, in_parentheses, of_sequence, of_part, of_branch};
ghost use Rattle.steps.specs.Allowed.Uses.{as_value, operand_of, first_as_callee};
ghost use Rattle.rules.specs.DeadCode.Rules.{is_field_of_with, has_with};
ghost use Rattle.rules.specs.Expressions.Uses.{use_under, use_in, use_from, taken_under, taken_in, taken_from};
ghost use Rattle.min_expressions.specs.Uses.{told, taker, hands_on};

use js_syntax::UnaryOperator;
use min_context::{Ancestor, Parent};

/// For its value, to be called or a tag, as the operand of `typeof`, or as that of `delete`.
#[derive(Clone, Copy)]
pub(crate) enum Use {
    Value,
    Callee,
    Typed,
    Deleted,
}

pub(crate) fn operand_of(operator: UnaryOperator) -> Use
    ensures { told result ≡ operand_of operator }
{
    match operator {
        UnaryOperator::Typeof => Use::Typed,
        UnaryOperator::Delete => Use::Deleted,
        _ => Use::Value,
    }
}

#[tactic(auto, using(crate::proofs::Told::behind_callee))]
fn first_as_callee(at: u32) -> Use
    ensures { told result ≡ first_as_callee at }
{
    if at == 0 { Use::Callee } else { Use::Value }
}

fn use_under(used: Use, parent: Parent, at: u32) -> Use
    ensures { told result ≡ use_under (told used) parent at }
{
    match parent {
        Parent::ParenthesizedExpression => used,
        Parent::CallExpression => first_as_callee(at),
        Parent::TaggedTemplateExpression => first_as_callee(at),
        Parent::UnaryExpression(operator) => operand_of(operator),
        _ => Use::Value,
    }
}

fn use_in(used: Use, ancestor: Ancestor) -> Use
    ensures { told result ≡ use_in (told used) ancestor }
{
    match ancestor {
        Ancestor::Field(parent, at) => use_under(used, parent, at),
        Ancestor::None => Use::Value,
    }
}

// By the nodes above, the outermost first.
pub(crate) fn use_from(above: &[Ancestor]) -> Use
    ensures { told result ≡ use_from as_value above.now }
{
    let mut used = Use::Value;
    for ancestor in above {
        used = use_in(used, *ancestor);
    }
    used
}

/// Whether somebody takes a value, or nobody; of the parts of a list, whether somebody takes that of the last alone.
#[derive(Clone, Copy)]
pub(crate) enum Taker {
    Somebody,
    Nobody,
    LastAlone,
}

fn nobody_if(nobody: bool) -> Taker
    ensures { taker result ≡ nobody_if nobody }
{
    if nobody {
        Taker::Nobody
    } else {
        Taker::Somebody
    }
}

fn in_parentheses(taken: Taker) -> Taker
    ensures { taker result ≡ in_parentheses (taker taken) }
{
    match taken {
        Taker::Nobody => Taker::Nobody,
        _ => Taker::Somebody,
    }
}

fn of_sequence(taken: Taker, at: u32) -> Taker
    ensures { taker result ≡ of_sequence (taker taken) at }
{
    match taken {
        Taker::Nobody => Taker::Nobody,
        _ => {
            if at == 0 {
                Taker::LastAlone
            } else {
                Taker::Somebody
            }
        }
    }
}

fn of_part(taken: Taker, more: bool) -> Taker
    ensures { taker result ≡ of_part (taker taken) more }
{
    match taken {
        Taker::Nobody => Taker::Nobody,
        Taker::LastAlone => nobody_if(more),
        Taker::Somebody => Taker::Somebody,
    }
}

fn of_branch(taken: Taker, at: u32) -> Taker
    ensures { taker result ≡ of_branch (taker taken) at }
{
    match taken {
        Taker::Nobody => nobody_if(at != 0),
        _ => Taker::Somebody,
    }
}

fn taken_under(taken: Taker, parent: Parent, at: u32) -> Taker
    ensures { taker result ≡ taken_under (taker taken) parent at }
{
    match parent {
        Parent::ExpressionStatement => Taker::Nobody,
        Parent::ForStatement => nobody_if(at == 2),
        Parent::ParenthesizedExpression => in_parentheses(taken),
        Parent::SequenceExpression => of_sequence(taken, at),
        Parent::Expressions(more) => of_part(taken, more),
        Parent::LogicalExpression => of_branch(taken, at),
        Parent::ConditionalExpression => of_branch(taken, at),
        _ => Taker::Somebody,
    }
}

fn taken_in(taken: Taker, ancestor: Ancestor) -> Taker
    ensures { taker result ≡ taken_in (taker taken) ancestor }
{
    match ancestor {
        Ancestor::Field(parent, at) => taken_under(taken, parent, at),
        Ancestor::None => Taker::Somebody,
    }
}

// Who takes its value, by the nodes above, the outermost first.
fn taken_from(above: &[Ancestor]) -> Taker
    ensures { taker result ≡ taken_from somebody above.now }
{
    let mut taken = Taker::Somebody;
    for ancestor in above {
        taken = taken_in(taken, *ancestor);
    }
    taken
}

// Whether it is for what stands around a node to tell who takes the value of what stands below it.
fn hands_on(ancestor: Ancestor) -> bool
    ensures { result ≡ hands_on ancestor }
{
    match ancestor {
        Ancestor::Field(parent, _) => matches!(
            parent,
            Parent::ParenthesizedExpression
                | Parent::SequenceExpression
                | Parent::Expressions(_)
                | Parent::LogicalExpression
                | Parent::ConditionalExpression
        ),
        Ancestor::None => false,
    }
}

// The nodes above that tell who takes it: the nearest that doesn't hand on the question, and those below that one.
fn telling(above: &[Ancestor]) -> &[Ancestor]
    ensures { taken_from somebody result.now ≡ taken_from somebody above.now }
{
    let mut at = above.len();
    while at > 0 {
        at -= 1;
        if !hands_on(above[at]) {
            return &above[at..];
        }
    }
    above
}

// Whether nobody does. Few nodes hand on the question, so it is asked of the nearest ones alone.
pub(crate) fn is_unused_from(above: &[Ancestor]) -> bool
    ensures { result ≡ is_nobody (taken_from somebody above.now) }
{
    match taken_from(telling(above)) {
        Taker::Nobody => true,
        _ => false,
    }
}

fn is_field_of_with(ancestor: Ancestor) -> bool
    ensures { result ≡ is_field_of_with ancestor }
{
    match ancestor {
        Ancestor::Field(parent, _) => matches!(parent, Parent::WithStatement),
        Ancestor::None => false,
    }
}

/// Whether a `with` statement is among the nodes above.
pub fn has_with(above: &[Ancestor]) -> bool
    ensures { result ≡ has_with above.now }
{
    for ancestor in above {
        if is_field_of_with(*ancestor) {
            return true;
        }
    }
    false
}
