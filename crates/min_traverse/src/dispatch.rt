// Which hooks are called at a node.
ghost use Rattle.std.specs.Prelude.{◌≡◌, OnOk, Option, Some, None, true, false};
ghost use Rattle.js_syntax.specs.Node.{forest_of};
ghost use Rattle.min_context.specs.Edited.{Markable};
ghost use Rattle.min_traverse.specs.Moves.{Holds, NodeMoves};
ghost use Rattle.min_traverse.specs.Slot.{binds, outer_slot, middle_slot, inner_slot, enter_outer, enter_middle, enter_inner, exit_outer, exit_middle, exit_inner};
ghost use Rattle.min_traverse.specs.Visits.{above_place, Called, Enters, Exits};

use crate::slot::{Hook, Inner, Middle, Outer, inner_slot, middle_slot, outer_slot};
use crate::traverse::Traverse;
use js_tree::Node;
use min_context::MinifierTraverseCtx;
use std::alloc::AllocError;

// The hook at the entry of a node of this slot.
fn enter_hook(slot: Outer) -> Option<Hook>
    ensures { result ≡ enter_outer slot }
{
    match slot {
        Outer::Program => Some(Hook::EnterProgram),
        Outer::Statements => Some(Hook::EnterStatements),
        Outer::Statement => Some(Hook::EnterStatement),
        Outer::ClassElement => Some(Hook::EnterClassElement),
        Outer::BindingPattern => Some(Hook::EnterBindingPattern),
        Outer::AssignmentTarget => Some(Hook::EnterAssignmentTarget),
        Outer::PropertyKey => Some(Hook::EnterPropertyKey),
        Outer::SwitchCase => Some(Hook::EnterSwitchCase),
        Outer::CatchClause => Some(Hook::EnterCatchClause),
        Outer::VariableDeclarator => Some(Hook::EnterVariableDeclarator),
        Outer::None => None,
    }
}

// The hook where names are bound or assigned to: a function of its own, as ten calls in one are dear to check.
fn call_enter_binding<T: Traverse>(
    traverse: &mut T,
    node: &Node,
    ctx: &mut MinifierTraverseCtx,
    slot: Outer,
) -> Result<(), AllocError>
    requires slot { outer_slot (above_place ctx.old.place) node.now.kind ≡ slot }
    requires binds { binds slot ≡ true }
    requires markable { Markable ctx.old (forest_of node.now) }
    ensures moves { OnOk result (NodeMoves T T.edit (Holds T.own) traverse.old ctx.old node.now traverse.new ctx.new node.now) }
    ensures visited { OnOk result (ctx.new.requested ≡ false → Called T.visits (λ h. true) (enter_outer slot) traverse.old ctx.old node.now traverse.new ctx.new) }
{
    match slot {
        Outer::BindingPattern => traverse.enter_binding_pattern(node, ctx),
        Outer::AssignmentTarget => traverse.enter_assignment_target(node, ctx),
        Outer::CatchClause => traverse.enter_catch_clause(node, ctx),
        Outer::VariableDeclarator => traverse.enter_variable_declarator(node, ctx),
        Outer::Program
        | Outer::Statements
        | Outer::Statement
        | Outer::ClassElement
        | Outer::PropertyKey
        | Outer::SwitchCase
        | Outer::None => unreachable!(),
    }
}

// The hook of a slot, whether it's written or not: `enter_outer` asks before, so that no arm branches.
fn call_enter_outer<T: Traverse>(
    traverse: &mut T,
    node: &Node,
    ctx: &mut MinifierTraverseCtx,
    slot: Outer,
) -> Result<(), AllocError>
    requires slot { outer_slot (above_place ctx.old.place) node.now.kind ≡ slot }
    requires markable { Markable ctx.old (forest_of node.now) }
    ensures moves { OnOk result (NodeMoves T T.edit (Holds T.own) traverse.old ctx.old node.now traverse.new ctx.new node.now) }
    ensures visited { OnOk result (ctx.new.requested ≡ false → Called T.visits (λ h. true) (enter_outer slot) traverse.old ctx.old node.now traverse.new ctx.new) }
{
    match slot {
        Outer::Program => traverse.enter_program(node, ctx),
        Outer::Statements => traverse.enter_statements(node, ctx),
        Outer::Statement => traverse.enter_statement(node, ctx),
        Outer::ClassElement => traverse.enter_class_element(node, ctx),
        Outer::PropertyKey => traverse.enter_property_key(node, ctx),
        Outer::SwitchCase => traverse.enter_switch_case(node, ctx),
        Outer::BindingPattern
        | Outer::AssignmentTarget
        | Outer::CatchClause
        | Outer::VariableDeclarator => call_enter_binding(traverse, node, ctx, slot),
        Outer::None => Ok(()),
    }
}

fn enter_outer<T: Traverse>(
    traverse: &mut T,
    node: &Node,
    ctx: &mut MinifierTraverseCtx,
) -> Result<(), AllocError>
    requires markable { Markable ctx.old (forest_of node.now) }
    ensures moves { OnOk result (NodeMoves T T.edit (Holds T.own) traverse.old ctx.old node.now traverse.new ctx.new node.now) }
    ensures visited { OnOk result (ctx.new.requested ≡ false → Called T.visits T.written (enter_outer (outer_slot (above_place ctx.old.place) node.now.kind)) traverse.old ctx.old node.now traverse.new ctx.new) }
{
    let slot = outer_slot(ctx.parent(), node.kind());
    match enter_hook(slot) {
        Some(hook) => {
            if T::has(hook) {
                call_enter_outer(traverse, node, ctx, slot)
            } else {
                Ok(())
            }
        }
        None => Ok(()),
    }
}

fn enter_middle<T: Traverse>(
    traverse: &mut T,
    node: &Node,
    ctx: &mut MinifierTraverseCtx,
) -> Result<(), AllocError>
    requires markable { Markable ctx.old (forest_of node.now) }
    ensures moves { OnOk result (NodeMoves T T.edit (Holds T.own) traverse.old ctx.old node.now traverse.new ctx.new node.now) }
    ensures visited { OnOk result (ctx.new.requested ≡ false → Called T.visits T.written (enter_middle (middle_slot (above_place ctx.old.place) node.now.kind)) traverse.old ctx.old node.now traverse.new ctx.new) }
{
    match middle_slot(ctx.parent(), node.kind()) {
        Middle::Expression => {
            if T::has(Hook::EnterExpression) {
                traverse.enter_expression(node, ctx)
            } else {
                Ok(())
            }
        }
        Middle::None => Ok(()),
    }
}

fn enter_inner<T: Traverse>(
    traverse: &mut T,
    node: &Node,
    ctx: &mut MinifierTraverseCtx,
) -> Result<(), AllocError>
    requires markable { Markable ctx.old (forest_of node.now) }
    ensures moves { OnOk result (NodeMoves T T.edit (Holds T.own) traverse.old ctx.old node.now traverse.new ctx.new node.now) }
    ensures visited { OnOk result (ctx.new.requested ≡ false → Called T.visits T.written (enter_inner (inner_slot node.now.kind)) traverse.old ctx.old node.now traverse.new ctx.new) }
{
    match inner_slot(node.kind()) {
        Inner::Function => {
            if T::has(Hook::EnterFunction) {
                traverse.enter_function(node, ctx)
            } else {
                Ok(())
            }
        }
        Inner::Class => {
            if T::has(Hook::EnterClass) {
                traverse.enter_class(node, ctx)
            } else {
                Ok(())
            }
        }
        Inner::VariableDeclaration => {
            if T::has(Hook::EnterVariableDeclaration) {
                traverse.enter_variable_declaration(node, ctx)
            } else {
                Ok(())
            }
        }
        Inner::None => Ok(()),
    }
}

// The hook behind a node of this slot.
fn exit_hook(slot: Outer) -> Option<Hook>
    ensures { result ≡ exit_outer slot }
{
    match slot {
        Outer::Program => Some(Hook::ExitProgram),
        Outer::Statements => Some(Hook::ExitStatements),
        Outer::Statement => Some(Hook::ExitStatement),
        Outer::ClassElement => Some(Hook::ExitClassElement),
        Outer::BindingPattern => Some(Hook::ExitBindingPattern),
        Outer::AssignmentTarget => Some(Hook::ExitAssignmentTarget),
        Outer::PropertyKey => Some(Hook::ExitPropertyKey),
        Outer::SwitchCase => Some(Hook::ExitSwitchCase),
        Outer::CatchClause => Some(Hook::ExitCatchClause),
        Outer::VariableDeclarator => Some(Hook::ExitVariableDeclarator),
        Outer::None => None,
    }
}

// As `call_enter_binding`, behind the node.
fn call_exit_binding<T: Traverse>(
    traverse: &mut T,
    node: &mut Node,
    ctx: &mut MinifierTraverseCtx,
    slot: Outer,
) -> Result<(), AllocError>
    requires slot { outer_slot (above_place ctx.old.place) node.old.kind ≡ slot }
    requires binds { binds slot ≡ true }
    requires markable { Markable ctx.old (forest_of node.old) }
    ensures moves { OnOk result (NodeMoves T T.edit (Holds T.own) traverse.old ctx.old node.old traverse.new ctx.new node.new) }
    ensures visited { OnOk result (ctx.new.requested ≡ false → Called T.visits (λ h. true) (exit_outer slot) traverse.old ctx.old node.old traverse.new ctx.new) }
{
    match slot {
        Outer::BindingPattern => traverse.exit_binding_pattern(node, ctx),
        Outer::AssignmentTarget => traverse.exit_assignment_target(node, ctx),
        Outer::CatchClause => traverse.exit_catch_clause(node, ctx),
        Outer::VariableDeclarator => traverse.exit_variable_declarator(node, ctx),
        Outer::Program
        | Outer::Statements
        | Outer::Statement
        | Outer::ClassElement
        | Outer::PropertyKey
        | Outer::SwitchCase
        | Outer::None => unreachable!(),
    }
}

// As `call_enter_outer`, behind the node.
fn call_exit_outer<T: Traverse>(
    traverse: &mut T,
    node: &mut Node,
    ctx: &mut MinifierTraverseCtx,
    slot: Outer,
) -> Result<(), AllocError>
    requires slot { outer_slot (above_place ctx.old.place) node.old.kind ≡ slot }
    requires markable { Markable ctx.old (forest_of node.old) }
    ensures moves { OnOk result (NodeMoves T T.edit (Holds T.own) traverse.old ctx.old node.old traverse.new ctx.new node.new) }
    ensures visited { OnOk result (ctx.new.requested ≡ false → Called T.visits (λ h. true) (exit_outer slot) traverse.old ctx.old node.old traverse.new ctx.new) }
{
    match slot {
        Outer::Program => traverse.exit_program(node, ctx),
        Outer::Statements => traverse.exit_statements(node, ctx),
        Outer::Statement => traverse.exit_statement(node, ctx),
        Outer::ClassElement => traverse.exit_class_element(node, ctx),
        Outer::PropertyKey => traverse.exit_property_key(node, ctx),
        Outer::SwitchCase => traverse.exit_switch_case(node, ctx),
        Outer::BindingPattern
        | Outer::AssignmentTarget
        | Outer::CatchClause
        | Outer::VariableDeclarator => call_exit_binding(traverse, node, ctx, slot),
        Outer::None => Ok(()),
    }
}

fn exit_outer<T: Traverse>(
    traverse: &mut T,
    node: &mut Node,
    ctx: &mut MinifierTraverseCtx,
) -> Result<(), AllocError>
    requires markable { Markable ctx.old (forest_of node.old) }
    ensures moves { OnOk result (NodeMoves T T.edit (Holds T.own) traverse.old ctx.old node.old traverse.new ctx.new node.new) }
    ensures visited { OnOk result (ctx.new.requested ≡ false → Called T.visits T.written (exit_outer (outer_slot (above_place ctx.old.place) node.old.kind)) traverse.old ctx.old node.old traverse.new ctx.new) }
{
    let slot = outer_slot(ctx.parent(), node.kind());
    match exit_hook(slot) {
        Some(hook) => {
            if T::has(hook) {
                call_exit_outer(traverse, node, ctx, slot)
            } else {
                Ok(())
            }
        }
        None => Ok(()),
    }
}

fn exit_middle<T: Traverse>(
    traverse: &mut T,
    node: &mut Node,
    ctx: &mut MinifierTraverseCtx,
) -> Result<(), AllocError>
    requires markable { Markable ctx.old (forest_of node.old) }
    ensures moves { OnOk result (NodeMoves T T.edit (Holds T.own) traverse.old ctx.old node.old traverse.new ctx.new node.new) }
    ensures visited { OnOk result (ctx.new.requested ≡ false → Called T.visits T.written (exit_middle (middle_slot (above_place ctx.old.place) node.old.kind)) traverse.old ctx.old node.old traverse.new ctx.new) }
{
    match middle_slot(ctx.parent(), node.kind()) {
        Middle::Expression => {
            if T::has(Hook::ExitExpression) {
                traverse.exit_expression(node, ctx)
            } else {
                Ok(())
            }
        }
        Middle::None => Ok(()),
    }
}

fn exit_inner<T: Traverse>(
    traverse: &mut T,
    node: &mut Node,
    ctx: &mut MinifierTraverseCtx,
) -> Result<(), AllocError>
    requires markable { Markable ctx.old (forest_of node.old) }
    ensures moves { OnOk result (NodeMoves T T.edit (Holds T.own) traverse.old ctx.old node.old traverse.new ctx.new node.new) }
    ensures visited { OnOk result (ctx.new.requested ≡ false → Called T.visits T.written (exit_inner (inner_slot node.old.kind)) traverse.old ctx.old node.old traverse.new ctx.new) }
{
    match inner_slot(node.kind()) {
        Inner::Function => {
            if T::has(Hook::ExitFunction) {
                traverse.exit_function(node, ctx)
            } else {
                Ok(())
            }
        }
        Inner::Class => {
            if T::has(Hook::ExitClass) {
                traverse.exit_class(node, ctx)
            } else {
                Ok(())
            }
        }
        Inner::VariableDeclaration => {
            if T::has(Hook::ExitVariableDeclaration) {
                traverse.exit_variable_declaration(node, ctx)
            } else {
                Ok(())
            }
        }
        Inner::None => Ok(()),
    }
}

/// The hooks at the entry of a node, outer to inner.
pub(crate) fn enter_node<T: Traverse>(
    traverse: &mut T,
    node: &Node,
    ctx: &mut MinifierTraverseCtx,
) -> Result<(), AllocError>
    requires markable { Markable ctx.old (forest_of node.now) }
    ensures moves { OnOk result (NodeMoves T T.edit (Holds T.own) traverse.old ctx.old node.now traverse.new ctx.new node.now) }
    ensures visited { OnOk result (ctx.new.requested ≡ false → Enters T.visits T.written (above_place ctx.old.place) traverse.old ctx.old node.now traverse.new ctx.new) }
{
    enter_outer(traverse, node, ctx)?;
    enter_middle(traverse, node, ctx)?;
    enter_inner(traverse, node, ctx)?;
    Ok(())
}

/// The hooks behind a node, inner to outer. Each slot is read anew, of what the hooks before left there.
pub(crate) fn exit_node<T: Traverse>(
    traverse: &mut T,
    node: &mut Node,
    ctx: &mut MinifierTraverseCtx,
) -> Result<(), AllocError>
    requires markable { Markable ctx.old (forest_of node.old) }
    ensures moves { OnOk result (NodeMoves T T.edit (Holds T.own) traverse.old ctx.old node.old traverse.new ctx.new node.new) }
    ensures visited { OnOk result (ctx.new.requested ≡ false → Exits T.visits T.written (above_place ctx.old.place) traverse.old ctx.old node.old traverse.new ctx.new) }
{
    exit_inner(traverse, node, ctx)?;
    exit_middle(traverse, node, ctx)?;
    exit_outer(traverse, node, ctx)?;
    Ok(())
}
