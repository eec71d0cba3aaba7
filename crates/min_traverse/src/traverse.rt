// The hooks of a walk.
ghost use Rattle.std.specs.Prelude.{◌≡◌, OnOk, Bool, true, false};
ghost use Rattle.js_syntax.specs.Node.{Forest, Tree, forest_of};
ghost use Rattle.min_context.specs.Edited.{Markable};
ghost use Rattle.min_context.specs.Seen.{Seen};
ghost use Rattle.min_options.specs.declared.options.CompressOptions.{CompressOptions};
ghost use Rattle.min_traverse.specs.Moves.{Holds, NodeMoves};
ghost use Rattle.min_traverse.specs.Slot.{outer_slot, middle_slot, inner_slot};
ghost use Rattle.min_traverse.specs.Visits.{above_place};
ghost use Rattle.min_traverse.specs.declared.slot.Hook.{Hook};
ghost use Rattle.min_traverse.specs.declared.slot.Hook.TheVariants as hook;
ghost use Rattle.min_traverse.specs.declared.slot.Outer.TheVariants as outer;
ghost use Rattle.min_traverse.specs.declared.slot.Middle.TheVariants as middle;
ghost use Rattle.min_traverse.specs.declared.slot.Inner.TheVariants as inner;

use crate::slot::Hook;
use js_tree::Node;
use min_context::MinifierTraverseCtx;
use std::alloc::AllocError;

/// What is done at each node.
///
/// A walker says by `has` which of the hooks it has, and writes these. No other is called.
pub trait Traverse {
    /// Which single edits it makes.
    ghost edit: { CompressOptions → Forest → Forest → Type 0 };

    /// What it asks of the whole program beside that the context is true, with the context at no place.
    ghost own: { Self → Seen → Forest → Type 0 };

    /// Which hooks it has.
    ghost written: { Hook → Bool };

    /// What a hook knows and leaves known where it asks for no other pass.
    ghost visits: { Hook → Self → Seen → Tree → Self → Seen → Type 0 };

    fn has(hook: Hook) -> bool
        ensures has { result ≡ written hook };

    /// Before what lies below the program.
    fn enter_program(
        &mut self,
        node: &Node,
        ctx: &mut MinifierTraverseCtx,
    ) -> Result<(), AllocError>
        requires slot { outer_slot (above_place ctx.old.place) node.now.kind ≡ outer.Program }
        requires markable { Markable ctx.old (forest_of node.now) }
        ensures moves { OnOk result (NodeMoves Self edit (Holds own) self.old ctx.old node.now self.new ctx.new node.now) }
        ensures visited { OnOk result (ctx.new.requested ≡ false → visits hook.EnterProgram self.old ctx.old node.now self.new ctx.new) }
    {
        Err(AllocError)
    }

    /// Behind the program and all that lies below it.
    fn exit_program(
        &mut self,
        node: &mut Node,
        ctx: &mut MinifierTraverseCtx,
    ) -> Result<(), AllocError>
        requires slot { outer_slot (above_place ctx.old.place) node.old.kind ≡ outer.Program }
        requires markable { Markable ctx.old (forest_of node.old) }
        ensures moves { OnOk result (NodeMoves Self edit (Holds own) self.old ctx.old node.old self.new ctx.new node.new) }
        ensures visited { OnOk result (ctx.new.requested ≡ false → visits hook.ExitProgram self.old ctx.old node.old self.new ctx.new) }
    {
        Err(AllocError)
    }

    /// Before what lies below a list of statements.
    fn enter_statements(
        &mut self,
        node: &Node,
        ctx: &mut MinifierTraverseCtx,
    ) -> Result<(), AllocError>
        requires slot { outer_slot (above_place ctx.old.place) node.now.kind ≡ outer.Statements }
        requires markable { Markable ctx.old (forest_of node.now) }
        ensures moves { OnOk result (NodeMoves Self edit (Holds own) self.old ctx.old node.now self.new ctx.new node.now) }
        ensures visited { OnOk result (ctx.new.requested ≡ false → visits hook.EnterStatements self.old ctx.old node.now self.new ctx.new) }
    {
        Err(AllocError)
    }

    /// Behind a list of statements and all that lies below it.
    fn exit_statements(
        &mut self,
        node: &mut Node,
        ctx: &mut MinifierTraverseCtx,
    ) -> Result<(), AllocError>
        requires slot { outer_slot (above_place ctx.old.place) node.old.kind ≡ outer.Statements }
        requires markable { Markable ctx.old (forest_of node.old) }
        ensures moves { OnOk result (NodeMoves Self edit (Holds own) self.old ctx.old node.old self.new ctx.new node.new) }
        ensures visited { OnOk result (ctx.new.requested ≡ false → visits hook.ExitStatements self.old ctx.old node.old self.new ctx.new) }
    {
        Err(AllocError)
    }

    /// Before what lies below a statement.
    fn enter_statement(
        &mut self,
        node: &Node,
        ctx: &mut MinifierTraverseCtx,
    ) -> Result<(), AllocError>
        requires slot { outer_slot (above_place ctx.old.place) node.now.kind ≡ outer.Statement }
        requires markable { Markable ctx.old (forest_of node.now) }
        ensures moves { OnOk result (NodeMoves Self edit (Holds own) self.old ctx.old node.now self.new ctx.new node.now) }
        ensures visited { OnOk result (ctx.new.requested ≡ false → visits hook.EnterStatement self.old ctx.old node.now self.new ctx.new) }
    {
        Err(AllocError)
    }

    /// Behind a statement and all that lies below it.
    fn exit_statement(
        &mut self,
        node: &mut Node,
        ctx: &mut MinifierTraverseCtx,
    ) -> Result<(), AllocError>
        requires slot { outer_slot (above_place ctx.old.place) node.old.kind ≡ outer.Statement }
        requires markable { Markable ctx.old (forest_of node.old) }
        ensures moves { OnOk result (NodeMoves Self edit (Holds own) self.old ctx.old node.old self.new ctx.new node.new) }
        ensures visited { OnOk result (ctx.new.requested ≡ false → visits hook.ExitStatement self.old ctx.old node.old self.new ctx.new) }
    {
        Err(AllocError)
    }

    /// Before what lies below an element of a class.
    fn enter_class_element(
        &mut self,
        node: &Node,
        ctx: &mut MinifierTraverseCtx,
    ) -> Result<(), AllocError>
        requires slot { outer_slot (above_place ctx.old.place) node.now.kind ≡ outer.ClassElement }
        requires markable { Markable ctx.old (forest_of node.now) }
        ensures moves { OnOk result (NodeMoves Self edit (Holds own) self.old ctx.old node.now self.new ctx.new node.now) }
        ensures visited { OnOk result (ctx.new.requested ≡ false → visits hook.EnterClassElement self.old ctx.old node.now self.new ctx.new) }
    {
        Err(AllocError)
    }

    /// Behind an element of a class and all that lies below it.
    fn exit_class_element(
        &mut self,
        node: &mut Node,
        ctx: &mut MinifierTraverseCtx,
    ) -> Result<(), AllocError>
        requires slot { outer_slot (above_place ctx.old.place) node.old.kind ≡ outer.ClassElement }
        requires markable { Markable ctx.old (forest_of node.old) }
        ensures moves { OnOk result (NodeMoves Self edit (Holds own) self.old ctx.old node.old self.new ctx.new node.new) }
        ensures visited { OnOk result (ctx.new.requested ≡ false → visits hook.ExitClassElement self.old ctx.old node.old self.new ctx.new) }
    {
        Err(AllocError)
    }

    /// Before what lies below a name that is declared, or a pattern of such.
    fn enter_binding_pattern(
        &mut self,
        node: &Node,
        ctx: &mut MinifierTraverseCtx,
    ) -> Result<(), AllocError>
        requires slot { outer_slot (above_place ctx.old.place) node.now.kind ≡ outer.BindingPattern }
        requires markable { Markable ctx.old (forest_of node.now) }
        ensures moves { OnOk result (NodeMoves Self edit (Holds own) self.old ctx.old node.now self.new ctx.new node.now) }
        ensures visited { OnOk result (ctx.new.requested ≡ false → visits hook.EnterBindingPattern self.old ctx.old node.now self.new ctx.new) }
    {
        Err(AllocError)
    }

    /// Behind a name that is declared, or a pattern of such and all that lies below it.
    fn exit_binding_pattern(
        &mut self,
        node: &mut Node,
        ctx: &mut MinifierTraverseCtx,
    ) -> Result<(), AllocError>
        requires slot { outer_slot (above_place ctx.old.place) node.old.kind ≡ outer.BindingPattern }
        requires markable { Markable ctx.old (forest_of node.old) }
        ensures moves { OnOk result (NodeMoves Self edit (Holds own) self.old ctx.old node.old self.new ctx.new node.new) }
        ensures visited { OnOk result (ctx.new.requested ≡ false → visits hook.ExitBindingPattern self.old ctx.old node.old self.new ctx.new) }
    {
        Err(AllocError)
    }

    /// Before what lies below a name that is assigned, or a pattern of such.
    fn enter_assignment_target(
        &mut self,
        node: &Node,
        ctx: &mut MinifierTraverseCtx,
    ) -> Result<(), AllocError>
        requires slot { outer_slot (above_place ctx.old.place) node.now.kind ≡ outer.AssignmentTarget }
        requires markable { Markable ctx.old (forest_of node.now) }
        ensures moves { OnOk result (NodeMoves Self edit (Holds own) self.old ctx.old node.now self.new ctx.new node.now) }
        ensures visited { OnOk result (ctx.new.requested ≡ false → visits hook.EnterAssignmentTarget self.old ctx.old node.now self.new ctx.new) }
    {
        Err(AllocError)
    }

    /// Behind a name that is assigned, or a pattern of such and all that lies below it.
    fn exit_assignment_target(
        &mut self,
        node: &mut Node,
        ctx: &mut MinifierTraverseCtx,
    ) -> Result<(), AllocError>
        requires slot { outer_slot (above_place ctx.old.place) node.old.kind ≡ outer.AssignmentTarget }
        requires markable { Markable ctx.old (forest_of node.old) }
        ensures moves { OnOk result (NodeMoves Self edit (Holds own) self.old ctx.old node.old self.new ctx.new node.new) }
        ensures visited { OnOk result (ctx.new.requested ≡ false → visits hook.ExitAssignmentTarget self.old ctx.old node.old self.new ctx.new) }
    {
        Err(AllocError)
    }

    /// Before what lies below a key that is a node: a computed one or a private name.
    fn enter_property_key(
        &mut self,
        node: &Node,
        ctx: &mut MinifierTraverseCtx,
    ) -> Result<(), AllocError>
        requires slot { outer_slot (above_place ctx.old.place) node.now.kind ≡ outer.PropertyKey }
        requires markable { Markable ctx.old (forest_of node.now) }
        ensures moves { OnOk result (NodeMoves Self edit (Holds own) self.old ctx.old node.now self.new ctx.new node.now) }
        ensures visited { OnOk result (ctx.new.requested ≡ false → visits hook.EnterPropertyKey self.old ctx.old node.now self.new ctx.new) }
    {
        Err(AllocError)
    }

    /// Behind a key that is a node: a computed one or a private name and all that lies below it.
    fn exit_property_key(
        &mut self,
        node: &mut Node,
        ctx: &mut MinifierTraverseCtx,
    ) -> Result<(), AllocError>
        requires slot { outer_slot (above_place ctx.old.place) node.old.kind ≡ outer.PropertyKey }
        requires markable { Markable ctx.old (forest_of node.old) }
        ensures moves { OnOk result (NodeMoves Self edit (Holds own) self.old ctx.old node.old self.new ctx.new node.new) }
        ensures visited { OnOk result (ctx.new.requested ≡ false → visits hook.ExitPropertyKey self.old ctx.old node.old self.new ctx.new) }
    {
        Err(AllocError)
    }

    /// Before what lies below a case of a `switch`.
    fn enter_switch_case(
        &mut self,
        node: &Node,
        ctx: &mut MinifierTraverseCtx,
    ) -> Result<(), AllocError>
        requires slot { outer_slot (above_place ctx.old.place) node.now.kind ≡ outer.SwitchCase }
        requires markable { Markable ctx.old (forest_of node.now) }
        ensures moves { OnOk result (NodeMoves Self edit (Holds own) self.old ctx.old node.now self.new ctx.new node.now) }
        ensures visited { OnOk result (ctx.new.requested ≡ false → visits hook.EnterSwitchCase self.old ctx.old node.now self.new ctx.new) }
    {
        Err(AllocError)
    }

    /// Behind a case of a `switch` and all that lies below it.
    fn exit_switch_case(
        &mut self,
        node: &mut Node,
        ctx: &mut MinifierTraverseCtx,
    ) -> Result<(), AllocError>
        requires slot { outer_slot (above_place ctx.old.place) node.old.kind ≡ outer.SwitchCase }
        requires markable { Markable ctx.old (forest_of node.old) }
        ensures moves { OnOk result (NodeMoves Self edit (Holds own) self.old ctx.old node.old self.new ctx.new node.new) }
        ensures visited { OnOk result (ctx.new.requested ≡ false → visits hook.ExitSwitchCase self.old ctx.old node.old self.new ctx.new) }
    {
        Err(AllocError)
    }

    /// Before what lies below the handler of a `try`.
    fn enter_catch_clause(
        &mut self,
        node: &Node,
        ctx: &mut MinifierTraverseCtx,
    ) -> Result<(), AllocError>
        requires slot { outer_slot (above_place ctx.old.place) node.now.kind ≡ outer.CatchClause }
        requires markable { Markable ctx.old (forest_of node.now) }
        ensures moves { OnOk result (NodeMoves Self edit (Holds own) self.old ctx.old node.now self.new ctx.new node.now) }
        ensures visited { OnOk result (ctx.new.requested ≡ false → visits hook.EnterCatchClause self.old ctx.old node.now self.new ctx.new) }
    {
        Err(AllocError)
    }

    /// Behind the handler of a `try` and all that lies below it.
    fn exit_catch_clause(
        &mut self,
        node: &mut Node,
        ctx: &mut MinifierTraverseCtx,
    ) -> Result<(), AllocError>
        requires slot { outer_slot (above_place ctx.old.place) node.old.kind ≡ outer.CatchClause }
        requires markable { Markable ctx.old (forest_of node.old) }
        ensures moves { OnOk result (NodeMoves Self edit (Holds own) self.old ctx.old node.old self.new ctx.new node.new) }
        ensures visited { OnOk result (ctx.new.requested ≡ false → visits hook.ExitCatchClause self.old ctx.old node.old self.new ctx.new) }
    {
        Err(AllocError)
    }

    /// Before what lies below a declarator of a variable.
    fn enter_variable_declarator(
        &mut self,
        node: &Node,
        ctx: &mut MinifierTraverseCtx,
    ) -> Result<(), AllocError>
        requires slot { outer_slot (above_place ctx.old.place) node.now.kind ≡ outer.VariableDeclarator }
        requires markable { Markable ctx.old (forest_of node.now) }
        ensures moves { OnOk result (NodeMoves Self edit (Holds own) self.old ctx.old node.now self.new ctx.new node.now) }
        ensures visited { OnOk result (ctx.new.requested ≡ false → visits hook.EnterVariableDeclarator self.old ctx.old node.now self.new ctx.new) }
    {
        Err(AllocError)
    }

    /// Behind a declarator of a variable and all that lies below it.
    fn exit_variable_declarator(
        &mut self,
        node: &mut Node,
        ctx: &mut MinifierTraverseCtx,
    ) -> Result<(), AllocError>
        requires slot { outer_slot (above_place ctx.old.place) node.old.kind ≡ outer.VariableDeclarator }
        requires markable { Markable ctx.old (forest_of node.old) }
        ensures moves { OnOk result (NodeMoves Self edit (Holds own) self.old ctx.old node.old self.new ctx.new node.new) }
        ensures visited { OnOk result (ctx.new.requested ≡ false → visits hook.ExitVariableDeclarator self.old ctx.old node.old self.new ctx.new) }
    {
        Err(AllocError)
    }

    /// Before what lies below an expression.
    fn enter_expression(
        &mut self,
        node: &Node,
        ctx: &mut MinifierTraverseCtx,
    ) -> Result<(), AllocError>
        requires slot { middle_slot (above_place ctx.old.place) node.now.kind ≡ middle.Expression }
        requires markable { Markable ctx.old (forest_of node.now) }
        ensures moves { OnOk result (NodeMoves Self edit (Holds own) self.old ctx.old node.now self.new ctx.new node.now) }
        ensures visited { OnOk result (ctx.new.requested ≡ false → visits hook.EnterExpression self.old ctx.old node.now self.new ctx.new) }
    {
        Err(AllocError)
    }

    /// Behind an expression and all that lies below it.
    fn exit_expression(
        &mut self,
        node: &mut Node,
        ctx: &mut MinifierTraverseCtx,
    ) -> Result<(), AllocError>
        requires slot { middle_slot (above_place ctx.old.place) node.old.kind ≡ middle.Expression }
        requires markable { Markable ctx.old (forest_of node.old) }
        ensures moves { OnOk result (NodeMoves Self edit (Holds own) self.old ctx.old node.old self.new ctx.new node.new) }
        ensures visited { OnOk result (ctx.new.requested ≡ false → visits hook.ExitExpression self.old ctx.old node.old self.new ctx.new) }
    {
        Err(AllocError)
    }

    /// Before what lies below a function.
    fn enter_function(
        &mut self,
        node: &Node,
        ctx: &mut MinifierTraverseCtx,
    ) -> Result<(), AllocError>
        requires slot { inner_slot node.now.kind ≡ inner.Function }
        requires markable { Markable ctx.old (forest_of node.now) }
        ensures moves { OnOk result (NodeMoves Self edit (Holds own) self.old ctx.old node.now self.new ctx.new node.now) }
        ensures visited { OnOk result (ctx.new.requested ≡ false → visits hook.EnterFunction self.old ctx.old node.now self.new ctx.new) }
    {
        Err(AllocError)
    }

    /// Behind a function and all that lies below it.
    fn exit_function(
        &mut self,
        node: &mut Node,
        ctx: &mut MinifierTraverseCtx,
    ) -> Result<(), AllocError>
        requires slot { inner_slot node.old.kind ≡ inner.Function }
        requires markable { Markable ctx.old (forest_of node.old) }
        ensures moves { OnOk result (NodeMoves Self edit (Holds own) self.old ctx.old node.old self.new ctx.new node.new) }
        ensures visited { OnOk result (ctx.new.requested ≡ false → visits hook.ExitFunction self.old ctx.old node.old self.new ctx.new) }
    {
        Err(AllocError)
    }

    /// Before what lies below a class.
    fn enter_class(&mut self, node: &Node, ctx: &mut MinifierTraverseCtx) -> Result<(), AllocError>
        requires slot { inner_slot node.now.kind ≡ inner.Class }
        requires markable { Markable ctx.old (forest_of node.now) }
        ensures moves { OnOk result (NodeMoves Self edit (Holds own) self.old ctx.old node.now self.new ctx.new node.now) }
        ensures visited { OnOk result (ctx.new.requested ≡ false → visits hook.EnterClass self.old ctx.old node.now self.new ctx.new) }
    {
        Err(AllocError)
    }

    /// Behind a class and all that lies below it.
    fn exit_class(
        &mut self,
        node: &mut Node,
        ctx: &mut MinifierTraverseCtx,
    ) -> Result<(), AllocError>
        requires slot { inner_slot node.old.kind ≡ inner.Class }
        requires markable { Markable ctx.old (forest_of node.old) }
        ensures moves { OnOk result (NodeMoves Self edit (Holds own) self.old ctx.old node.old self.new ctx.new node.new) }
        ensures visited { OnOk result (ctx.new.requested ≡ false → visits hook.ExitClass self.old ctx.old node.old self.new ctx.new) }
    {
        Err(AllocError)
    }

    /// Before what lies below a declaration of variables.
    fn enter_variable_declaration(
        &mut self,
        node: &Node,
        ctx: &mut MinifierTraverseCtx,
    ) -> Result<(), AllocError>
        requires slot { inner_slot node.now.kind ≡ inner.VariableDeclaration }
        requires markable { Markable ctx.old (forest_of node.now) }
        ensures moves { OnOk result (NodeMoves Self edit (Holds own) self.old ctx.old node.now self.new ctx.new node.now) }
        ensures visited { OnOk result (ctx.new.requested ≡ false → visits hook.EnterVariableDeclaration self.old ctx.old node.now self.new ctx.new) }
    {
        Err(AllocError)
    }

    /// Behind a declaration of variables and all that lies below it.
    fn exit_variable_declaration(
        &mut self,
        node: &mut Node,
        ctx: &mut MinifierTraverseCtx,
    ) -> Result<(), AllocError>
        requires slot { inner_slot node.old.kind ≡ inner.VariableDeclaration }
        requires markable { Markable ctx.old (forest_of node.old) }
        ensures moves { OnOk result (NodeMoves Self edit (Holds own) self.old ctx.old node.old self.new ctx.new node.new) }
        ensures visited { OnOk result (ctx.new.requested ≡ false → visits hook.ExitVariableDeclaration self.old ctx.old node.old self.new ctx.new) }
    {
        Err(AllocError)
    }
}
