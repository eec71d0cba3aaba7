// The context of a node's child.
ghost use Rattle.std.specs.Prelude.{◌≡◌, ◌∷◌, IfOk};
ghost use Rattle.scope_rules.specs.Context.{in_body, in_block, in_variables, at_function_name, at_class_name, at_parameters, in_function, declares, used, role_of, role_of_object, of_method, below_it, beside, of_function, body_of, layers_of_parameters, inside};
ghost use Rattle.scope_context.specs.Frame.{frame_of};

use crate::bits::opens;
use crate::context::{Context, body_of, own_name_of, parameters_of};
use crate::frame::Frame;
use js_syntax::{AssignmentOperator, ClassKind, FunctionKind, MethodKind, VariableKind};
use js_tree::{Node, NodeKind};
use scope_rules::Role;
use std::alloc::AllocError;

fn role_of(operator: AssignmentOperator) -> Role
    ensures { result ≡ role_of operator }
{
    match operator {
        AssignmentOperator::Assign => Role::Write,
        _ => Role::ReadAndWrite,
    }
}

fn role_of_object(role: Role) -> Role
    ensures { result ≡ role_of_object role }
{
    match role {
        Role::Write | Role::ReadAndWrite => Role::Object,
        _ => Role::Read,
    }
}

impl Context {
    // In a scope of a body alone, in which `var` declares.
    fn in_body(&self, scope: u32, frame: &Frame) -> Result<Context, AllocError>
        requires layers { frame.now.layers ≡ body_of scope ∷ self.now.layers }
        ensures { IfOk result (λ c. c ≡ in_body self.now scope frame.now.strict) }
    {
        let body = body_of(scope);
        Ok(self.entered(scope, body, body, frame.layers()?, frame.strict()))
    }

    // In one through which `var` passes.
    fn in_block(&self, scope: u32, frame: &Frame) -> Result<Context, AllocError>
        requires layers { frame.now.layers ≡ body_of scope ∷ self.now.layers }
        ensures { IfOk result (λ c. c ≡ in_block self.now scope frame.now.strict) }
    {
        let layers = frame.layers()?;
        Ok(self.entered(
            scope,
            self.variables(),
            body_of(scope),
            layers,
            frame.strict(),
        ))
    }

    fn in_variables(&self, how: VariableKind) -> Result<Context, AllocError>
        ensures { IfOk result (λ c. c ≡ in_variables self.now how) }
    {
        match how {
            VariableKind::Var => self.declares(self.variables(), 1, false),
            VariableKind::Let => self.declares(self.block(), 2, false),
            VariableKind::Const => self.declares(self.block(), 6, false),
        }
    }

    fn at_function_name(
        &self,
        scope: u32,
        how: FunctionKind,
        is_pure: bool,
    ) -> Result<Context, AllocError>
        ensures { IfOk result (λ c. c ≡ at_function_name self.now scope how is_pure) }
    {
        match how {
            FunctionKind::Declaration => self.declares(self.block(), 32, is_pure),
            _ => self.declares(own_name_of(scope), 32, false),
        }
    }

    fn at_class_name(&self, scope: u32, how: ClassKind) -> Result<Context, AllocError>
        ensures { IfOk result (λ c. c ≡ at_class_name self.now scope how) }
    {
        match how {
            ClassKind::Declaration => self.declares(self.block(), 8, false),
            ClassKind::Expression => self.declares(body_of(scope), 8, false),
        }
    }

    fn at_parameters(
        &self,
        scope: u32,
        how: FunctionKind,
        frame: &Frame,
    ) -> Result<Context, AllocError>
        requires layers { frame.now.layers ≡ layers_of_parameters how scope self.now.layers }
        ensures { IfOk result (λ c. c ≡ at_parameters self.now scope how frame.now.strict) }
    {
        let layer = parameters_of(scope);
        let inner = self.entered(scope, layer, layer, frame.layers()?, frame.strict());
        inner.declares(layer, 1, false)
    }

    fn in_function(
        &self,
        scope: u32,
        how: FunctionKind,
        frame: &Frame,
    ) -> Result<Context, AllocError>
        requires layers { frame.now.body ≡ body_of scope ∷ layers_of_parameters how scope self.now.layers }
        ensures { IfOk result (λ c. c ≡ in_function self.now scope how frame.now.strict) }
    {
        let body = body_of(scope);
        Ok(self.entered(scope, body, body, frame.body()?, frame.strict()))
    }

    // The child of a function: its name, its parameters, its body.
    fn of_function(
        &self,
        how: FunctionKind,
        is_pure: bool,
        frame: &Frame,
        scope: u32,
        at: usize,
    ) -> Result<Context, AllocError>
        requires layers { frame.now.layers ≡ layers_of_parameters how scope self.now.layers }
        requires body { frame.now.body ≡ body_of scope ∷ layers_of_parameters how scope self.now.layers }
        ensures { IfOk result (λ c. c ≡ of_function self.now scope how is_pure frame.now.strict at) }
    {
        if at == 0 {
            self.at_function_name(scope, how, is_pure)
        } else if at == 1 {
            self.at_parameters(scope, how, frame)
        } else {
            self.in_function(scope, how, frame)
        }
    }

    fn of_method(&self, how: MethodKind) -> Result<Context, AllocError>
        ensures { IfOk result (λ c. c ≡ of_method self.now how) }
    {
        match how {
            MethodKind::Constructor => self.as_constructor(),
            _ => self.below_it(),
        }
    }

    // The context of a child below a node that makes no scope.
    fn beside(&self, kind: &NodeKind, at: usize) -> Result<Context, AllocError>
        ensures { IfOk result (λ c. c ≡ beside self.now kind.now at) }
    {
        match kind {
            NodeKind::MethodDefinition { kind, .. } => {
                if at == 1 {
                    self.of_method(*kind)
                } else {
                    self.below_it()
                }
            }
            NodeKind::VariableDeclaration(how) => self.in_variables(*how),
            NodeKind::ImportDeclaration(_) => self.declares(self.block(), 64, false),
            NodeKind::AssignmentExpression(operator) => {
                if at == 0 {
                    self.used(role_of(*operator))
                } else {
                    self.below_it()
                }
            }
            NodeKind::UpdateExpression { .. } => self.used(Role::ReadAndWrite),
            NodeKind::MemberExpression { .. } => {
                if at == 0 {
                    self.used(role_of_object(self.role()))
                } else {
                    self.below_it()
                }
            }
            NodeKind::ParenthesizedExpression | NodeKind::Elements | NodeKind::Properties => {
                self.used(self.role())
            }
            NodeKind::TargetArray | NodeKind::TargetObject | NodeKind::TargetRest => {
                self.used(Role::Write)
            }
            NodeKind::TargetProperty(_) => {
                if at == 1 {
                    self.used(Role::Write)
                } else {
                    self.below_it()
                }
            }
            NodeKind::TargetDefault => {
                if at == 0 {
                    self.used(Role::Write)
                } else {
                    self.below_it()
                }
            }
            _ => self.below_it(),
        }
    }

    /// The context of the child at a place among those below a node of this context and this frame.
    pub fn inside(
        &self,
        node: &Node,
        frame: &Frame,
        scope: u32,
        at: usize,
    ) -> Result<Context, AllocError>
        requires frame { frame.now ≡ frame_of self.now scope node.now }
        ensures inside { IfOk result (λ c. c ≡ inside self.now scope node.now.kind node.now.below at) }
    {
        match node.kind() {
            NodeKind::Program(_) | NodeKind::StaticBlock => self.in_body(scope, frame),
            NodeKind::Function {
                kind,
                no_side_effects,
            } => self.of_function(*kind, *no_side_effects, frame, scope, at),
            NodeKind::Class(how) => {
                if at == 0 {
                    self.at_class_name(scope, *how)
                } else {
                    self.in_block(scope, frame)
                }
            }
            NodeKind::BlockStatement | NodeKind::ForStatement => self.in_block(scope, frame),
            NodeKind::SwitchStatement | NodeKind::WithStatement => {
                if at == 1 {
                    self.in_block(scope, frame)
                } else {
                    self.below_it()
                }
            }
            NodeKind::CatchClause => {
                let inner = self.in_block(scope, frame)?;
                if at == 0 {
                    inner.declares(body_of(scope), 16, false)
                } else {
                    Ok(inner)
                }
            }
            NodeKind::ForInStatement | NodeKind::ForOfStatement => {
                let inner = self.in_block(scope, frame)?;
                if at == 0 {
                    inner.used(Role::Write)
                } else {
                    Ok(inner)
                }
            }
            NodeKind::PropertyDefinition { .. } => {
                if opens(node) && at == 1 {
                    self.in_block(scope, frame)
                } else {
                    self.below_it()
                }
            }
            kind => self.beside(kind, at),
        }
    }
}
