// The context of a node's child.
ghost use Rattle.std.specs.Prelude.{◌≡◌, IfOk};
ghost use Rattle.form_rules.specs.Context.{role_of_method, role_of_property, inside};
ghost use Rattle.form_context.specs.Frame.{frame_of};

use crate::context::Context;
use crate::frame::Frame;
use form_rules::Role;
use js_syntax::{MethodKind, PropertyKind};
use js_tree::{Node, NodeKind};
use std::alloc::AllocError;

fn role_of_method(how: MethodKind, is_derived: bool) -> Role
    ensures { result ≡ role_of_method how is_derived }
{
    match how {
        MethodKind::Constructor => {
            if is_derived {
                Role::DerivedConstructor
            } else {
                Role::Method
            }
        }
        _ => Role::Method,
    }
}

fn role_of_property(how: PropertyKind, is_method: bool) -> Role
    ensures { result ≡ role_of_property how is_method }
{
    match how {
        PropertyKind::Init => { if is_method { Role::Method } else { Role::Plain } }
        _ => Role::Method,
    }
}

impl<'a> Context<'a> {
    /// The context of the child at a place among those below a node of this context and this frame.
    pub fn inside(
        &self,
        node: &Node,
        frame: &Frame<'a>,
        at: usize,
    ) -> Result<Context<'a>, AllocError>
        requires frame { frame.now ≡ frame_of self.now node.now }
        ensures inside { IfOk result (λ c. c ≡ inside self.now node.now.kind node.now.below at) }
    {
        match node.kind() {
            NodeKind::Program(_) => self.in_strict_program(frame.strict()),
            NodeKind::Function { kind, .. } => self.in_function(*kind, frame.strict()),
            NodeKind::Class(_) => self.in_class(frame.privates()?, frame.is_derived()),
            NodeKind::MethodDefinition { kind, .. } => {
                if at == 1 {
                    self.as_role(role_of_method(*kind, self.is_derived()))
                } else {
                    self.below_it()
                }
            }
            NodeKind::PropertyDefinition { .. } => {
                if at == 1 {
                    self.bordered(self.strict(), false, false, true, true)
                } else {
                    self.below_it()
                }
            }
            NodeKind::StaticBlock => self.bordered(self.strict(), false, false, true, true),
            NodeKind::Property {
                kind,
                is_method,
                ..
            } => {
                if at == 1 {
                    self.as_role(role_of_property(*kind, *is_method))
                } else {
                    self.below_it()
                }
            }
            NodeKind::LabeledStatement(_) => self.behind_label(frame.labels()?),
            NodeKind::IfStatement | NodeKind::WithStatement => {
                if at == 0 {
                    self.below_it()
                } else {
                    self.as_body()
                }
            }
            NodeKind::WhileStatement => {
                if at == 0 {
                    self.below_it()
                } else {
                    self.in_loop()
                }
            }
            NodeKind::DoWhileStatement => {
                if at == 0 {
                    self.in_loop()
                } else {
                    self.below_it()
                }
            }
            NodeKind::ForStatement => {
                if at == 3 {
                    self.in_loop()
                } else {
                    self.below_it()
                }
            }
            NodeKind::ForInStatement | NodeKind::ForOfStatement => {
                if at == 2 {
                    self.in_loop()
                } else if at == 0 {
                    self.in_head()
                } else {
                    self.below_it()
                }
            }
            NodeKind::SwitchStatement => {
                if at == 1 {
                    self.in_switch()
                } else {
                    self.below_it()
                }
            }
            _ => self.below_it(),
        }
    }
}
