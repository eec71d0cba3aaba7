// Entering scopes (ECMA-262 9.1, 10.2.11, 14.2.3).
ghost use Rattle.std.specs.Prelude.{◌≡◌, IfOk, if◌then◌else◌};
ghost use Rattle.js_syntax.specs.Node.{row};
ghost use Rattle.js_meaning.specs.Value as meant;
ghost use Rattle.js_meaning.specs.State.{M, unknown};
ghost use Rattle.js_meaning.specs.Scope.{with_slot, declare, initialised, fill, start_function, start_default, start_item, start, copy_slot, copy};
ghost use Rattle.run_value.specs.View.{value_of};
ghost use Rattle.run_value.specs.Name.{slot_of, maybe_slot};
ghost use Rattle.run_names.specs.Held.{maybe_held};
ghost use Rattle.run_names.specs.Way.{way_of, decls_of};
ghost use Rattle.run_world.specs.World.{at, cell_of};

use crate::world::{Cell, World};
use js_syntax::{FunctionKind, NodeKind};
use js_tree::Node;
use run_names::{Decl, Way, first_name};
use run_value::{Env, Plain, Slot, Value};
use std::alloc::{AllocError, Global};

impl<'a> World<'a> {
    fn slot_for(&mut self, way: Way<'a>) -> Result<Slot<'a>, AllocError>
        ensures does { IfOk result (λ s. (k : meant.Slot → M) → at self.old (with_slot (way_of way.entry) k) ≡ at self.new (k (slot_of s))) }
    {
        match way {
            Way::Waiting(constant) => {
                let value = None;
                let number = self.alloc(Cell { constant, value })?;
                Ok(Slot::Local(number))
            }
            Way::Ready => {
                let constant = false;
                let value = Some(Value::Plain(Plain::Undefined));
                let number = self.alloc(Cell { constant, value })?;
                Ok(Slot::Local(number))
            }
            Way::Linked { source, name } => Ok(Slot::Imported { source, name }),
            Way::LeftOut => Ok(Slot::ArgumentsObject),
        }
    }

    /// Declares names in front of those around.
    #[tactic(auto, unfolding(js_meaning::specs::Scope::declare))]
    pub fn declare(
        &mut self,
        alloc: Global,
        decls: &[Decl<'a>],
        env: Env<'a>,
    ) -> Result<Env<'a>, AllocError>
        ensures does { IfOk result (λ e. (k : meant.Env → M) → at self.old (declare (decls_of decls.now) env.entry k) ≡ at self.new (k e)) }
    {
        match decls {
            [first, others @ ..] => {
                let slot = self.slot_for(first.way)?;
                let env = env.with(alloc, first.name, slot)?;
                self.declare(alloc, others, env)
            }
            [] => Ok(env),
        }
    }

    /// Gives a name its first value: false where nothing is said of that.
    pub fn fill(&mut self, slot: Option<Slot<'a>>, value: Value<'a>) -> Result<bool, AllocError>
        ensures does { IfOk result (λ b. (m : M) → at self.old (fill (maybe_slot slot.entry) (value_of value.entry) m) ≡ at self.new (if b then m else unknown)) }
    {
        match slot {
            Some(Slot::Local(number)) => {
                let old = self.read(number)?;
                let constant = old.constant;
                let value = Some(value);
                self.store(number, Cell { constant, value })?;
                Ok(true)
            }
            Some(Slot::Imported { .. }) => Ok(false),
            Some(Slot::ArgumentsObject) => Ok(false),
            None => Ok(false),
        }
    }

    fn start_function(
        &mut self,
        name: Option<&'a str>,
        below: &'a [Option<Node>],
        env: &Env<'a>,
    ) -> Result<bool, AllocError>
        ensures does { IfOk result (λ b. (m : M) → at self.old (start_function (maybe_held name.entry) (row below.now) env.now m) ≡ at self.new (if b then m else unknown)) }
    {
        match name {
            Some(name) => {
                let number = self.identity()?;
                let around = env.copy()?;
                let value = Value::Closure(number, FunctionKind::Declaration, below, around);
                self.fill(env.look(name), value)
            }
            None => Ok(true),
        }
    }

    // What follows below a node where the functions of a scope are given their values.
    #[cycle(start)]
    fn start_node(&mut self, node: &'a Node, env: &Env<'a>) -> Result<bool, AllocError>
        ensures does { IfOk result (λ b. (m : M) → at self.old (start_item node.now.kind node.now.below (start node.now.below env.now) env.now m) ≡ at self.new (if b then m else unknown)) }
    {
        match node.kind() {
            NodeKind::Function {
                kind: FunctionKind::Declaration,
                ..
            } => self.start_function(first_name(node.children()), node.children(), env),
            NodeKind::ExportNamedDeclaration(None) => self.start(node.children(), env),
            NodeKind::ExportDefaultDeclaration => self.start_default(node.children(), env),
            NodeKind::FunctionBody
            | NodeKind::Statements
            | NodeKind::Cases
            | NodeKind::SwitchCase => self.start(node.children(), env),
            _ => Ok(true),
        }
    }

    #[cycle(start)]
    fn start_default(
        &mut self,
        nodes: &'a [Option<Node>],
        env: &Env<'a>,
    ) -> Result<bool, AllocError>
        ensures does { IfOk result (λ b. (m : M) → at self.old (start_default (row nodes.now) (start (row nodes.now) env.now) env.now m) ≡ at self.new (if b then m else unknown)) }
    {
        match nodes {
            [Some(node), ..] => match node.kind() {
                NodeKind::Function {
                    kind: FunctionKind::Declaration,
                    ..
                } => self.start_function(
                    Some(first_name(node.children()).unwrap_or("*default*")),
                    node.children(),
                    env,
                ),
                _ => self.start(nodes, env),
            },
            _ => self.start(nodes, env),
        }
    }

    /// Gives the functions of a scope their values (10.2.11, 14.2.3): false where nothing is said of that.
    #[cycle(start)]
    #[tactic(auto, unfolding(js_meaning::specs::Scope::start))]
    pub fn start(&mut self, nodes: &'a [Option<Node>], env: &Env<'a>) -> Result<bool, AllocError>
        ensures does { IfOk result (λ b. (m : M) → at self.old (start (row nodes.now) env.now m) ≡ at self.new (if b then m else unknown)) }
    {
        match nodes {
            [Some(node), others @ ..] => {
                if self.start_node(node, env)? {
                    self.start(others, env)
                } else {
                    Ok(false)
                }
            }
            [None, others @ ..] => self.start(others, env),
            [] => Ok(true),
        }
    }

    fn copy_slot(
        &mut self,
        alloc: Global,
        name: &'a str,
        slot: Option<Slot<'a>>,
        env: Env<'a>,
    ) -> Result<Env<'a>, AllocError>
        ensures does { IfOk result (λ e. (k : meant.Env → M) → at self.old (copy_slot (maybe_slot slot.entry) name.now env.entry k) ≡ at self.new (k e)) }
    {
        match slot {
            Some(Slot::Local(number)) => {
                let cell = self.read(number)?;
                let number = self.alloc(cell)?;
                env.with(alloc, name, Slot::Local(number))
            }
            Some(Slot::Imported { .. }) => Ok(env),
            Some(Slot::ArgumentsObject) => Ok(env),
            None => Ok(env),
        }
    }

    /// Cells of their own for the names of a `for` (14.7.4.4), with the values of those before.
    #[tactic(auto, unfolding(js_meaning::specs::Scope::copy))]
    pub fn copy(
        &mut self,
        alloc: Global,
        decls: &[Decl<'a>],
        env: Env<'a>,
    ) -> Result<Env<'a>, AllocError>
        ensures does { IfOk result (λ e. (k : meant.Env → M) → at self.old (copy (decls_of decls.now) env.entry k) ≡ at self.new (k e)) }
    {
        match decls {
            [first, others @ ..] => {
                let slot = env.look(first.name);
                let env = self.copy_slot(alloc, first.name, slot, env)?;
                self.copy(alloc, others, env)
            }
            [] => Ok(env),
        }
    }
}
