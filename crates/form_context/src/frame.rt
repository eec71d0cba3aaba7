// What a node makes of its context for its children.
ghost use Rattle.std.specs.Prelude.{◌≡◌, IfOk};
ghost use Rattle.form_rules.specs.Context.{privates_of};
ghost use Rattle.form_context.specs.Frame.{frame_of, strict_in, is_derived_in, labels_in, privates_in};
ghost use Rattle.form_context.specs.Name.{listed, all_listed};

use crate::context::{Context, Label, copy_labels, copy_privates};
use crate::names::Names;
use crate::scan::{add_privates, extends_another, is_loop, is_strict_function, is_strict_list};
use js_tree::{Node, NodeKind, SourceType};
use std::alloc::{AllocError, Global};
use std::marker::Model;
use std::rc::Rc;

/// What a node makes of its context, worked out once for all its children.
pub struct Frame<'a> {
    strict: bool,
    is_derived: bool,
    labels: Option<Rc<Vec<Label<'a>>>>,
    privates: Option<Rc<Vec<Rc<Names<'a>>>>>,
}

impl<'a> Drop for Frame<'a> {
    fn drop(self) {
        let Frame {
            strict: _,
            is_derived: _,
            labels: _,
            privates: _,
        } = self;
    }
}

impl<'a> Model for Frame<'a> {
    ghost use Rattle.form_context.specs.Frame.{Frame};
    ghost use Rattle.form_context.specs.Name.{listed, all_listed};

    ghost Value = { Frame };

    ghost view = { λ f. record { strict = f.strict; is_derived = f.is_derived; labels = listed f.labels; privates = all_listed f.privates } };
}

// The labels behind a labeled statement: its own, and those around it. None for other nodes.
fn labels_in<'a>(
    alloc: Global,
    context: &Context<'a>,
    node: &'a Node,
) -> Result<Option<Rc<Vec<Label<'a>>>>, AllocError>
    ensures { IfOk result (λ l. listed l ≡ labels_in context.now node.now.kind node.now.below) }
{
    match node.kind() {
        NodeKind::LabeledStatement(name) => {
            let label = Label::new(name.as_str(), is_loop(node.children()));
            let labels = context.with_label(alloc, label)?;
            Ok(Some(Rc::new(alloc, labels)?))
        }
        _ => Ok(None),
    }
}

// The private names that a class declares.
fn own_privates<'a>(alloc: Global, class: &'a Node) -> Result<Rc<Names<'a>>, AllocError>
    ensures { IfOk result (λ n. n.value ≡ privates_of class.now.below) }
{
    let mut found = Vec::new(alloc);
    add_privates(class.children(), &mut found)?;
    let names = Names::new(alloc, found)?;
    Ok(Rc::new(alloc, names)?)
}

// The private names in a class: its own, and those around it. None for other nodes.
fn privates_in<'a>(
    alloc: Global,
    context: &Context<'a>,
    node: &'a Node,
) -> Result<Option<Rc<Vec<Rc<Names<'a>>>>>, AllocError>
    ensures { IfOk result (λ p. all_listed p ≡ privates_in context.now node.now.kind node.now.below) }
{
    match node.kind() {
        NodeKind::Class(_) => {
            let own = own_privates(alloc, node)?;
            let privates = context.with_privates(alloc, own)?;
            Ok(Some(Rc::new(alloc, privates)?))
        }
        _ => Ok(None),
    }
}

fn strict_in(context: &Context<'_>, node: &Node) -> bool
    ensures { result ≡ strict_in context.now node.now.kind node.now.below }
{
    match node.kind() {
        NodeKind::Program(source) => {
            matches!(source, SourceType::Module) || is_strict_list(node.children())
        }
        NodeKind::Function { .. } => context.strict() || is_strict_function(node.children()),
        _ => false,
    }
}

fn is_derived_in(node: &Node) -> bool
    ensures { result ≡ is_derived_in node.now.kind node.now.below }
{
    match node.kind() {
        NodeKind::Class(_) => extends_another(node.children()),
        _ => false,
    }
}

impl<'a> Frame<'a> {
    /// The frame of a node.
    pub fn new(
        alloc: Global,
        context: &Context<'a>,
        node: &'a Node,
    ) -> Result<Frame<'a>, AllocError>
        ensures frame { IfOk result (λ f. f ≡ frame_of context.now node.now) }
    {
        Ok(Frame {
            strict: strict_in(context, node),
            is_derived: is_derived_in(node),
            labels: labels_in(alloc, context, node)?,
            privates: privates_in(alloc, context, node)?,
        })
    }

    pub(crate) fn strict(&self) -> bool
        ensures { result ≡ self.now.strict }
    {
        self.strict
    }

    pub(crate) fn is_derived(&self) -> bool
        ensures { result ≡ self.now.is_derived }
    {
        self.is_derived
    }

    pub(crate) fn labels(&self) -> Result<Option<Rc<Vec<Label<'a>>>>, AllocError>
        ensures { IfOk result (λ l. listed l ≡ self.now.labels) }
    {
        copy_labels(&self.labels)
    }

    pub(crate) fn privates(&self) -> Result<Option<Rc<Vec<Rc<Names<'a>>>>>, AllocError>
        ensures { IfOk result (λ p. all_listed p ≡ self.now.privates) }
    {
        copy_privates(&self.privates)
    }
}
