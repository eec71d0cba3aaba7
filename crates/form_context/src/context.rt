// The context of a node.
ghost use Rattle.std.specs.Prelude.{◌≡◌, ◌∷◌, ◌++◌, true, map, IfOk, OnOk};
ghost use Rattle.std.specs.Str.{bytes_eq};
ghost use Rattle.form_rules.specs.Context.{context, below_it, as_role, in_head, as_body, in_loop, in_switch, alone, bordered, in_function, is_method, is_constructor, outermost};
ghost use Rattle.form_rules.specs.Name.{is_among};
ghost use Rattle.form_rules.specs.Rules.{has_label, has_loop};
ghost use Rattle.form_context.specs.Name.{all_names, listed, all_listed};

use crate::names::Names;
use form_rules::Role;
use js_syntax::FunctionKind;
use js_tree::SourceType;
use std::alloc::{AllocError, Global};
use std::marker::Model;
use std::rc::Rc;

// A label, and whether it is a loop's.
#[derive(Drop)]
pub(crate) struct Label<'a> {
    name: &'a str,
    is_loop: bool,
}

impl<'a> Model for Label<'a> {
    ghost use Rattle.form_rules.specs.Context.{Label};

    ghost Value = { Label };

    ghost view = { λ l. record { name = l.name.now; is_loop = l.is_loop } };
}

impl<'a> Label<'a> {
    pub(crate) fn new(name: &'a str, is_loop: bool) -> Label<'a>
        ensures { result ≡ record { name = name.now; is_loop = is_loop } }
    {
        Label { name, is_loop }
    }

    pub(crate) fn copy(&self) -> Label<'a>
        ensures { result ≡ self.now }
    {
        Label {
            name: self.name,
            is_loop: self.is_loop,
        }
    }

    fn is(&self, name: &str) -> bool
        ensures { result ≡ bytes_eq self.now.name name.now }
    {
        self.name == name
    }
}

fn has_label(labels: &[Label], name: &str) -> bool
    ensures { result ≡ has_label name.now labels.now }
{
    for label in labels {
        if label.is(name) {
            return true;
        }
    }
    false
}

fn has_loop(labels: &[Label], name: &str) -> bool
    ensures { result ≡ has_loop name.now labels.now }
{
    for label in labels {
        if label.is(name) && label.is_loop {
            return true;
        }
    }
    false
}

fn is_known<'a>(privates: &[Rc<Names<'a>>], name: &'a str) -> bool
    ensures { result ≡ is_among name.now (all_names (map (λ n. n.value) privates.now)) }
{
    for names in privates {
        if names.contains(name) {
            return true;
        }
    }
    false
}

fn add_labels<'a>(labels: &[Label<'a>], all: &mut Vec<Label<'a>>) -> Result<(), AllocError>
    ensures { OnOk result (all.new.items ≡ all.old.items ++ labels.now) }
{
    for label in labels {
        all.push(label.copy())?;
    }
    Ok(())
}

fn add_privates<'a>(
    privates: &[Rc<Names<'a>>],
    all: &mut Vec<Rc<Names<'a>>>,
) -> Result<(), AllocError>
    ensures { OnOk result (all_names (map (λ n. n.value) all.new.items) ≡ all_names (map (λ n. n.value) all.old.items) ++ all_names (map (λ n. n.value) privates.now)) }
{
    for names in privates {
        all.push(names.clone()?)?;
    }
    Ok(())
}

// The same list once more.
pub(crate) fn copy_labels<'a>(
    labels: &Option<Rc<Vec<Label<'a>>>>,
) -> Result<Option<Rc<Vec<Label<'a>>>>, AllocError>
    ensures { IfOk result (λ l. listed l ≡ listed labels.now) }
{
    match labels {
        Some(labels) => Ok(Some(labels.clone()?)),
        None => Ok(None),
    }
}

pub(crate) fn copy_privates<'a>(
    privates: &Option<Rc<Vec<Rc<Names<'a>>>>>,
) -> Result<Option<Rc<Vec<Rc<Names<'a>>>>>, AllocError>
    ensures { IfOk result (λ p. all_listed p ≡ all_listed privates.now) }
{
    match privates {
        Some(privates) => Ok(Some(privates.clone()?)),
        None => Ok(None),
    }
}

/// What stands around a node.
pub struct Context<'a> {
    source: SourceType,
    strict: bool,
    returns: bool,
    breaks: bool,
    continues: bool,
    labels: Option<Rc<Vec<Label<'a>>>>,
    privates: Option<Rc<Vec<Rc<Names<'a>>>>>,
    super_calls: bool,
    super_members: bool,
    new_target: bool,
    is_derived: bool,
    role: Role,
    is_alone: bool,
    is_head: bool,
}

impl<'a> Drop for Context<'a> {
    fn drop(self) {
        let Context {
            source: _,
            strict: _,
            returns: _,
            breaks: _,
            continues: _,
            labels: _,
            privates: _,
            super_calls: _,
            super_members: _,
            new_target: _,
            is_derived: _,
            role: _,
            is_alone: _,
            is_head: _,
        } = self;
    }
}

impl<'a> Model for Context<'a> {
    ghost use Rattle.form_rules.specs.Context.{Context};
    ghost use Rattle.form_context.specs.Name.{listed, all_listed};

    ghost Value = { Context };

    ghost view = { λ c. record { source = c.source; strict = c.strict; leaves = record { returns = c.returns; breaks = c.breaks; continues = c.continues; labels = listed c.labels }; members = record { privates = all_listed c.privates; super_calls = c.super_calls; super_members = c.super_members; new_target = c.new_target; is_derived = c.is_derived }; role = c.role; is_alone = c.is_alone; is_head = c.is_head } };
}

fn is_method(role: Role) -> bool
    ensures { result ≡ is_method role }
{
    !matches!(role, Role::Plain)
}

fn is_constructor(role: Role) -> bool
    ensures { result ≡ is_constructor role }
{
    matches!(role, Role::DerivedConstructor)
}

impl<'a> Context<'a> {
    /// That of a program.
    pub fn outermost(source: SourceType) -> Context<'a>
        ensures outermost { result ≡ outermost source }
    {
        Context {
            source,
            strict: false,
            returns: matches!(source, SourceType::CommonJs),
            breaks: false,
            continues: false,
            labels: None,
            privates: None,
            super_calls: false,
            super_members: false,
            new_target: false,
            is_derived: false,
            role: Role::Plain,
            is_alone: false,
            is_head: false,
        }
    }

    // That of a child of which nothing is said alone.
    pub(crate) fn below_it(&self) -> Result<Context<'a>, AllocError>
        ensures { IfOk result (λ c. c ≡ below_it self.now) }
    {
        Ok(Context {
            source: self.source,
            strict: self.strict,
            returns: self.returns,
            breaks: self.breaks,
            continues: self.continues,
            labels: copy_labels(&self.labels)?,
            privates: copy_privates(&self.privates)?,
            super_calls: self.super_calls,
            super_members: self.super_members,
            new_target: self.new_target,
            is_derived: self.is_derived,
            role: Role::Plain,
            is_alone: false,
            is_head: false,
        })
    }

    pub(crate) fn as_role(&self, role: Role) -> Result<Context<'a>, AllocError>
        ensures { IfOk result (λ c. c ≡ as_role role self.now) }
    {
        let mut context = self.below_it()?;
        context.role = role;
        Ok(context)
    }

    pub(crate) fn in_head(&self) -> Result<Context<'a>, AllocError>
        ensures { IfOk result (λ c. c ≡ in_head self.now) }
    {
        let mut context = self.below_it()?;
        context.is_head = true;
        Ok(context)
    }

    pub(crate) fn as_body(&self) -> Result<Context<'a>, AllocError>
        ensures { IfOk result (λ c. c ≡ as_body self.now) }
    {
        let mut context = self.below_it()?;
        context.is_alone = true;
        Ok(context)
    }

    pub(crate) fn in_loop(&self) -> Result<Context<'a>, AllocError>
        ensures { IfOk result (λ c. c ≡ in_loop self.now) }
    {
        let mut context = self.below_it()?;
        context.breaks = true;
        context.continues = true;
        context.is_alone = true;
        Ok(context)
    }

    pub(crate) fn in_switch(&self) -> Result<Context<'a>, AllocError>
        ensures { IfOk result (λ c. c ≡ in_switch self.now) }
    {
        let mut context = self.below_it()?;
        context.breaks = true;
        Ok(context)
    }

    pub(crate) fn in_strict_program(&self, strict: bool) -> Result<Context<'a>, AllocError>
        ensures { IfOk result (λ c. c ≡ context self.now strict self.now.leaves self.now.members) }
    {
        let mut context = self.below_it()?;
        context.strict = strict;
        Ok(context)
    }

    // Behind a label: `labels` are those of the context with the label before them.
    pub(crate) fn behind_label(
        &self,
        labels: Option<Rc<Vec<Label<'a>>>>,
    ) -> Result<Context<'a>, AllocError>
        ensures { IfOk result (λ c. c ≡ alone (record { returns = self.now.leaves.returns; breaks = self.now.leaves.breaks; continues = self.now.leaves.continues; labels = listed labels.entry }) self.now) }
    {
        let mut context = self.below_it()?;
        context.labels = labels;
        context.is_alone = true;
        Ok(context)
    }

    // Behind a border, which no label and nothing that may be left crosses.
    pub(crate) fn bordered(
        &self,
        strict: bool,
        returns: bool,
        super_calls: bool,
        super_members: bool,
        new_target: bool,
    ) -> Result<Context<'a>, AllocError>
        ensures { IfOk result (λ c. c ≡ bordered self.now strict returns super_calls super_members new_target) }
    {
        let labels = None;
        Ok(Context {
            source: self.source,
            strict,
            returns,
            breaks: false,
            continues: false,
            labels,
            privates: copy_privates(&self.privates)?,
            super_calls,
            super_members,
            new_target,
            is_derived: self.is_derived,
            role: Role::Plain,
            is_alone: false,
            is_head: false,
        })
    }

    // In a class: `privates` are those that it declares, and then those of the context.
    pub(crate) fn in_class(
        &self,
        privates: Option<Rc<Vec<Rc<Names<'a>>>>>,
        is_derived: bool,
    ) -> Result<Context<'a>, AllocError>
        ensures { IfOk result (λ c. c ≡ context self.now true self.now.leaves (record { privates = all_listed privates.entry; super_calls = self.now.members.super_calls; super_members = self.now.members.super_members; new_target = self.now.members.new_target; is_derived = is_derived })) }
    {
        let mut context = self.below_it()?;
        context.strict = true;
        context.privates = privates;
        context.is_derived = is_derived;
        Ok(context)
    }

    pub(crate) fn in_function(
        &self,
        how: FunctionKind,
        strict: bool,
    ) -> Result<Context<'a>, AllocError>
        ensures { IfOk result (λ c. c ≡ in_function how strict self.now) }
    {
        match how {
            FunctionKind::Arrow => self.bordered(
                strict,
                true,
                self.super_calls,
                self.super_members,
                self.new_target,
            ),
            _ => self.bordered(
                strict,
                true,
                is_constructor(self.role),
                is_method(self.role),
                true,
            ),
        }
    }

    pub fn source(&self) -> SourceType
        ensures { result ≡ self.now.source }
    {
        self.source
    }

    pub fn strict(&self) -> bool
        ensures { result ≡ self.now.strict }
    {
        self.strict
    }

    /// Whether `return` may stand here.
    pub fn returns(&self) -> bool
        ensures { result ≡ self.now.leaves.returns }
    {
        self.returns
    }

    /// Whether `break` without a label may.
    pub fn breaks(&self) -> bool
        ensures { result ≡ self.now.leaves.breaks }
    {
        self.breaks
    }

    /// Whether `continue` without a label may.
    pub fn continues(&self) -> bool
        ensures { result ≡ self.now.leaves.continues }
    {
        self.continues
    }

    pub fn super_calls(&self) -> bool
        ensures { result ≡ self.now.members.super_calls }
    {
        self.super_calls
    }

    pub fn super_members(&self) -> bool
        ensures { result ≡ self.now.members.super_members }
    {
        self.super_members
    }

    pub fn new_target(&self) -> bool
        ensures { result ≡ self.now.members.new_target }
    {
        self.new_target
    }

    /// Whether the function that the node may be is a method.
    pub fn is_method(&self) -> bool
        ensures { result ≡ is_method self.now.role }
    {
        is_method(self.role)
    }

    /// Whether the node is a statement alone as the body of another.
    pub fn is_alone(&self) -> bool
        ensures { result ≡ self.now.is_alone }
    {
        self.is_alone
    }

    /// Whether it stands left in the head of a `for`-`in` or `for`-`of`.
    pub fn is_head(&self) -> bool
        ensures { result ≡ self.now.is_head }
    {
        self.is_head
    }

    /// Whether a label of this name stands around the node.
    pub fn has_label(&self, name: &str) -> bool
        ensures { result ≡ has_label name.now self.now.leaves.labels }
    {
        match &self.labels {
            Some(labels) => has_label(labels.as_slice(), name),
            None => false,
        }
    }

    /// Whether a label of this name that is a loop's does.
    pub fn has_loop(&self, name: &str) -> bool
        ensures { result ≡ has_loop name.now self.now.leaves.labels }
    {
        match &self.labels {
            Some(labels) => has_loop(labels.as_slice(), name),
            None => false,
        }
    }

    /// Whether a class around the node declares this private name.
    pub fn knows_private(&self, name: &'a str) -> bool
        ensures { result ≡ is_among name.now self.now.members.privates }
    {
        match &self.privates {
            Some(privates) => is_known(privates.as_slice(), name),
            None => false,
        }
    }

    // The label, and those of the context behind it.
    pub(crate) fn with_label(
        &self,
        alloc: Global,
        label: Label<'a>,
    ) -> Result<Vec<Label<'a>>, AllocError>
        ensures { IfOk result (λ v. v.items ≡ label.entry ∷ self.now.leaves.labels) }
    {
        let mut all = Vec::new(alloc);
        all.push(label)?;
        if let Some(labels) = &self.labels {
            add_labels(labels.as_slice(), &mut all)?;
        }
        Ok(all)
    }

    // The private names of a class, and those of the context behind them.
    pub(crate) fn with_privates(
        &self,
        alloc: Global,
        names: Rc<Names<'a>>,
    ) -> Result<Vec<Rc<Names<'a>>>, AllocError>
        ensures { IfOk result (λ v. all_names (map (λ n. n.value) v.items) ≡ names.entry.value ++ self.now.members.privates) }
    {
        let mut all = Vec::new(alloc);
        all.push(names)?;
        if let Some(privates) = &self.privates {
            add_privates(privates.as_slice(), &mut all)?;
        }
        Ok(all)
    }

    pub(crate) fn is_derived(&self) -> bool
        ensures { result ≡ self.now.members.is_derived }
    {
        self.is_derived
    }
}
