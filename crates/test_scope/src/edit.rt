// Sites with one edit.
use scope_context::{BindingSite, Found, ReferenceSite, ScopeSite};
use scope_rules::Layer;
use std::alloc::{AllocError, Global};
use std::rc::Rc;

/// An edit: what, of which site, and to which value. What is one of
///
/// - `scope.parent`, `scope.flags`
/// - `declaration.name`, `declaration.scope`, `declaration.flags`, `declaration.pure`, which turns it;
///   `declaration.gone`, `declaration.first`, and `declaration.again`, which declares once more, under that name
/// - `reference.name`, `reference.scope`, `reference.flags`; `reference.gone`, `reference.first` and `reference.again`
/// - `mark`, of the node at a path, as `0.4.0`
///
/// A site is told by how many of its sort stand before it. The value `-` is none, or the one that is there.
#[derive(Clone, Copy)]
pub(crate) struct Edit<'a> {
    what: &'a str,
    place: &'a str,
    value: &'a str,
}

impl<'a> Edit<'a> {
    pub(crate) fn named(words: &'a str) -> Option<Edit<'a>> {
        let (what, rest) = words.trim().split_once(' ')?;
        let (place, value) = rest.split_once(' ')?;
        Some(Edit { what, place, value })
    }

    pub(crate) fn is_of_mark(&self) -> bool {
        self.what == "mark"
    }

    pub(crate) fn place(&self) -> &'a str {
        self.place
    }

    pub(crate) fn number(&self) -> Option<u32> {
        self.value.parse::<u32>().ok()
    }

    fn number_or_zero(&self) -> u32 {
        self.number().unwrap_or(0)
    }

    fn is_at(&self, what: &str, at: usize) -> bool {
        self.what == what && self.place.parse::<usize>().ok() == Some(at)
    }

    // The name that is told, or the one that is there.
    fn name_for(&self, name: &'a str) -> &'a str {
        if self.value == "-" { name } else { self.value }
    }
}

// ---- scopes

fn scope_with(site: &ScopeSite, at: usize, edit: &Edit) -> ScopeSite {
    let parent = if edit.is_at("scope.parent", at) {
        edit.number()
    } else {
        site.parent()
    };
    let flags = if edit.is_at("scope.flags", at) {
        edit.number_or_zero() % 65536
    } else {
        u32::from(site.flags())
    };
    ScopeSite::new(site.id(), parent, flags as u16)
}

fn add_scopes(sites: &[ScopeSite], edit: &Edit, found: &mut Found) -> Result<(), AllocError> {
    for (at, site) in sites.iter().enumerate() {
        found.push_scope(scope_with(site, at, edit))?;
    }
    Ok(())
}

// ---- declarations

fn declaration_named<'a>(site: &BindingSite<'a>, name: &'a str) -> BindingSite<'a> {
    BindingSite::new(
        site.id(),
        name,
        site.layer(),
        site.flags(),
        site.is_pure(),
        site.span(),
    )
}

fn layer_with(layer: Layer, at: usize, edit: &Edit) -> Layer {
    if edit.is_at("declaration.scope", at) {
        return Layer {
            scope: edit.number_or_zero(),
            part: layer.part,
        };
    }
    layer
}

fn declaration_with<'a>(site: &BindingSite<'a>, at: usize, edit: &Edit<'a>) -> BindingSite<'a> {
    let name = if edit.is_at("declaration.name", at) {
        edit.name_for(site.name())
    } else {
        site.name()
    };
    let flags = if edit.is_at("declaration.flags", at) {
        (edit.number_or_zero() % 256) as u8
    } else {
        site.flags()
    };
    let is_pure = site.is_pure() != edit.is_at("declaration.pure", at);
    let layer = layer_with(site.layer(), at, edit);
    BindingSite::new(site.id(), name, layer, flags, is_pure, site.span())
}

// Adds the site that this is asked of.
fn add_declaration<'a>(
    sites: &[BindingSite<'a>],
    what: &str,
    edit: &Edit<'a>,
    found: &mut Found<'a>,
) -> Result<(), AllocError> {
    for (at, site) in sites.iter().enumerate() {
        if edit.is_at(what, at) {
            found.push_binding(declaration_named(site, edit.name_for(site.name())))?;
        }
    }
    Ok(())
}

fn add_declarations<'a>(
    sites: &[BindingSite<'a>],
    edit: &Edit<'a>,
    found: &mut Found<'a>,
) -> Result<(), AllocError> {
    for (at, site) in sites.iter().enumerate() {
        if !edit.is_at("declaration.gone", at) && !edit.is_at("declaration.first", at) {
            found.push_binding(declaration_with(site, at, edit))?;
        }
    }
    Ok(())
}

// ---- references

fn reference_as<'a>(
    alloc: Global,
    site: &ReferenceSite<'a>,
    name: &'a str,
    scope: u32,
    flags: u8,
) -> Result<ReferenceSite<'a>, AllocError> {
    let layers = Rc::new(alloc, site.layers().to_vec(alloc)?)?;
    Ok(ReferenceSite::new(site.id(), name, scope, Some(layers), flags))
}

fn reference_with<'a>(
    alloc: Global,
    site: &ReferenceSite<'a>,
    at: usize,
    edit: &Edit<'a>,
) -> Result<ReferenceSite<'a>, AllocError> {
    let name = if edit.is_at("reference.name", at) {
        edit.name_for(site.name())
    } else {
        site.name()
    };
    let scope = if edit.is_at("reference.scope", at) {
        edit.number_or_zero()
    } else {
        site.scope()
    };
    let flags = if edit.is_at("reference.flags", at) {
        (edit.number_or_zero() % 256) as u8
    } else {
        site.flags()
    };
    reference_as(alloc, site, name, scope, flags)
}

fn add_reference<'a>(
    alloc: Global,
    sites: &[ReferenceSite<'a>],
    what: &str,
    edit: &Edit<'a>,
    found: &mut Found<'a>,
) -> Result<(), AllocError> {
    for (at, site) in sites.iter().enumerate() {
        if edit.is_at(what, at) {
            let name = edit.name_for(site.name());
            found.push_reference(reference_as(alloc, site, name, site.scope(), site.flags())?)?;
        }
    }
    Ok(())
}

fn add_references<'a>(
    alloc: Global,
    sites: &[ReferenceSite<'a>],
    edit: &Edit<'a>,
    found: &mut Found<'a>,
) -> Result<(), AllocError> {
    for (at, site) in sites.iter().enumerate() {
        if !edit.is_at("reference.gone", at) && !edit.is_at("reference.first", at) {
            found.push_reference(reference_with(alloc, site, at, edit)?)?;
        }
    }
    Ok(())
}

// ---- all

// The declarations with an edit.
fn add_edited_declarations<'a>(
    sites: &[BindingSite<'a>],
    edit: &Edit<'a>,
    found: &mut Found<'a>,
) -> Result<(), AllocError> {
    add_declaration(sites, "declaration.first", edit, found)?;
    add_declarations(sites, edit, found)?;
    add_declaration(sites, "declaration.again", edit, found)
}

// The references with an edit.
fn add_edited_references<'a>(
    alloc: Global,
    sites: &[ReferenceSite<'a>],
    edit: &Edit<'a>,
    found: &mut Found<'a>,
) -> Result<(), AllocError> {
    add_reference(alloc, sites, "reference.first", edit, found)?;
    add_references(alloc, sites, edit, found)?;
    add_reference(alloc, sites, "reference.again", edit, found)
}

fn add_edited<'a>(
    alloc: Global,
    sites: &Found<'a>,
    edit: &Edit<'a>,
    found: &mut Found<'a>,
) -> Result<(), AllocError> {
    add_scopes(sites.scopes(), edit, found)?;
    add_edited_declarations(sites.bindings(), edit, found)?;
    add_edited_references(alloc, sites.references(), edit, found)
}

/// The sites with this edit.
pub(crate) fn edited<'a>(
    alloc: Global,
    sites: &Found<'a>,
    edit: &Edit<'a>,
) -> Result<Found<'a>, AllocError> {
    let mut found = Found::new(alloc);
    add_edited(alloc, sites, edit, &mut found)?;
    Ok(found)
}
