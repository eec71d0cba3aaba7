// The sites of a program.
use crate::answer::{MOST, append_number};
use js_tree::{Program, count_nodes};
use scope_context::{BindingSite, ReferenceSite, ScopeSite};
use scope_rules::{Layer, Part};
use scope_walk::find_sites;
use std::alloc::{AllocError, Global};

pub(crate) fn name_of_part(part: Part) -> &'static str {
    match part {
        Part::OwnName => "own",
        Part::Parameters => "parameters",
        Part::Body => "body",
    }
}

fn append_layers(layers: &[Layer], printed: &mut String) -> Result<(), AllocError> {
    for layer in layers {
        let (scope, part) = (layer.scope, name_of_part(layer.part));
        write!(printed, " {scope} {part}")?;
    }
    writeln!(printed, "")
}

fn append_scopes(sites: &[ScopeSite], printed: &mut String) -> Result<(), AllocError> {
    for site in sites {
        let flags = site.flags();
        write!(printed, "scope: mark")?;
        append_number(site.id(), printed)?;
        write!(printed, ", parent")?;
        append_number(site.parent(), printed)?;
        writeln!(printed, ", flags {flags}")?;
    }
    Ok(())
}

fn append_binding(site: &BindingSite, printed: &mut String) -> Result<(), AllocError> {
    let (name, flags, is_pure, span) = (site.name(), site.flags(), site.is_pure(), site.span());
    let (scope, part) = (site.layer().scope, name_of_part(site.layer().part));
    let (start, end) = (span.start, span.end);
    write!(printed, "declared {name}: mark")?;
    append_number(site.id(), printed)?;
    write!(printed, ", in {scope} {part}, flags {flags}")?;
    writeln!(printed, ", pure {is_pure}, at {start} {end}")
}

fn append_bindings(sites: &[BindingSite], printed: &mut String) -> Result<(), AllocError> {
    for site in sites {
        append_binding(site, printed)?;
    }
    Ok(())
}

fn append_reference(site: &ReferenceSite, printed: &mut String) -> Result<(), AllocError> {
    let (name, scope, flags) = (site.name(), site.scope(), site.flags());
    write!(printed, "used {name}: mark")?;
    append_number(site.id(), printed)?;
    write!(printed, ", in {scope}, flags {flags}, layers")?;
    append_layers(site.layers(), printed)
}

fn append_references(sites: &[ReferenceSite], printed: &mut String) -> Result<(), AllocError> {
    for site in sites {
        append_reference(site, printed)?;
    }
    Ok(())
}

/// What a walk finds in a program.
pub(crate) fn append_sites(
    alloc: Global,
    program: &Program,
    printed: &mut String,
) -> Result<(), AllocError> {
    if count_nodes(program, MOST) > MOST as usize {
        return writeln!(printed, "too large");
    }
    let found = find_sites(alloc, program)?;
    append_scopes(found.scopes(), printed)?;
    append_bindings(found.bindings(), printed)?;
    append_references(found.references(), printed)
}
