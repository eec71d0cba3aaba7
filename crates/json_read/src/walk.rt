// Nodes, with all that lies below them.
ghost use Rattle.std.specs.Prelude.{◌≡◌, ◌≢◌, ◌≤◌, length};
ghost use Rattle.json_value.specs.View.{view, items_view};
ghost use Rattle.js_syntax.specs.Node.{forest_of};
ghost use Rattle.js_syntax.specs.Node as tree;
ghost use Rattle.js_syntax.specs.Table as table;
ghost use Rattle.json_text.specs.Answer.{Gives};
ghost use Rattle.json_text.specs.Reading as reading;
ghost use Rattle.json_table.specs.View.{class_view, row_view, field_view};
ghost use Rattle.json_table.specs.declared.row.Row.TheVariants.{ParenthesizedTarget};
ghost use Rattle.json_scan.specs.Place.{fault_at};
ghost use Rattle.json_scan.specs.Scalar.{one_item};
ghost use Rattle.json_scan.specs.Scan.{scan, read_field};
ghost use Rattle.json_read.specs.Held.{held_row};

use crate::node_kind;
use js_syntax::{NodeKind, NodeType, SPAN};
use js_tree::Node;
use json_scan::{
    Place, Slot, check_extras, is_computed, is_directive, place_of, row_at, slot_of, span_of,
    type_at,
};
use json_table::{Field, Row, Sort, Wanted};
use json_text::TreeError;
use json_value::Value;
use std::alloc::Global;

/// The node that is wanted at this place, in a tree of at most so many levels.
#[cycle(walk)]
pub fn read_node(
    alloc: Global,
    wanted: Wanted,
    node: &Value<'_>,
    place: Place,
    levels: usize,
) -> Result<Node, TreeError>
    ensures { Gives forest_of result (reading.read_node levels (class_view wanted) (fault_at place) (view node.now)) }
{
    if levels == 0 {
        return Err(TreeError::Syntax);
    }
    let kind = type_at(alloc, node, place)?;
    let Some(row) = row_at(wanted, kind, node) else {
        return Err(place.fault());
    };
    match row {
        Row::ParenthesizedTarget => read_parenthesized(alloc, node, levels - 1),
        row => read_row(alloc, row, node, levels - 1),
    }
}

// A node of this row.
#[cycle(walk)]
fn read_row(alloc: Global, row: Row, node: &Value<'_>, levels: usize) -> Result<Node, TreeError>
    requires { row ≢ ParenthesizedTarget }
    ensures { Gives forest_of result (reading.read_row (reading.read_node levels) (row_view row) (view node.now)) }
{
    let children = read_below(alloc, row, node, levels)?;
    check_extras(node, row.node_type())?;
    let kind = node_kind(alloc, row, node)?;
    Ok(Node::new(kind, span_of(node), children))
}

// What stands in parentheses where it is assigned: they are dropped.
#[cycle(walk)]
fn read_parenthesized(alloc: Global, node: &Value<'_>, levels: usize) -> Result<Node, TreeError>
    ensures { Gives forest_of result (reading.read_row (reading.read_node levels) table.a_parenthesized_target (view node.now)) }
{
    let kind = NodeType::ParenthesizedExpression;
    let place = place_of(kind, "expression");
    let Some(value) = node.get(place.field) else {
        return Err(place.fault());
    };
    let inner = read_node(alloc, Wanted::SimpleTarget, value, place, levels)?;
    check_extras(node, kind)?;
    Ok(inner)
}

// How many nodes these fields mostly hold. A node takes more room than all else that is kept of a small one, and a vector that grows by
// itself begins with room for four.
fn room_for(fields: &[Field], node: &Value<'_>) -> usize
    ensures { result ≤ length fields.now }
{
    let mut found = 0;
    'fields: for field in fields {
        let holds = match field.sort {
            Sort::Keeps(_) | Sort::Checks(_) => false,
            Sort::Key(_) => is_computed(node),
            _ => true,
        };
        if holds {
            found += 1;
        }
    }
    found
}

// What lies below a node of this row.
#[cycle(walk)]
fn read_below(
    alloc: Global,
    row: Row,
    node: &Value<'_>,
    levels: usize,
) -> Result<Vec<Option<Node>>, TreeError>
    ensures { Gives (λ cs. tree.row cs.items) result (scan (reading.read_node levels) (table.type_of (row_view row)) (table.fields_of (row_view row)) (view node.now)) }
{
    let kind = row.node_type();
    let all = row.fields();
    let mut children = Vec::with_capacity(alloc, room_for(all, node))?;
    'fields: for field in all {
        if let Some(child) = read_held(alloc, kind, field, node, levels)? {
            children.push(child)?;
        }
    }
    Ok(children)
}

// What a field gives to the row below.
#[cycle(walk)]
fn read_held(
    alloc: Global,
    kind: NodeType,
    field: &Field,
    node: &Value<'_>,
    levels: usize,
) -> Result<Option<Option<Node>>, TreeError>
    ensures { Gives held_row result (read_field (reading.read_node levels) kind (field_view field.now) (view node.now)) }
{
    let place = place_of(kind, field.name);
    match slot_of(alloc, node, kind, field)? {
        Slot::Scalar => Ok(None),
        Slot::Nothing => Ok(Some(None)),
        Slot::Node(wanted, value) => Ok(Some(Some(read_node(
            alloc, wanted, value, place, levels,
        )?))),
        Slot::Items {
            list,
            wanted,
            holes,
            items,
        } => {
            let found = read_items(alloc, Vec::new(alloc), wanted, holes, items, place, levels)?;
            Ok(Some(Some(Node::new(list.node_kind(), SPAN, found))))
        }
        Slot::Body(wanted, items) => {
            let found = read_body(alloc, wanted, items, place, levels)?;
            Ok(Some(Some(Node::new(NodeKind::Statements, SPAN, found))))
        }
    }
}

// The nodes of a list, behind those that are there.
#[cycle(walk)]
fn read_items(
    alloc: Global,
    front: Vec<Option<Node>>,
    wanted: Wanted,
    holes: bool,
    items: &[Value<'_>],
    place: Place,
    levels: usize,
) -> Result<Vec<Option<Node>>, TreeError>
    ensures { Gives (λ cs. tree.row cs.items) result (reading.before (tree.row front.items) (reading.read_items (one_item holes (reading.read_node levels (class_view wanted) (fault_at place))) (items_view items.now))) }
{
    let mut found = front;
    found.reserve_exact(items.len())?;
    'items: for item in items {
        let child = if holes && item.is_null() {
            Node::new(NodeKind::Hole, SPAN, Vec::new(alloc))
        } else {
            read_node(alloc, wanted, item, place, levels)?
        };
        found.push(Some(child))?;
    }
    Ok(found)
}

// The directives at the head of a body, and then its other nodes.
#[cycle(walk)]
fn read_body(
    alloc: Global,
    wanted: Wanted,
    items: &[Value<'_>],
    place: Place,
    levels: usize,
) -> Result<Vec<Option<Node>>, TreeError>
    ensures { Gives (λ cs. tree.row cs.items) result (reading.read_body (reading.read_node levels) (class_view wanted) (fault_at place) (items_view items.now)) }
{
    let mut found = Vec::with_capacity(alloc, items.len())?;
    let mut rest = items;
    'directives: while let [first, others @ ..] = rest {
        if !is_directive(first) {
            return read_items(alloc, found, wanted, false, rest, place, levels);
        }
        let child = read_node(alloc, Wanted::Prologue, first, place, levels)?;
        found.push(Some(child))?;
        rest = others;
    }
    Ok(found)
}
