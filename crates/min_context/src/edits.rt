// Calls that edit the tree, or tell the context of an edit.
ghost use Rattle.std.specs.Prelude.{◌≡◌, IfOk, IfErr, OnOk, OnErr, true};
ghost use Rattle.js_syntax.specs.Node.{row, forest_of};
ghost use Rattle.scope_counts.specs.Counts.{ids};
ghost use Rattle.min_context.specs.Edited.{evals, Leaves, Dropped, DropsNode};

use crate::context::MinifierTraverseCtx;
use crate::marks::{mark_node, mark_row};
use js_tree::{Node, put};

impl MinifierTraverseCtx {
    // The nodes of a row leave; whether another pass is asked for stays.
    pub fn mark_row(&mut self, children: &[Option<Node>])
        ensures left { Leaves self.old (λ r. ids r (row children.now)) (evals (row children.now)) self.new }
    {
        mark_row(&mut self.state.pass_changes, children);
    }

    // A node leaves; whether another pass is asked for stays.
    pub fn mark_node(&mut self, node: &Node)
        ensures left { Leaves self.old (λ r. ids r (forest_of node.now)) (evals (forest_of node.now)) self.new }
    {
        mark_node(&mut self.state.pass_changes, node);
    }

    fn drop_node(&mut self, node: &Node)
        ensures dropped { DropsNode self.old node.now self.new }
    {
        self.mark_node(node);
        self.notice_change();
    }

    fn replace_node(&mut self, slot: &mut Node, node: Node)
        ensures put { slot.new ≡ node }
        ensures dropped { DropsNode self.old slot.old self.new }
    {
        self.drop_node(slot);
        put(slot, node);
    }

    /// Puts an expression where another stands. What leaves is marked, and another pass asked for.
    pub fn replace_expression(&mut self, slot: &mut Node, expression: Node)
        ensures put { slot.new ≡ expression }
        ensures dropped { DropsNode self.old slot.old self.new }
    {
        self.replace_node(slot, expression);
    }

    /// Puts a statement where another stands. What leaves is marked, and another pass asked for.
    pub fn replace_statement(&mut self, slot: &mut Node, statement: Node)
        ensures put { slot.new ≡ statement }
        ensures dropped { DropsNode self.old slot.old self.new }
    {
        self.replace_node(slot, statement);
    }

    /// Puts a property of a pattern that is assigned to where another stands. What leaves is marked, and another pass asked for.
    pub fn replace_assignment_target_property(&mut self, slot: &mut Node, property: Node)
        ensures put { slot.new ≡ property }
        ensures dropped { DropsNode self.old slot.old self.new }
    {
        self.replace_node(slot, property);
    }

    /// Puts a computed key where another stands. What leaves is marked, and another pass asked for.
    pub fn replace_property_key(&mut self, slot: &mut Node, key: Node)
        ensures put { slot.new ≡ key }
        ensures dropped { DropsNode self.old slot.old self.new }
    {
        self.replace_node(slot, key);
    }

    /// Puts what stands left in a `for` loop over properties or items where another stands. What leaves is marked, and another
    /// pass asked for.
    pub fn replace_for_statement_left(&mut self, slot: &mut Node, left: Node)
        ensures put { slot.new ≡ left }
        ensures dropped { DropsNode self.old slot.old self.new }
    {
        self.replace_node(slot, left);
    }

    /// Tells that an expression leaves, which the caller takes out. Another pass is asked for.
    pub fn drop_expression(&mut self, expression: &Node)
        ensures dropped { DropsNode self.old expression.now self.new }
    {
        self.drop_node(expression);
    }

    /// Tells that a statement leaves, which the caller takes out. Another pass is asked for.
    pub fn drop_statement(&mut self, statement: &Node)
        ensures dropped { DropsNode self.old statement.now self.new }
    {
        self.drop_node(statement);
    }

    /// Tells that an element of a class leaves, which the caller takes out. Another pass is asked for.
    pub fn drop_class_element(&mut self, element: &Node)
        ensures dropped { DropsNode self.old element.now self.new }
    {
        self.drop_node(element);
    }

    /// Tells that a declarator leaves, which the caller takes out. Another pass is asked for.
    pub fn drop_variable_declarator(&mut self, declarator: &Node)
        ensures dropped { DropsNode self.old declarator.now self.new }
    {
        self.drop_node(declarator);
    }

    /// Tells that a case of a `switch` leaves, which the caller takes out. Another pass is asked for.
    pub fn drop_switch_case(&mut self, case: &Node)
        ensures dropped { DropsNode self.old case.now self.new }
    {
        self.drop_node(case);
    }
}
