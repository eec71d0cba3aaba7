// The walk that marks nodes.
ghost use Rattle.std.specs.Prelude.{◌≡◌, ◌^◌, ◌<◌};
ghost use Rattle.js_syntax.specs.Node.{row, forest_of};
ghost use Rattle.js_tree.specs.Count.{node_count};
ghost use Rattle.scope_rules.specs.Mark.{behind_row, marked, first_marks};
ghost use Rattle.scope_walk.specs.Fits.{Fits};

use crate::marks::Marks;
use js_tree::{Node, NodeKind, Program, SPAN};
use std::alloc::Global;
use std::mem::replace;

// Marks a node and all that lies below it. The recursion goes as deep as the tree. A vector without items
// takes no memory.
#[cycle(mark)]
fn mark_node(alloc: Global, node: &mut Node, marks: &mut Marks<'_>)
    requires fits { Fits marks.old (forest_of node.old) }
    ensures tree { forest_of node.new ≡ marked marks.old (forest_of node.old) }
    ensures marks { marks.new ≡ behind_row marks.old (forest_of node.old) }
{
    let mark = marks.take(node);
    let mut children = node.replace_children(Vec::new(alloc));
    mark_children(alloc, children.as_mut_slice(), marks);
    node.replace_children(children);
    node.set_id(mark);
}

#[cycle(mark)]
fn mark_children(alloc: Global, children: &mut [Option<Node>], marks: &mut Marks<'_>)
    requires fits { Fits marks.old (row children.old) }
    ensures tree { row children.new ≡ marked marks.old (row children.old) }
    ensures marks { marks.new ≡ behind_row marks.old (row children.old) }
{
    for child in children.iter_mut() {
        match child {
            Some(node) => mark_node(alloc, node, marks),
            None => {}
        }
    }
}

/// Marks the nodes of a program, whose declared names have these symbols, in order of places. It takes no
/// memory; the recursion goes as deep as the tree.
pub fn mark_nodes(alloc: Global, program: &mut Program, symbols: &[u32])
    requires small { node_count (forest_of program.old) < 2 ^ 32 }
    ensures tree { forest_of program.new ≡ marked (first_marks symbols.now) (forest_of program.old) }
{
    let nothing = Node::new(NodeKind::EmptyStatement, SPAN, Vec::new(alloc));
    let mut root = replace(program, Program::new(nothing)).into_root();
    let mut marks = Marks::new(symbols);
    mark_node(alloc, &mut root, &mut marks);
    *program = Program::new(root);
}
