// Whether a program is small enough.
ghost use Rattle.std.specs.Prelude.{◌≡◌, ◌+◌, ◌<◌, ◌≤◌, IfOk, IfErr, min, map};
ghost use Rattle.js_syntax.specs.Node.{forest_of, row};
ghost use Rattle.js_tree.specs.Count.{node_count};
ghost use Rattle.min_driver.specs.Counting.{nodes_in, work_of, work_in};
ghost use Rattle.min_driver.specs.Limit.{IsWithinLimits};
ghost use Rattle.min_driver.specs.Minify.{IsCause};

use crate::error::MinifyError;
use js_tree::{Node, Program, count_nodes, count_of_kind, depth};
use std::alloc::{AllocError, Global};

// How many nodes and levels a program may have.
const MAX_NODES: u32 = 16_777_216;

const MAX_LEVELS: u32 = 1000;

// What is still to be looked at of a row of nodes, on top of other rows, and how its first node counts.
fn look<'a>(
    rows: Vec<&'a [Option<Node>]>,
    nodes: &'a [Option<Node>],
) -> Result<(Vec<&'a [Option<Node>]>, usize), AllocError>
    ensures counted { IfOk result (λ r. r.1 + nodes_in (map (λ x. x.now) r.0.items) ≡ node_count (row nodes.now) + nodes_in (map (λ x. x.now) rows.entry.items)) }
    ensures one { IfOk result (λ r. r.1 ≤ 1) }
    ensures less { IfOk result (λ r. work_in (map (λ x. x.now) r.0.items) < work_of (row nodes.now) + work_in (map (λ x. x.now) rows.entry.items)) }
{
    let [first, rest @ ..] = nodes else {
        return Ok((rows, 0));
    };
    let mut rows = rows;
    rows.push(rest)?;
    match first {
        None => Ok((rows, 0)),
        Some(node) => {
            rows.push(node.children())?;
            Ok((rows, count_of_kind(node.kind()) as usize))
        }
    }
}

// How many nodes a program has, or one more than it may have, however deep it is.
fn count_flat(alloc: Global, program: &Program) -> Result<usize, AllocError>
    ensures exact { IfOk result (λ n. n ≡ min (node_count (forest_of program.now)) (MAX_NODES + 1)) }
{
    let root = program.root();
    let mut count = count_of_kind(root.kind()) as usize;
    let mut rows = Vec::new(alloc);
    rows.push(root.children())?;
    while let Some(nodes) = rows.pop() {
        let (left, own) = look(rows, nodes)?;
        rows = left;
        count += own;
        if count > MAX_NODES as usize {
            return Ok(count);
        }
    }
    Ok(count)
}

// The same. The recursion that counts goes as deep as the program, so that one that is too deep is counted without.
fn count_all(alloc: Global, program: &Program, deep: usize) -> Result<usize, AllocError>
    ensures exact { IfOk result (λ n. n ≡ min (node_count (forest_of program.now)) (MAX_NODES + 1)) }
{
    if deep > MAX_LEVELS as usize {
        return count_flat(alloc, program);
    }
    Ok(count_nodes(program, MAX_NODES))
}

/// Whether a program is small enough. Its levels are asked first, by a recursion that goes no deeper than the limit.
pub(crate) fn check_limits(alloc: Global, program: &Program) -> Result<(), MinifyError>
    ensures ok { IfOk result (λ _. IsWithinLimits (forest_of program.now)) }
    ensures err { IfErr result (λ e. IsCause e (forest_of program.now)) }
{
    let levels = depth(program, MAX_LEVELS);
    let nodes = count_all(alloc, program, levels)?;
    if nodes <= MAX_NODES as usize && levels <= MAX_LEVELS as usize {
        return Ok(());
    }
    Err(MinifyError::TooLarge {
        nodes: nodes as u32,
        levels: levels as u32,
    })
}
