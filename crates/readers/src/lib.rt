// Reading the tree of a message: its nodes in reading order, and its thresholds, into lent numbers (the crate `rows` says what stands where).
// The readers of node, thresholds and children call each other in a cycle, and the bytes left fall at each turn. What stands side by side, children
// and thresholds, is read in a loop, so that the stack grows with the depth alone.
#![tactic(auto)]

ghost use Rattle.std.specs.Prelude.{◌≡◌, ◌≤◌, ◌<◌, length};
ghost use Rattle.meaning.specs.Reduce.{reduce, size};
ghost use Rattle.reduction.specs.Held.{Held, ForTree};
ghost use Rattle.rows.specs.Packed.{names_in, roles_in, ends_in};
ghost use Rattle.readers.specs.Reading.{Begins, NodeDone, ChildrenDone, ThresholdsDone, ThresholdDone, InnerDone};

use fixed::Stretch;
use meaning::{Fault, Rule};
use rows::Tree;

// How far reading came: the next byte, the nodes of this tree and the thresholds of the message so far.
#[derive(Clone, Copy, Debug, PartialEq, Eq)]
pub struct Reached {
    pub next: usize,
    pub nodes: usize,
    pub parts: usize,
}

// A node and all that is below it, into the rows from as many on as there are nodes so far.
#[cycle(reading)]
pub fn read_node(
    stretch: &Stretch<'_>,
    from: Reached,
    left: usize,
    inner: bool,
    role: usize,
    rows: &mut [u64],
) -> Result<Reached, Fault>
    requires start { Begins stretch.now.end from.next from.nodes from.parts (length rows.old) }
    requires role_bound { role < 256 }
    ensures { NodeDone inner stretch.now.bytes.now stretch.now.end left role from.next from.nodes from.parts rows.old rows.new result }
{
    let n = from.nodes;
    let head = stretch.node(from.next, left, inner, n)?;
    rows[n] = head.names;
    let entered = Reached {
        next: from.next + 10,
        nodes: n + 1,
        parts: from.parts,
    };
    let behind = read_thresholds(stretch, entered, n, head.thresholds, rows)?;
    let reached = read_children(stretch, behind, left - 1, inner, head.children, rows)?;
    rows[rows::EDGES + n] = rows::packed(role, reached.nodes);
    Ok(reached)
}

// So many children, one after the other.
#[cycle(reading)]
fn read_children(
    stretch: &Stretch<'_>,
    from: Reached,
    left: usize,
    inner: bool,
    count: usize,
    rows: &mut [u64],
) -> Result<Reached, Fault>
    requires { Begins stretch.now.end from.next from.nodes from.parts (length rows.old) }
    ensures { ChildrenDone inner stretch.now.bytes.now stretch.now.end left count from.next from.nodes from.parts rows.old rows.new result }
{
    let mut here = from;
    for _ in 0..count {
        let role = stretch.edge(here.next)?;
        let child = Reached {
            next: here.next + 1,
            nodes: here.nodes,
            parts: here.parts,
        };
        here = read_node(stretch, child, left, inner, role, rows)?;
    }
    Ok(here)
}

// So many thresholds of the written node `owner`.
#[cycle(reading)]
fn read_thresholds(
    stretch: &Stretch<'_>,
    from: Reached,
    owner: usize,
    count: usize,
    rows: &mut [u64],
) -> Result<Reached, Fault>
    requires { Begins stretch.now.end from.next owner from.parts (length rows.old) }
    ensures { ThresholdsDone stretch.now.bytes.now stretch.now.end owner count from.next from.nodes from.parts rows.old rows.new result }
{
    let mut here = from;
    for _ in 0..count {
        here = read_threshold(stretch, here, owner, rows)?;
    }
    Ok(here)
}

// One threshold of the written node `owner`. Its inner concept is read into rows of its own, for its reduced size.
#[cycle(reading)]
fn read_threshold(
    stretch: &Stretch<'_>,
    from: Reached,
    owner: usize,
    rows: &mut [u64],
) -> Result<Reached, Fault>
    requires { Begins stretch.now.end from.next owner from.parts (length rows.old) }
    ensures { ThresholdDone stretch.now.bytes.now stretch.now.end owner from.next from.nodes from.parts rows.old rows.new result }
{
    let stop = stretch.threshold(from.next, from.parts)?;
    let inside = Stretch {
        bytes: stretch.bytes,
        end: stop,
    };
    read_inner(&inside, from.next + 7)?;
    rows[rows::PARTS + from.parts] = rows::packed(owner, from.next);
    Ok(Reached {
        next: stop,
        nodes: from.nodes,
        parts: from.parts + 1,
    })
}

// The inner concept that is to fill the stretch from `at` on.
#[cycle(reading)]
fn read_inner(stretch: &Stretch<'_>, at: usize) -> Result<(), Fault>
    requires { at ≤ stretch.now.end }
    ensures { InnerDone stretch.now.bytes.now stretch.now.end at result }
{
    let mut rows = [0u64; rows::LEN];
    let from = Reached {
        next: at,
        nodes: 0,
        parts: 0,
    };
    let reached = read_node(stretch, from, meaning::MOST_LEVELS, true, 0, &mut rows)?;
    if reached.next < stretch.end {
        return Err(Rule::LeftOver.at(reached.next));
    }
    if meaning::MOST_SIZE < size_in(&rows) {
        return Err(Rule::TooLarge.at(at));
    }
    Ok(())
}

// The reduced size of the tree that the rows hold.
fn size_in(rows: &[u64]) -> usize
    requires in_bounds { 144 ≤ length rows.now }
    requires held { Held (names_in rows.now) (roles_in rows.now) (ends_in rows.now) 17 0 }
    ensures { ForTree (names_in rows.now) (roles_in rows.now) (ends_in rows.now) 17 0
        (λ t. result ≡ size (reduce t)) }
{
    reduction::reduced_size(&Tree::of(rows))
}
