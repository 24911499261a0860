// Which nodes of a concept tree are dropped, and its reduced size, over rows in reading order; marks: 1 kept, 0 dropped.
#![tactic(auto)]

ghost use Rattle.std.specs.Prelude.{◌≡◌, ◌≤◌, ◌<◌, ◌+◌, length, slice_index};
ghost use Rattle.meaning.specs.Names.{names, within};
ghost use Rattle.meaning.specs.Reduce.{subsumes, size, reduce};
ghost use Rattle.reduction.specs.Held.{Held, ForTree};
ghost use Rattle.reduction.specs.Subsumed.{yields, Two, Tests, TestsLike, Among, TestsOne, Sibling, TestsDropped};
ghost use Rattle.reduction.specs.Alone.{Children, KeptIf};
ghost use Rattle.reduction.specs.Marks.{Put, MarkedBelow, MarkedChild, MarkedWhole};
ghost use Rattle.reduction.specs.Sizes.{HeldBy, Sized, SizedKept};

use fields::bits;
use rows::{Siblings, Tree};

// Each name of a is one of b.
fn within(a: u64, b: u64) -> bool
    ensures { result ≡ within a b }
{
    a & b == a
}

// How many names a set has.
fn named(a: u64) -> usize
    ensures value { result ≡ names a }
    ensures upper_bound { result ≤ 64 }
{
    u64::count_ones(a) as usize
}

// Whether the tree at c subsumes the one at d: a whole map of c's tree into d's exists, root to root.
#[cycle(subsuming)]
fn subsumes(tree: &Tree, c: usize, d: usize, left: usize) -> bool
    requires { Two tree.now.names tree.now.roles tree.now.ends left c d }
    ensures { Tests tree.now.names tree.now.roles tree.now.ends left subsumes c d result }
{
    if !within(tree.names[c], tree.names[d]) {
        return false;
    }
    for child in tree.children(c) {
        if !subsumes_one(tree, child, tree.children(d), left - 1) {
            return false;
        }
    }
    true
}

// Whether the tree at c subsumes one of the others under c's role.
// Kept out of line: then the test of two trees' names stands in each loop over siblings, and only below names that fit is anything called. In line, each
// two siblings cost a call: three times the instructions where thirty are compared.
#[inline(never)]
#[cycle(subsuming)]
fn subsumes_one(tree: &Tree, c: usize, others: Siblings<'_>, left: usize) -> bool
    requires siblings { others.ends.now ≡ tree.now.ends }
    requires among { Among tree.now.names tree.now.roles tree.now.ends left c others.at others.end }
    ensures { TestsOne tree.now.names tree.now.roles tree.now.ends left subsumes c others.entry.at others.entry.end result }
{
    for d in others {
        if subsumes_like(tree, c, d, left) {
            return true;
        }
    }
    false
}

// Whether the trees at c and d stand under the same role, and the first subsumes the second.
#[cycle(subsuming)]
fn subsumes_like(tree: &Tree, c: usize, d: usize, left: usize) -> bool
    requires { Two tree.now.names tree.now.roles tree.now.ends left c d }
    ensures { TestsLike tree.now.names tree.now.roles tree.now.ends left subsumes c d result }
{
    if tree.roles[c] != tree.roles[d] {
        return false;
    }
    subsumes(tree, c, d, left)
}

// Whether the child at c is dropped for one of its siblings. `EARLIER`: they all stand earlier; else all later.
// Kept: a loop as in `subsumes_one`, and no test handed to it, since calls in a cycle get no proof through a closure.
fn yields_one<const EARLIER: bool>(tree: &Tree, c: usize, others: Siblings<'_>, left: usize) -> bool
    requires siblings { others.ends.now ≡ tree.now.ends }
    requires among { Among tree.now.names tree.now.roles tree.now.ends left c others.at others.end }
    ensures { TestsOne tree.now.names tree.now.roles tree.now.ends left (yields EARLIER) c others.entry.at others.entry.end result }
{
    for d in others {
        if yields::<EARLIER>(tree, c, d, left) {
            return true;
        }
    }
    false
}

// Whether the child at c is dropped for its sibling at d, which stands earlier or not.
fn yields<const EARLIER: bool>(tree: &Tree, c: usize, d: usize, left: usize) -> bool
    requires { Two tree.now.names tree.now.roles tree.now.ends left c d }
    ensures { TestsLike tree.now.names tree.now.roles tree.now.ends left (yields EARLIER) c d result }
{
    if EARLIER {
        return subsumes_like(tree, c, d, left);
    }
    // the converse first: where it holds, c is kept whatever the other test would say
    if subsumes_like(tree, d, c, left) {
        return false;
    }
    subsumes_like(tree, c, d, left)
}

// Whether each child of the node is alone under its role, so that none is dropped. Roles are compared modulo 64:
// a wrong `false` costs time and nothing else.
fn apart(tree: &Tree, node: usize) -> bool
    requires { Children tree.now.roles tree.now.ends (node + 1) (slice_index tree.now.ends node) }
    ensures { KeptIf tree.now.roles tree.now.ends (node + 1) (slice_index tree.now.ends node) result }
{
    let mut seen: u64 = 0;
    for child in tree.children(node) {
        let role = usize::from(tree.roles[child] % 64);
        if bits::on(seen, role) {
            return false;
        }
        seen = bits::with_bit(seen, role, false, true);
    }
    true
}

// Whether the node's child at c is dropped; `alone`: each child is alone under its role.
fn dropped(tree: &Tree, node: usize, c: usize, left: usize, alone: bool) -> bool
    requires sibling { Sibling tree.now.names tree.now.roles tree.now.ends left (node + 1) c (slice_index tree.now.ends node) }
    requires kept_if { KeptIf tree.now.roles tree.now.ends (node + 1) (slice_index tree.now.ends node) alone }
    ensures { TestsDropped tree.now.names tree.now.roles tree.now.ends left (node + 1) c (slice_index tree.now.ends node) result }
{
    if alone {
        return false;
    }
    if yields_one::<true>(tree, c, tree.between(node + 1, c), left) {
        return true;
    }
    let next = usize::from(tree.ends[c]);
    let end = usize::from(tree.ends[node]);
    yields_one::<false>(tree, c, tree.between(next, end), left)
}

// Sets one mark.
fn put(marks: &mut [u8], c: usize, v: u8)
    requires { c < length marks.old }
    ensures { Put marks.old marks.new c v }
{
    marks[c] = v;
}

// Marks what is below the node.
#[cycle(marking)]
fn mark(tree: &Tree, marks: &mut [u8; 64], node: usize, left: usize)
    requires { Held tree.now.names tree.now.roles tree.now.ends left node }
    ensures { MarkedBelow tree.now.names tree.now.roles tree.now.ends left marks.old marks.new node }
{
    let alone = apart(tree, node);
    for child in tree.children(node) {
        mark_child(tree, marks, node, child, left - 1, alone);
    }
}

// Marks the node's child at c, and what is below it if it is kept.
#[cycle(marking)]
fn mark_child(tree: &Tree, marks: &mut [u8; 64], node: usize, c: usize, left: usize, alone: bool)
    requires sibling { Sibling tree.now.names tree.now.roles tree.now.ends left (node + 1) c (slice_index tree.now.ends node) }
    requires kept_if { KeptIf tree.now.roles tree.now.ends (node + 1) (slice_index tree.now.ends node) alone }
    ensures { MarkedChild tree.now.names tree.now.roles tree.now.ends left marks.old marks.new (node + 1) c (slice_index tree.now.ends node) }
{
    if dropped(tree, node, c, left, alone) {
        put(marks, c, 0);
        return;
    }
    put(marks, c, 1);
    mark(tree, marks, c, left);
}

// Marks the whole tree at row 0.
pub fn reduce(tree: &Tree, marks: &mut [u8; 64])
    requires { Held tree.now.names tree.now.roles tree.now.ends 17 0 }
    ensures { MarkedWhole tree.now.names tree.now.roles tree.now.ends marks.new }
{
    put(marks, 0, 1);
    mark(tree, marks, 0, meaning::MOST_LEVELS);
}

// The size of the tree at the node: names plus child edges, over all kept nodes.
#[cycle(sizing)]
pub fn size(tree: &Tree, marks: &[u8; 64], node: usize, left: usize) -> usize
    requires { HeldBy tree.now.names tree.now.ends left node }
    ensures { Sized tree.now.names tree.now.ends left marks.now node result }
{
    let mut n = named(tree.names[node]);
    for child in tree.children(node) {
        n += child_size(tree, marks, child, left - 1);
    }
    n
}

// What the child at c adds: its edge and its size if it is kept.
#[cycle(sizing)]
fn child_size(tree: &Tree, marks: &[u8; 64], c: usize, left: usize) -> usize
    requires { HeldBy tree.now.names tree.now.ends left c }
    ensures { SizedKept tree.now.names tree.now.ends left marks.now c result }
{
    if marks[c] != 1 {
        return 0;
    }
    1 + size(tree, marks, c, left)
}

// The size of the reduced form of the whole tree at row 0.
pub fn reduced_size(tree: &Tree) -> usize
    requires { Held tree.now.names tree.now.roles tree.now.ends 17 0 }
    ensures for_tree { ForTree tree.now.names tree.now.roles tree.now.ends 17 0 (λ t. result ≡ size (reduce t)) }
    ensures upper_bound { result < 4160 }
{
    let mut marks = [0u8; 64];
    reduce(tree, &mut marks);
    size(tree, &marks, 0, meaning::MOST_LEVELS)
}
