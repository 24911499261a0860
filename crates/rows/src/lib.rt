// The rows of a requirement that was read, as its readers leave them in 144 lent numbers, and the tree and the thresholds that stand in them.
// The names of the written node n stand at n; the role of the edge to it, and the index just past its subtree, at 64 + n;
// of the k-th threshold the written node that it is of, and the place of its first byte, at 128 + k. Two numbers in one are the lower byte and the rest.
#![tactic(auto)]

ghost use Rattle.std.specs.Prelude.{◌≡◌, ◌+◌, ◌*◌, ◌/◌, ◌%◌, ◌≤◌, ◌<◌, length, slice_index};
ghost use Rattle.rows.specs.Packed.{names_in, roles_in, ends_in, owners_in, firsts_in};

use std::array;

mod siblings;

pub use siblings::Siblings;

// A concept tree, node after node in reading order: the names of each written node, the role of the edge to it, and the index just past its subtree.
#[derive(Drop)]
pub struct Tree {
    pub names: [u64; 64],
    pub roles: [u8; 64],
    pub ends: [u8; 64],
}

// A tree with the marks of the drop rule: of each written node 1 where it is kept, 0 where it is dropped.
// Kept: a mark is a number, as the promises have it (`Marked`, `MarkedWhole`).
#[derive(Drop)]
pub struct Reduced {
    pub tree: Tree,
    pub marks: [u8; 64],
}

// The thresholds of a requirement: the written node that each is of, the place of its first byte, and how many there are.
#[derive(Drop)]
pub struct Parts {
    pub owners: [u8; 16],
    pub firsts: [u16; 16],
    pub count: usize,
}

// Kept: two numbers in one, in a lent slice: `requirement::read_message` promises what stands in the slice that it is lent (`MessageDone`), and its
// readers, which call each other in a cycle, hand that one slice on.
pub const LEN: usize = 144;

pub const EDGES: usize = 64;

pub const PARTS: usize = 128;

// Two numbers in one.
pub fn packed(low: usize, high: usize) -> u64
    requires { (low < 256) × (high < 65536) }
    ensures { result ≡ low + 256 * high }
{
    (low + 256 * high) as u64
}

// The lower byte, the byte above it, and the two bytes above it.
fn low(x: u64) -> u8
    ensures { result ≡ x % 256 }
{
    (x % 256) as u8
}

fn high(x: u64) -> u8
    ensures { result ≡ x / 256 % 256 }
{
    (x / 256 % 256) as u8
}

fn high_pair(x: u64) -> u16
    ensures { result ≡ x / 256 % 65536 }
{
    (x / 256 % 65536) as u16
}

impl Tree {
    // The tree that stands in the rows.
    pub fn of(rows: &[u64]) -> Tree
        requires { 144 ≤ length rows.now }
        ensures names { result.names ≡ names_in rows.now }
        ensures roles { result.roles ≡ roles_in rows.now }
        ensures ends { result.ends ≡ ends_in rows.now }
    {
        Tree {
            names: array::from_fn(|n| rows[n]),
            roles: array::from_fn(|n| low(rows[EDGES + n])),
            ends: array::from_fn(|n| high(rows[EDGES + n])),
        }
    }

    // The trees that stand from row `from` up to row `end`.
    #[inline]
    pub fn between(&self, from: usize, end: usize) -> Siblings<'_>
        ensures ends { result.ends.now ≡ self.now.ends }
        ensures from { result.at ≡ from }
        ensures end { result.end ≡ end }
    {
        Siblings {
            ends: &self.ends,
            at: from,
            end,
        }
    }

    // The children of the node.
    #[inline]
    pub fn children(&self, node: usize) -> Siblings<'_>
        requires { node < 64 }
        ensures ends { result.ends.now ≡ self.now.ends }
        ensures from { result.at ≡ node + 1 }
        ensures end { result.end ≡ slice_index self.now.ends node }
    {
        self.between(node + 1, usize::from(self.ends[node]))
    }
}

impl Parts {
    // The thresholds that stand in the rows, of which there are `count`.
    pub fn of(rows: &[u64], count: usize) -> Parts
        requires { 144 ≤ length rows.now }
        ensures owners { result.owners ≡ owners_in rows.now }
        ensures firsts { result.firsts ≡ firsts_in rows.now }
        ensures count { result.count ≡ count }
    {
        Parts {
            owners: array::from_fn(|k| low(rows[PARTS + k])),
            firsts: array::from_fn(|k| high_pair(rows[PARTS + k])),
            count,
        }
    }
}
