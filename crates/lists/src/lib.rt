// A requirement that is handed over as lists of numbers, and whether they form one (number 22).
// A node is three numbers: names, depth, role. A threshold is five: node, comparison, p, q, and how many inner nodes it has; the inner nodes of all
// thresholds stand one after the other.
#![tactic(auto)]

ghost use Rattle.std.specs.Prelude.{◌≡◌, ◌&&◌, ◌+◌, ◌*◌, ◌/◌, ◌%◌, ◌^◌, ◌≤◌, ◌<◌, ◌==◌, List, ℕ, length, get_or};
ghost use Rattle.meaning.specs.Lists.{form_tree, stand_at, form};
ghost use Rattle.meaning.specs.Writing.{nodes_from, nodes_in, inners_at, lists_in, limits_from, shared_out, whole};

use std::marker::Model;

// ---- the numbers of a list

// Nodes, one after the other. In a clause they are their numbers.
#[derive(Drop)]
pub struct Nodes<'a> {
    numbers: &'a [u64],
}

impl<'a> Model for Nodes<'a> {
    ghost Value = { List ℕ };

    ghost view = { λ s. s.numbers.now };

    // They stand in memory.
    ghost invariant = { λ s. 8 * length s.numbers.now < 2 ^ 63 };
}

impl<'a> Nodes<'a> {
    pub fn new(numbers: &'a [u64]) -> Nodes<'a>
        ensures { result ≡ numbers.now }
    {
        Nodes { numbers }
    }

    pub fn count(&self) -> usize
        ensures value { result ≡ length self.now / 3 }
        ensures fits { 3 * result < 2 ^ 60 }
    {
        self.numbers.len() / 3
    }

    // No number is left over behind the last.
    fn is_whole(&self) -> bool
        ensures { result ≡ (length self.now % 3 == 0) }
    {
        self.numbers.len() % 3 == 0
    }

    // The names, the depth and the role of the k-th node.
    pub fn names(&self, k: usize) -> u64
        requires { 3 * k + 3 ≤ length self.now }
        ensures { result ≡ get_or self.now (3 * k) 0 }
    {
        let numbers = self.numbers;
        numbers[3 * k]
    }

    pub fn depth(&self, k: usize) -> usize
        requires { 3 * k + 3 ≤ length self.now }
        ensures { result ≡ get_or self.now (3 * k + 1) 0 }
    {
        let numbers = self.numbers;
        numbers[3 * k + 1] as usize
    }

    pub fn role(&self, k: usize) -> usize
        requires { 3 * k + 3 ≤ length self.now }
        ensures { result ≡ get_or self.now (3 * k + 2) 0 }
    {
        let numbers = self.numbers;
        numbers[3 * k + 2] as usize
    }

    // So many nodes from `first` on.
    pub fn part(&self, first: usize, count: usize) -> Nodes<'a>
        requires { 3 * (first + count) ≤ length self.now }
        ensures nodes { nodes_in result ≡ nodes_from self.now first count }
        ensures len { length result ≡ 3 * count }
        ensures fits { first + count < 2 ^ 61 }
    {
        let numbers = self.numbers;
        Nodes {
            numbers: &numbers[3 * first..3 * (first + count)],
        }
    }

    // They form a tree: the first stands at depth 0, each later one from 1 to one above the one before.
    fn form_tree(&self) -> bool
        ensures { result ≡ form_tree (nodes_in self.now) }
    {
        let n = self.count();
        if n == 0 {
            return false;
        }
        if self.depth(0) != 0 {
            return false;
        }
        let mut before = 0;
        for k in 1..n {
            let d = self.depth(k);
            if d < 1 {
                return false;
            }
            if before < d - 1 {
                return false;
            }
            before = d;
        }
        true
    }
}

// Thresholds, one after the other. In a clause they are their numbers.
#[derive(Drop)]
pub struct Limits<'a> {
    numbers: &'a [u64],
}

impl<'a> Model for Limits<'a> {
    ghost Value = { List ℕ };

    ghost view = { λ s. s.numbers.now };

    // They stand in memory.
    ghost invariant = { λ s. 8 * length s.numbers.now < 2 ^ 63 };
}

impl<'a> Limits<'a> {
    pub fn new(numbers: &'a [u64]) -> Limits<'a>
        ensures { result ≡ numbers.now }
    {
        Limits { numbers }
    }

    pub fn count(&self) -> usize
        ensures value { result ≡ length self.now / 5 }
        ensures fits { 5 * result < 2 ^ 60 }
    {
        self.numbers.len() / 5
    }

    // No number is left over behind the last.
    fn is_whole(&self) -> bool
        ensures { result ≡ (length self.now % 5 == 0) }
    {
        self.numbers.len() % 5 == 0
    }

    // Of the j-th threshold: its node, its comparison, p, q, and how many inner nodes it has.
    pub fn owner(&self, j: usize) -> usize
        requires { 5 * j + 5 ≤ length self.now }
        ensures { result ≡ get_or self.now (5 * j) 0 }
    {
        let numbers = self.numbers;
        numbers[5 * j] as usize
    }

    pub fn how(&self, j: usize) -> usize
        requires { 5 * j + 5 ≤ length self.now }
        ensures { result ≡ get_or self.now (5 * j + 1) 0 }
    {
        let numbers = self.numbers;
        numbers[5 * j + 1] as usize
    }

    pub fn p(&self, j: usize) -> usize
        requires { 5 * j + 5 ≤ length self.now }
        ensures { result ≡ get_or self.now (5 * j + 2) 0 }
    {
        let numbers = self.numbers;
        numbers[5 * j + 2] as usize
    }

    pub fn q(&self, j: usize) -> usize
        requires { 5 * j + 5 ≤ length self.now }
        ensures { result ≡ get_or self.now (5 * j + 3) 0 }
    {
        let numbers = self.numbers;
        numbers[5 * j + 3] as usize
    }

    pub fn inners(&self, j: usize) -> usize
        requires { 5 * j + 5 ≤ length self.now }
        ensures { result ≡ inners_at self.now j }
    {
        let numbers = self.numbers;
        numbers[5 * j + 4] as usize
    }
}

// ---- number 22

// All that is handed over: nodes, thresholds, and the inner nodes of all thresholds.
#[derive(Drop)]
pub struct Handed<'a> {
    pub nodes: Nodes<'a>,
    pub limits: Limits<'a>,
    pub inner: Nodes<'a>,
}

impl<'a> Handed<'a> {
    pub fn new(nodes: &'a [u64], limits: &'a [u64], inner: &'a [u64]) -> Handed<'a>
        ensures { result ≡ record { nodes = nodes.now; limits = limits.now; inner = inner.now } }
    {
        Handed {
            nodes: Nodes::new(nodes),
            limits: Limits::new(limits),
            inner: Nodes::new(inner),
        }
    }

    // Each threshold's node is one of the nodes and not below the one before, its inner nodes form a tree, and no inner nodes are left.
    fn stand(&self) -> bool
        ensures { result ≡ (shared_out self.now.limits 0 (length self.now.limits / 5) (length self.now.inner / 3)
            && stand_at (length self.now.nodes / 3) 0 (limits_from self.now.limits self.now.inner 0 0 (length self.now.limits / 5))) }
    {
        let n = self.nodes.count();
        let all = self.inner.count();
        let mut before = 0;
        let mut used = 0;
        for j in 0..self.limits.count() {
            let owner = self.limits.owner(j);
            if n <= owner {
                return false;
            }
            if owner < before {
                return false;
            }
            let count = self.limits.inners(j);
            if all - used < count {
                return false;
            }
            if !self.inner.part(used, count).form_tree() {
                return false;
            }
            before = owner;
            used += count;
        }
        used == all
    }

    // The numbers go into whole nodes and thresholds, and these form a requirement.
    #[tactic(auto, using(crate::proofs::Forms::nodes_count), unfolding(meaning::specs::Writing::whole, meaning::specs::Lists::form))]
    pub fn form(&self) -> bool
        ensures { result ≡ (whole self.now.nodes self.now.limits self.now.inner
            && form (lists_in self.now.nodes self.now.limits self.now.inner)) }
    {
        if !self.nodes.is_whole() {
            return false;
        }
        if !self.limits.is_whole() {
            return false;
        }
        if !self.inner.is_whole() {
            return false;
        }
        if !self.nodes.form_tree() {
            return false;
        }
        self.stand()
    }
}
