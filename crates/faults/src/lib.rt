// What reading would refuse of a requirement that is handed over as lists (the crate `lists` says how): the first rule that it breaks, in the order of reading.
#![tactic(auto)]

ghost use Rattle.std.specs.Prelude.{◌≡◌, ℕ, ◌+◌, ◌*◌, ◌/◌, ◌%◌, ◌≤◌, ◌<◌, T, length, get_or};
ghost use Rattle.meaning.specs.Reduce.{size, reduce};
ghost use Rattle.meaning.specs.Lists.{form, concept};
ghost use Rattle.meaning.specs.Writing.{node_at, nodes_in, inners_at, lists_in, limit_at, whole, node_fits, nodes_fit, limit_fits, lists_fit};
ghost use Rattle.lists.specs.Handed.{nodes_to, One, Inner};
ghost use Rattle.faults.specs.Faulty.{told, Rest, Found, deeper};

use lists::{Handed, Limits, Nodes};
use meaning::Rule;
use rows::Tree;

// ---- what is broken

// The i-th node of a list.
fn node_fault(list: &Nodes, i: usize) -> Result<(), Rule>
    requires { 3 * i + 3 ≤ length list.now }
    ensures { told result ≡ node_fits i (node_at list.now i) }
{
    if 0 < i && meaning::MOST_ROLE < list.role(i) {
        return Err(Rule::RoleAbove);
    }
    if meaning::MOST_LEVELS <= list.depth(i) {
        return Err(Rule::TooDeep);
    }
    if meaning::MOST_NODES <= i {
        return Err(Rule::TooManyNodes);
    }
    Ok(())
}

// The nodes of an inner list.
fn nodes_fault(list: &Nodes) -> Result<(), Rule>
    ensures { told result ≡ nodes_fit 0 (nodes_in list.now) }
{
    for i in 0..list.count() {
        node_fault(list, i)?;
    }
    Ok(())
}

// The j-th threshold with its inner nodes.
fn limit_fault(limits: &Limits, j: usize, inner: &Nodes) -> Result<(), Rule>
    requires { One limits.now inner.now j 0 × (length inner.now ≡ 3 * inners_at limits.now j) }
    ensures { told result ≡ limit_fits j (limit_at limits.now inner.now j 0) }
{
    if meaning::MOST_THRESHOLDS <= j {
        return Err(Rule::TooManyThresholds);
    }
    if 3 < limits.how(j) {
        return Err(Rule::NoComparison);
    }
    fractions::wrong(limits.p(j), limits.q(j))?;
    nodes_fault(inner)?;
    if meaning::MOST_SIZE < inner_size(inner) {
        return Err(Rule::TooLarge);
    }
    Ok(())
}

// Behind the thresholds of a node: the next threshold, and where its inner nodes begin.
#[derive(Clone, Copy)]
struct Next {
    limit: usize,
    first: usize,
}

// The thresholds of the i-th node, of which the first is the j-th of all.
fn own_fault(of: &Handed, i: usize, j: usize, first: usize) -> Result<Next, Rule>
    requires { Rest of.now.limits of.now.inner (length of.now.nodes / 3) i j first }
    ensures { Found of.now.limits of.now.inner (length of.now.nodes / 3) i j first result }
{
    let mut at = first;
    let many = of.limits.count();
    for next in j..many {
        if of.limits.owner(next) != i {
            return Ok(Next {
                limit: next,
                first: at,
            });
        }
        let n = of.limits.inners(next);
        limit_fault(&of.limits, next, &of.inner.part(at, n))?;
        at += n;
    }
    Ok(Next {
        limit: many,
        first: at,
    })
}

// Node after node, each with its thresholds.
pub fn fault(of: &Handed) -> Result<(), Rule>
    requires { T (whole of.now.nodes of.now.limits of.now.inner) × T (form (lists_in of.now.nodes of.now.limits of.now.inner)) }
    ensures { told result ≡ lists_fit 0 (lists_in of.now.nodes of.now.limits of.now.inner).outer
        (lists_in of.now.nodes of.now.limits of.now.inner).limits }
{
    let mut next = Next { limit: 0, first: 0 };
    for i in 0..of.nodes.count() {
        node_fault(&of.nodes, i)?;
        next = own_fault(of, i, next.limit, next.first)?;
    }
    Ok(())
}

// ---- the size of an inner list

// Where the nodes below the k-th end.
fn past(list: &Nodes, k: usize) -> usize
    requires { 3 * k + 3 ≤ length list.now }
    ensures value { result ≡ k + 1 + deeper (get_or list.now (3 * k + 1) 0) (nodes_to list.now (k + 1) (length list.now / 3)) }
    ensures lower_bound { (k < result) × (result ≤ length list.now / 3) }
{
    let end = list.count();
    let d = list.depth(k);
    for e in k + 1..end {
        if list.depth(e) <= d {
            return e;
        }
    }
    end
}

// The nodes as a tree in reading order.
fn tree_of(list: &Nodes) -> Tree
    requires { length list.now / 3 ≤ 64 }
    ensures names { (i : ℕ) → i < length list.now / 3 → get_or result.names i 0 ≡ get_or list.now (3 * i) 0 }
    ensures roles { (i : ℕ) → i < length list.now / 3 → get_or result.roles i 0 ≡ get_or list.now (3 * i + 2) 0 % 256 }
    ensures ends { (i : ℕ) → i < length list.now / 3
        → get_or result.ends i 0 ≡ i + 1 + deeper (get_or list.now (3 * i + 1) 0) (nodes_to list.now (i + 1) (length list.now / 3)) }
{
    let mut names = [0u64; 64];
    let mut roles = [0u8; 64];
    let mut ends = [0u8; 64];
    for i in 0..list.count() {
        names[i] = list.names(i);
        roles[i] = (list.role(i) % 256) as u8;
        ends[i] = past(list, i) as u8;
    }
    Tree { names, roles, ends }
}

// The reduced size of the concept that an inner list says.
fn inner_size(list: &Nodes) -> usize
    requires { Inner list.now }
    ensures { result ≡ size (reduce (concept (nodes_in list.now))) }
{
    reduction::reduced_size(&tree_of(list))
}
