// The thresholds of a requirement that is handed over as lists (the crate `lists` says how), and its nodes, put as bytes: the fixed fields of a node, an inner
// list, one threshold, and those of one node.
// Kept: a lent output and a place in it (`out`, `at`): `writer::write` promises `sets` of the whole output, bytes behind the message as they were, and each
// place follows from the counts; a struct round the two would only hold `at`.
#![tactic(auto)]

ghost use Rattle.std.specs.Prelude.{◌≡◌, ◌+◌, ◌*◌, ◌-◌, ◌/◌, ◌≤◌, ◌<◌, length, get_or};
ghost use Rattle.std.proofs.lemmas.List.Edits.{sets};
ghost use Rattle.meaning.specs.Lists.{concept, threshold};
ghost use Rattle.meaning.specs.Message.{concept_bytes, threshold_bytes, thresholds_bytes};
ghost use Rattle.meaning.specs.Refusal.{good};
ghost use Rattle.meaning.specs.Writing.{nodes_in, inners_at, limit_at, limits_from, limit_fits};
ghost use Rattle.lists.specs.Handed.{nodes_to, One, Inner};
ghost use Rattle.limits.specs.Flat.{ahead, fixed_at, run, after, Each, thresholds};

use lists::{Handed, Limits, Nodes};

// How many children the k-th node has: the nodes one deeper before the next that is not deeper.
fn children(list: &Nodes, k: usize) -> usize
    requires { 3 * k + 3 ≤ length list.now }
    ensures { result ≡ ahead (get_or list.now (3 * k + 1) 0) (nodes_to list.now (k + 1) (length list.now / 3)) }
{
    let end = list.count();
    let d = list.depth(k);
    let mut n = 0;
    for e in k + 1..end {
        let f = list.depth(e);
        if f <= d {
            return n;
        }
        n += usize::from(f - 1 == d);
    }
    n
}

// The ten bytes of the k-th node, which has so many thresholds.
pub fn put_node(list: &Nodes, k: usize, many: usize, out: &mut [u8], at: usize)
    requires { (k < length list.now / 3) × (length list.now / 3 ≤ k + 64) × (many < 256) × (at + 10 ≤ length out.old) }
    ensures { out.new ≡ sets out.old at (fixed_at list.now k (length list.now / 3) many) }
{
    let names = list.names(k);
    fields::put(out, at, 8, names as usize);
    fields::put(out, at + 8, 1, many);
    fields::put(out, at + 9, 1, children(list, k));
}

// An inner list: its root, then each other node behind its role. Where it ends is answered.
fn put_inner(list: &Nodes, out: &mut [u8], at: usize) -> usize
    requires { Inner list.now × (at + 11 * (length list.now / 3) ≤ length out.old + 1) }
    ensures result_value { result + 1 ≡ at + 11 * (length list.now / 3) }
    ensures out_after { out.new ≡ sets out.old at (concept_bytes (concept (nodes_in list.now))) }
{
    put_node(list, 0, 0, out, at);
    let mut p = at + 10;
    for k in 1..list.count() {
        fields::put(out, p, 1, list.role(k));
        put_node(list, k, 0, out, p + 1);
        p += 11;
    }
    p
}

// The j-th threshold with its inner nodes. Where it ends is answered.
fn put_limit(limits: &Limits, j: usize, inner: &Nodes, out: &mut [u8], at: usize) -> usize
    requires one { One limits.now inner.now j 0 × (limit_fits j (limit_at limits.now inner.now j 0) ≡ good tt) }
    requires in_bounds { (length inner.now ≡ 3 * inners_at limits.now j) × (at + 6 + 11 * inners_at limits.now j ≤ length out.old) }
    ensures value { result ≡ at + 6 + 11 * inners_at limits.now j }
    ensures out_after { out.new ≡ sets out.old at (threshold_bytes (threshold (limit_at limits.now inner.now j 0))) }
{
    fields::put(out, at, 1, limits.how(j));
    fields::put(out, at + 1, 2, limits.p(j));
    fields::put(out, at + 3, 2, limits.q(j));
    fields::put(out, at + 5, 2, 11 * inner.count() - 1);
    put_inner(inner, out, at + 7)
}

// How many thresholds from the j-th on are of the i-th node, before one of another.
pub fn own_count(limits: &Limits, i: usize, j: usize) -> usize
    requires { j ≤ length limits.now / 5 }
    ensures { result ≡ run limits.now i j (length limits.now / 5 - j) }
{
    let all = limits.count();
    for e in j..all {
        if limits.owner(e) != i {
            return e - j;
        }
    }
    all - j
}

// The thresholds from the j-th up to `end`, the inner nodes of which begin at `first`. Where those of the next begin is answered.
pub fn put_limits(
    of: &Handed,
    j: usize,
    end: usize,
    first: usize,
    out: &mut [u8],
    at: usize,
) -> usize
    requires j_le_end { (j ≤ end) × Each of.now.limits of.now.inner j first (end - j) }
    requires first_in_bounds { at + 6 * (end - j) + 11 * (after of.now.limits j first (end - j) - first) ≤ length out.old }
    ensures value { result ≡ after of.now.limits j first (end - j) }
    ensures out_after { out.new ≡ sets out.old at
        (thresholds_bytes (thresholds (limits_from of.now.limits of.now.inner j first (end - j)))) }
{
    let mut k = first;
    let mut p = at;
    for e in j..end {
        let n = of.limits.inners(e);
        p = put_limit(&of.limits, e, &of.inner.part(k, n), out, p);
        k += n;
    }
    k
}
