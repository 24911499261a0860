// The sets of items that meet the written nodes: how one is narrowed by a node's names and by the set of a child, and the map of a yes that is read off
// the table of them all.
#![tactic(auto)]

ghost use Rattle.std.specs.Prelude.{◌≡◌, ◌≤◌, ◌<◌, length, get_or};
ghost use Rattle.std.proofs.lemmas.List.Edits.{sets};
ghost use Rattle.meaning.specs.Names.{within};
ghost use Rattle.meaning.specs.Shown.{first, yes_map};
ghost use Rattle.meaning.specs.Whole.{any};
ghost use Rattle.graph.specs.Walked.{walked};
ghost use Rattle.graph.specs.Sets.{in_set, Among};
ghost use Rattle.graph.specs.On.{JudgedOn, JudgedAlong};
ghost use Rattle.screening.specs.Sifting.{Sifted};
ghost use Rattle.trails.specs.Charted.{Charted};
ghost use Rattle.trails.specs.Sought.{found};

use graph::sets::Items;
use graph::{Indexed, Walk};
use rows::Tree;
use std::ops::Range;

// Of a set stay the items that hold the names of a node.
pub fn hold(on: &Indexed, names: u64, set: &mut Items)
    requires { Among on.now.items set.old.words }
    ensures { (j : JudgedOn on.now) → Sifted (λ x. within names ((walked j.register).names x)) set.old.words set.new.words }
{
    set.retain(|x| names & on.names(x) == names);
}

// The first successor of an item under a role that is in a set, if one is. The set may have withdrawn items too: they are no successors.
pub fn seek(on: &Indexed, item: usize, role: usize, set: &Items) -> Option<usize>
    requires { item < on.now.items }
    ensures { (j : JudgedOn on.now) → result ≡ found (first (λ y. in_set set.now.words y) ((walked j.register).next item role)) }
{
    seek_along(&on.walk(), item, role, set)
}

// The same, link by link: where the first is found, how many links of the role there are need not be known.
fn seek_along(walk: &Walk, item: usize, role: usize, set: &Items) -> Option<usize>
    requires { item < walk.now.items }
    ensures { (j : JudgedAlong walk.now) → result ≡ found (first (λ y. in_set set.now.words y) ((walked j.register).next item role)) }
{
    let Range { start, end } = walk.from_role(item, role);
    for k in start..end {
        if role < walk.role_of(k) {
            return None;
        }
        let to = walk.end_of(k);
        if set.contains(to) && !graph::is_out(walk.image, to) {
            return Some(to);
        }
    }
    None
}

// Folds one child in: of a set stay the items that have a successor under the role in the child's.
#[tactic(auto, using(crate::proofs::Search::found_any))]
pub fn fold(on: &Indexed, role: usize, child: &Items, set: &mut Items)
    requires { Among on.now.items set.old.words }
    ensures { (j : JudgedOn on.now)
        → Sifted (λ x. any (λ y. in_set child.now.words y) ((walked j.register).next x role)) set.old.words set.new.words }
{
    set.retain(|x| seek(on, x, role, child).is_some());
}

// Shows where a node goes and all below it: a child goes to the lowest-numbered successor in its row.
pub fn walk(
    on: &Indexed,
    tree: &Tree,
    met: &[Items; 64],
    node: usize,
    left: usize,
    item: usize,
    map: &mut [u16],
)
    requires charted { Charted on.now tree.now met.now node left item }
    requires in_bounds { get_or tree.now.ends node 0 ≤ length map.old }
    ensures { (k : Charted on.now tree.now met.now node left item)
        → map.new ≡ sets map.old node (yes_map (walked k.posed.graph.register) k.tree item) }
{
    map[node] = item as u16;
    for child in tree.children(node) {
        let role = usize::from(tree.roles[child]);
        let to = seek(on, item, role, &met[child]).unwrap();
        walk(on, tree, met, child, left - 1, to, map);
    }
}
