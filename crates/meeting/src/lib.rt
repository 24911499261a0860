// Which items meet a requirement that is held as rows, over a register image that was read.
// Going down from a set of items, those that meet a node stay; what stays at each node is noted in a table, off which the map of a yes is read.
#![tactic(auto)]

ghost use Rattle.std.specs.Prelude.{◌≡◌, ◌≤◌, ◌<◌, length, get_or};
ghost use Rattle.graph.specs.Walked.{walked};
ghost use Rattle.graph.specs.Sets.{Among};
ghost use Rattle.meeting.specs.Required.{Required, Done, Settled};

use graph::Indexed;
use graph::sets::Items;
use screening::Wanted;

// Of a set stay the items that meet the tree at a node, and the table notes what stays at the node and at each below it.
pub fn meet(
    on: &Indexed,
    wanted: &Wanted,
    node: usize,
    left: usize,
    set: &mut Items,
    met: &mut [Items; 64],
)
    requires required { Required on.now wanted.now node left }
    requires among { Among on.now.items set.old.words }
    ensures { (k : Required on.now wanted.now node left)
        → Done wanted.now.tree.ends (walked k.posed.graph.register) k.tree node set.old.words set.new.words met.old met.new }
{
    trails::hold(on, wanted.tree.names[node], set);
    screening::screen(on, wanted, node, set);
    for child in wanted.tree.children(node) {
        if set.is_empty() {
            break;
        }
        let role = usize::from(wanted.tree.roles[child]);
        let mut below = Items::none();
        on.spread(set, role, &mut below);
        meet(on, wanted, child, left - 1, &mut below, met);
        trails::fold(on, role, &below, set);
    }
    met[node] = *set;
}

// Whether an item meets the requirement; for a yes the map is written.
pub fn settle(on: &Indexed, wanted: &Wanted, item: usize, map: &mut [u16]) -> bool
    requires required { Required on.now wanted.now 0 17 }
    requires in_bounds { (item < on.now.items) × (get_or wanted.now.tree.ends 0 0 ≤ length map.old) }
    ensures { (k : Required on.now wanted.now 0 17) → Settled k.posed.graph.register k.tree item map.old map.new result }
{
    let mut met = [Items::none(); 64];
    let mut set = Items::none();
    set.insert(item);
    meet(on, wanted, 0, meaning::MOST_LEVELS, &mut set, &mut met);
    if !set.contains(item) {
        return false;
    }
    trails::walk(on, &wanted.tree, &met, 0, meaning::MOST_LEVELS, item, map);
    true
}
