// Which items meet a requirement, for all items at once: each node and each threshold is judged once, and an item's row of the listing is then
// read off the table of what was found; of a withdrawn one it says so.
#![tactic(auto)]

ghost use Rattle.std.specs.Prelude.{◌≡◌, List, ℕ, ◌<◌};
ghost use Rattle.meaning.specs.Bounds.{most_nodes};
ghost use Rattle.meaning.specs.Calls.{member_call};
ghost use Rattle.graph.specs.Walked.{walked};
ghost use Rattle.meeting.specs.Required.{Required};
ghost use Rattle.lines.specs.Entries.{member_row};
ghost use Rattle.verdicts.specs.Told.{Tabled, Told};

use graph::Indexed;
use graph::sets::Items;
use lines::Line;
use rows::Tree;
use screening::Wanted;

// Judges each node and each threshold for all items, and fills the table.
pub fn judge(on: &Indexed, wanted: &Wanted, met: &mut [Items; 64])
    requires { Required on.now wanted.now 0 17 }
    ensures { (k : Required on.now wanted.now 0 17)
        → Tabled (walked k.posed.graph.register) k.tree on.now.items wanted.now.tree.ends met.new }
{
    let mut set = Items::first(on.items);
    meeting::meet(on, wanted, 0, meaning::MOST_LEVELS, &mut set, met);
}

// The row of one item, off the table.
pub fn row(on: &Indexed, tree: &Tree, met: &[Items; 64], item: usize) -> Line
    requires told { (m : List ℕ) × Told on.now m tree.now met.now }
    requires item_lt { item < on.now.items }
    ensures { (m : List ℕ) → Told on.now m tree.now met.now
        → result ≡ member_row item (member_call on.now.image.now m item most_nodes) }
{
    if graph::is_out(on.image, item) {
        return lines::withdrawn_line(item);
    }
    if !met[0].contains(item) {
        return lines::no_line(item);
    }
    let mut map = [0u16; meaning::MOST_NODES];
    trails::walk(on, tree, met, 0, meaning::MOST_LEVELS, item, &mut map);
    let nodes = usize::from(tree.ends[0]);
    lines::yes_line(item, &map[..nodes])
}
