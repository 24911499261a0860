// The degree of one item in a concept tree that is held as rows, over a register image that was read; and the map shown for it.
#![tactic(auto)]

ghost use Rattle.std.specs.Prelude.{◌≡◌, Some, None, MatchOption, ◌+◌, ◌≤◌, ◌<◌, length, get_or};
ghost use Rattle.meaning.specs.Bounds.{most_links};
ghost use Rattle.graph.specs.On.{JudgedOn};
ghost use Rattle.degrees.specs.Gradable.{GradableOn, GradableIn};
ghost use Rattle.degrees.specs.Notes.{Noted, Clear};
ghost use Rattle.shown.specs.Given.{Inside, Onward, drawn, Graded, Drawing};

use fields::bits;
use graph::Indexed;
use graph::sets::Items;
use register::Reading;
use rows::Reduced;

// A degree: a whole number over a scale.
#[derive(Clone, Copy, Debug, PartialEq, Eq)]
pub struct Degree {
    pub number: u64,
    pub scale: u64,
}

// Where the child at a node goes whose parent goes to `item`: along the link of the item that is noted for it; nowhere where none is, and where its
// parent does.
fn found(on: &Indexed, notes: &[u64], node: usize, item: Option<usize>) -> Option<usize>
    requires links_in_bounds { get_or on.now.index on.now.items 0 ≤ length notes.now }
    requires inside { Inside on.now.items item × (node < 64) }
    ensures { MatchOption item (result ≡ None) (λ x. Onward on.now notes.now node x result) }
{
    let x = item?;
    for k in usize::from(on.index[x])..usize::from(on.index[x + 1]) {
        if bits::on(notes[k], node) {
            return Some(on.end_of(k));
        }
    }
    None
}

// Writes the map of the tree at a node that goes to `item`, or nowhere where that is none: its own place, then each child's.
pub fn show(
    on: &Indexed,
    of: &Reduced,
    notes: &[u64],
    node: usize,
    left: usize,
    item: Option<usize>,
    map: &mut [u16],
)
    requires drawing { Drawing on.now of.now notes.now node left item }
    requires node_in_bounds { get_or of.now.tree.ends node 0 ≤ length map.old }
    ensures { (k : Drawing on.now of.now notes.now node left item)
        → map.new ≡ drawn k.posed.graph.register k.tree node item map.old }
{
    // Kept: numbers for nowhere and for dropped: the document's map has them ("Map shown"), and C reads it.
    map[node] = item.unwrap_or(meaning::NOWHERE) as u16;
    for child in of.tree.children(node) {
        if of.marks[child] == 0 {
            let end = usize::from(of.tree.ends[child]);
            map[child..end].fill(meaning::DROPPED as u16);
            continue;
        }
        let next = found(on, notes, child, item);
        show(on, of, notes, child, left - 1, next, map);
    }
}

// The degree of one item in the tree at a node; and it is noted where the nodes below go.
fn graded(
    on: &Indexed,
    of: &Reduced,
    node: usize,
    left: usize,
    item: usize,
    notes: &mut [u64],
) -> Degree
    requires gradable { GradableOn on.now of.now node left }
    requires item_lt { (item < on.now.items) × Clear notes.old (node + 1) (get_or of.now.tree.ends node 0) }
    ensures { (k : GradableOn on.now of.now node left) → Graded k.posed.graph.register k.tree item result
        × Noted of.now.tree.ends of.now.marks k.posed.graph.register notes.new k.tree node item }
{
    let mut set = Items::none();
    set.insert(item);
    let mut numbers = [0; 3584];
    folds::ones(0, &mut numbers);
    let scale = degrees::work(on, of, node, left, &set, folds::ROW, notes, &mut numbers);
    Degree {
        number: u64::from(numbers[folds::ROW + item]),
        scale,
    }
}

// The degree of one item in the tree at a node. It is not merged into the call that reads the requirement first: so its 15 KiB are on the stack only once
// what reading takes is off it.
#[inline(never)]
pub fn degree_at(read: &Reading, of: &Reduced, node: usize, left: usize, item: usize) -> Degree
    requires gradable { GradableIn read.now of.now node left }
    requires item_lt { item < read.now.items }
    ensures { (k : GradableIn read.now of.now node left) → Graded k.posed.graph.register k.tree item result }
{
    graded(&Indexed::new(read), of, node, left, item, &mut [])
}

// The degree of one item in the tree at a node, and its map. Only as many notes are made as a register of its size wants; and as `degree_at` it is not merged
// into the call.
#[inline(never)]
pub fn shown_at(
    read: &Reading,
    of: &Reduced,
    node: usize,
    left: usize,
    item: usize,
    map: &mut [u16],
) -> Degree
    requires gradable { GradableIn read.now of.now node left }
    requires node_in_bounds { (get_or of.now.tree.ends node 0 ≤ length map.old) × (item < read.now.items) }
    ensures { (k : GradableIn read.now of.now node left)
        → Graded k.posed.graph.register k.tree item result × (map.new ≡ drawn k.posed.graph.register k.tree node (Some item) map.old) }
{
    match read.links {
        0..=512 => shown_in::<512>(read, of, node, left, item, map),
        513..=2048 => shown_in::<2048>(read, of, node, left, item, map),
        _ => shown_in::<4096>(read, of, node, left, item, map),
    }
}

// The same in a register of at most N links.
fn shown_in<const N: usize>(
    read: &Reading,
    of: &Reduced,
    node: usize,
    left: usize,
    item: usize,
    map: &mut [u16],
) -> Degree
    requires gradable { GradableIn read.now of.now node left }
    requires node_in_bounds { (get_or of.now.tree.ends node 0 ≤ length map.old) × (item < read.now.items) }
    requires links_in_bounds { (read.now.links ≤ N) × (N ≤ most_links) }
    ensures { (k : GradableIn read.now of.now node left)
        → Graded k.posed.graph.register k.tree item result × (map.new ≡ drawn k.posed.graph.register k.tree node (Some item) map.old) }
{
    let on = Indexed::new(read);
    let mut notes = [0; N];
    let degree = graded(&on, of, node, left, item, &mut notes);
    show(&on, of, &notes, node, left, Some(item), map);
    degree
}
