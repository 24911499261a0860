// Degrees of the items of a set in a concept tree that is held as rows, over the graph of a register image that was read: whole numbers over
// the tree's scale. A node is worked out only at the items that its parent's items reach. Row 0 of the numbers is all ones, for the nodes without names and
// children, which are worth 1 at every item and are not worked out.
#![tactic(auto)]

ghost use Rattle.std.specs.Prelude.{◌≡◌, true, ◌+◌, ◌-◌, ◌<◌, length, get_or};
ghost use Rattle.graph.specs.Walked.{walked};
ghost use Rattle.graph.specs.Sets.{Among};
ghost use Rattle.degrees.specs.Gradable.{GradableOn, Member};
ghost use Rattle.degrees.specs.Room.{Lent};
ghost use Rattle.degrees.specs.Headed.{HeadedOn};
ghost use Rattle.degrees.specs.Given.{Worked, Done, Below, Standing};

use folds::ROW;
use graph::Indexed;
use graph::sets::Items;
use rows::Reduced;

// Where a child's numbers stand, and the scale that they are over.
#[derive(Drop)]
pub struct Source {
    pub from: usize,
    pub scale: u64,
}

// The degrees of the members of a set in the tree at a node, as whole numbers over its scale, which is answered, from place `at` on; and for each
// kept node below it, along which link it goes where its parent goes to an item. The heaviest child comes first, since only then the row at `at` is
// free for its use: so a further row is in use for the others alone, which have less than half of the rows. The rows may hold a tree of at most
// `left` levels: that falls.
// Kept: eight parameters. The tree and the node, the set, and the rows that are free change from call to call, and notes and numbers are lent as they are:
// a struct of the two would be made anew at each call, since it holds two `&mut`.
#[cycle(others_reach_work)]
pub fn work(
    on: &Indexed,
    of: &Reduced,
    node: usize,
    left: usize,
    set: &Items,
    at: usize,
    notes: &mut [u64],
    numbers: &mut [u32],
) -> u64
    requires gradable { GradableOn on.now of.now node left }
    requires lent { Lent on.now.items set.now.words notes.old numbers.old of.now.tree.ends node at }
    ensures { (k : GradableOn on.now of.now node left)
        → Done k (Member set.now.words) at at result notes.old notes.new numbers.old numbers.new }
{
    let names = of.tree.names[node];
    let Some(heavy) = heaviest::heaviest(of, node) else {
        return folds::alone(on, names, set, at, numbers);
    };
    let child = reach(on, of, heavy, left - 1, set, at, notes, numbers);
    let role = usize::from(of.tree.roles[heavy]);
    folds::fold(
        on,
        role,
        heavy,
        set,
        child.from,
        at + ROW,
        0,
        1,
        notes,
        numbers,
    );
    folds::own(on, names, child.scale, set, at, numbers);
    others(
        on,
        of,
        node,
        left,
        set,
        heavy,
        child.scale,
        at,
        notes,
        numbers,
    )
}

// A node has no names, and no children below it.
fn empty(of: &Reduced, node: usize) -> bool
    requires { node < 64 }
    ensures { result ≡ true → (get_or of.now.tree.names node 0 ≡ 0) × (get_or of.now.tree.ends node 0 ≡ node + 1) }
{
    of.tree.names[node] == 0 && usize::from(of.tree.ends[node]) == node + 1
}

// The same at the child at a node, for the items that the members of its parent's set reach, and where its numbers stand. The numbers of one without names
// and children are those of row 0.
#[cycle(others_reach_work)]
fn reach(
    on: &Indexed,
    of: &Reduced,
    node: usize,
    left: usize,
    set: &Items,
    at: usize,
    notes: &mut [u64],
    numbers: &mut [u32],
) -> Source
    requires gradable { GradableOn on.now of.now node left }
    requires lent { Lent on.now.items set.now.words notes.old numbers.old of.now.tree.ends node at }
    ensures done { (k : GradableOn on.now of.now node left)
        → Done k (Below (walked k.posed.graph.register) set.now.words (get_or of.now.tree.roles node 0)) at result.from result.scale
        notes.old notes.new numbers.old numbers.new }
    ensures standing { Standing at result.from }
{
    if empty(of, node) {
        return Source { from: 0, scale: 1 };
    }
    let mut below = Items::none();
    on.spread(set, usize::from(of.tree.roles[node]), &mut below);
    let scale = work(on, of, node, left, &below, at, notes, numbers);
    Source { from: at, scale }
}

// Folds in all kept children of a node but the heaviest, which is folded in, over the scale `first`; the node's scale is answered.
#[cycle(others_reach_work)]
fn others(
    on: &Indexed,
    of: &Reduced,
    node: usize,
    left: usize,
    set: &Items,
    heavy: usize,
    first: u64,
    at: usize,
    notes: &mut [u64],
    numbers: &mut [u32],
) -> u64
    requires { HeadedOn on.now of.now node left set.now.words heavy at first notes.old numbers.old }
    ensures { (k : GradableOn on.now of.now node left)
        → Done k (Member set.now.words) at at result notes.old notes.new numbers.old numbers.new }
{
    let mut n = u64::from(of.tree.names[node].count_ones()) + 1;
    let mut product = first;
    for child in of.tree.children(node) {
        if heaviest::passed(of.marks[child], child, heavy) {
            continue;
        }
        let Source { from, scale } = reach(on, of, child, left - 1, set, at + ROW, notes, numbers);
        let role = usize::from(of.tree.roles[child]);
        folds::fold(
            on, role, child, set, from, at, scale, product, notes, numbers,
        );
        product *= scale;
        n += 1;
    }
    n * product
}

// The degrees of the members of a set in the tree at row 0, as whole numbers over its scale, which is answered, from place 512 on.
pub fn degrees(on: &Indexed, of: &Reduced, set: &Items, numbers: &mut [u32]) -> u64
    requires gradable { GradableOn on.now of.now 0 17 }
    requires items { Among on.now.items set.now.words × (length numbers.old ≡ 3584) }
    ensures { (k : GradableOn on.now of.now 0 17)
        → Worked k.posed.graph.register k.tree (Member set.now.words) 512 result numbers.new }
{
    folds::ones(0, numbers);
    work(on, of, 0, meaning::MOST_LEVELS, set, ROW, &mut [], numbers)
}
