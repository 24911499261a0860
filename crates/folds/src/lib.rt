// Folding a child's numbers into those of its parent, at the items of a set; numbers stand in rows, with a place for each item.
#![tactic(auto)]

ghost use Rattle.std.specs.Prelude.{◌≡◌, true, false, ℕ, ◌+◌, ◌*◌, ◌≤◌, ◌<◌, max, length, get_or, set};
ghost use Rattle.meaning.specs.Names.{common};
ghost use Rattle.meaning.specs.Names.{names as many};
ghost use Rattle.meaning.specs.Register.{withdrawn};
ghost use Rattle.meaning.specs.Session.{with_name};
ghost use Rattle.meaning.specs.Degree.{or_one};
ghost use Rattle.graph.specs.Walked.{walked};
ghost use Rattle.graph.specs.On.{JudgedOn, JudgedAlong};
ghost use Rattle.graph.specs.Sets.{Among};
ghost use Rattle.folds.specs.Members.{Member};
ghost use Rattle.folds.specs.Folded.{row_at, Kept, Chosen, Folding, Folded};

use fields::bits;
use graph::sets::Items;
use graph::{Indexed, Walk};
use std::ops::Range;

// A row of numbers has a place for each item that there may be.
pub const ROW: usize = 512;

// Of some links: the greatest value of an end in service (0 where there is none), and the first link whose end has it.
#[derive(Drop)]
pub struct Best {
    pub value: u32,
    pub link: Option<usize>,
}

// One pass over a run of links, up to the first of a higher role; the values of their ends stand from `at` on. `SERVED`: all items are in service, so no
// end is looked at; the compiler makes that loop free of branches.
fn best_of<const SERVED: bool>(
    walk: &Walk,
    role: usize,
    run: Range<usize>,
    numbers: &[u32],
    at: usize,
) -> Best
    requires run { (j : JudgedAlong walk.now) → (run.start ≤ run.end) × (run.end ≤ length j.register.links) }
    requires row { at + 512 ≤ length numbers.now }
    requires served { SERVED ≡ true → (j : JudgedAlong walk.now) (x : ℕ) → withdrawn j.register x ≡ false }
    ensures { (j : JudgedAlong walk.now) → Chosen j.register role run.start run.end (row_at numbers.now at) result }
{
    let Range { start, end } = run;
    let mut best = Best {
        value: 0,
        link: None,
    };
    for k in start..end {
        if role < walk.role_of(k) {
            break;
        }
        let to = walk.end_of(k);
        let value = numbers[at + to];
        if value <= best.value && best.link.is_some() {
            continue;
        }
        if !SERVED && graph::is_out(walk.image, to) {
            continue;
        }
        best = Best {
            value,
            link: Some(k),
        };
    }
    best
}

// The best of the ends in service. `served`: all items are, so none is looked at.
// Kept: which of the two loops runs is told by a `bool`: it is known only at run time, once for all members of a set, and the loops are made before.
fn chosen(
    walk: &Walk,
    served: bool,
    role: usize,
    run: Range<usize>,
    numbers: &[u32],
    at: usize,
) -> Best
    requires run { (j : JudgedAlong walk.now) → (run.start ≤ run.end) × (run.end ≤ length j.register.links) }
    requires row { at + 512 ≤ length numbers.now }
    requires served { served ≡ true → (j : JudgedAlong walk.now) (x : ℕ) → withdrawn j.register x ≡ false }
    ensures { (j : JudgedAlong walk.now) → Chosen j.register role run.start run.end (row_at numbers.now at) result }
{
    if served {
        return best_of::<true>(walk, role, run, numbers, at);
    }
    best_of::<false>(walk, role, run, numbers, at)
}

// A number so far over the scale of the children so far, and a child's number over its own scale: their sum over the product.
fn folded(sum: u32, scale: u64, value: u32, product: u64) -> u32
    requires { sum * scale + value * product < 4294967296 }
    ensures { result ≡ sum * scale + value * product }
{
    (u64::from(sum) * scale + u64::from(value) * product) as u32
}

// Notes that a node goes along a link. A link that the notes have no place for is not noted.
fn note(notes: &mut [u64], link: usize, node: usize)
    requires { node < 64 }
    ensures { notes.new ≡ set notes.old link (with_name true node (get_or notes.old link 0)) }
{
    if link < notes.len() {
        notes[link] = bits::marked(notes[link], node, true);
    }
}

// Folds one child in at the members of a set: a number from `to` on becomes what it was times the child's scale, and the best of the child's
// numbers, which stand from `from` on, over the item's successors under the role, times the product of the scales so far. For each member it is
// noted along which link the child goes.
// Kept: ten parameters. Role and node, the two places and the two scales are numbers of one child that stand together at this call alone.
pub fn fold(
    on: &Indexed,
    role: usize,
    node: usize,
    set: &Items,
    from: usize,
    to: usize,
    scale: u64,
    product: u64,
    notes: &mut [u64],
    numbers: &mut [u32],
)
    requires folding { Folding on.now.image.now on.now.items on.now.index set.now.words notes.old numbers.old role node from to scale product }
    requires members { Among on.now.items set.now.words }
    ensures { (j : JudgedOn on.now)
        → Folded j.register set.now.words notes.old notes.new numbers.old numbers.new role node from to scale product }
{
    let served = graph::all_serve(&on.index);
    let walk = on.walk();
    for x in set.members() {
        let run = walk.from_role(x, role);
        let best = chosen(&walk, served, role, run, numbers, from);
        numbers[to + x] = folded(numbers[to + x], scale, best.value, product);
        if let Some(link) = best.link {
            note(notes, link, node);
        }
    }
}

// The names that the node shares with each member of a set, over the scale of the child that is folded in, and that child's part, which stands
// in the next row.
pub fn own(on: &Indexed, names: u64, scale: u64, set: &Items, at: usize, numbers: &mut [u32])
    requires members { Among on.now.items set.now.words }
    requires fits { (j : JudgedOn on.now) (x : ℕ) → Member set.now.words x
        → common names ((walked j.register).names x) * scale + row_at numbers.old (at + 512) x < 4294967296 }
    requires rows { at + 512 + 512 ≤ length numbers.old }
    ensures sums { (j : JudgedOn on.now) (x : ℕ) → Member set.now.words x
        → row_at numbers.new at x ≡ common names ((walked j.register).names x) * scale + row_at numbers.old (at + 512) x }
    ensures kept { Kept at numbers.old numbers.new }
{
    for x in set.members() {
        let shared = (names & on.names(x)).count_ones();
        numbers[at + x] = folded(shared, scale, numbers[at + ROW + x], 1);
    }
}

// The value of a node without kept children, for an item that holds such names.
fn bare(names: u64, held: u64) -> u32
    ensures { result ≡ or_one (many names) (common names held) }
{
    if names == 0 {
        return 1;
    }
    (names & held).count_ones()
}

// The numbers of the members of a set at a node without kept children; its scale is answered.
pub fn alone(on: &Indexed, names: u64, set: &Items, at: usize, numbers: &mut [u32]) -> u64
    requires members { Among on.now.items set.now.words }
    requires row { at + 512 ≤ length numbers.old }
    ensures scale { result ≡ max 1 (many names) }
    ensures values { (j : JudgedOn on.now) (x : ℕ) → Member set.now.words x
        → row_at numbers.new at x ≡ or_one (many names) (common names ((walked j.register).names x)) }
    ensures kept { Kept at numbers.old numbers.new }
{
    for x in set.members() {
        numbers[at + x] = bare(names, on.names(x));
    }
    u64::from(names.count_ones()).max(1)
}

// The numbers of all items at a node without names and children, which is worth 1 at each; its scale is answered.
pub fn ones(at: usize, numbers: &mut [u32]) -> u64
    requires { at + 512 ≤ length numbers.old }
    ensures value { result ≡ 1 }
    ensures by_index { (x : ℕ) → x < 512 → row_at numbers.new at x ≡ 1 }
    ensures kept { Kept at numbers.old numbers.new }
{
    numbers[at..at + ROW].fill(1);
    1
}
