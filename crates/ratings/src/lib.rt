// The degrees of all items in a plain requirement, worked out at once: each kept node once at every item, and noted along which links it goes. An item's
// row of the listing is then read off the numbers and the notes; of a withdrawn one it says so.
#![tactic(auto)]

ghost use Rattle.std.specs.Prelude.{◌≡◌, List, ℕ, ◌<◌, get_or};
ghost use Rattle.meaning.specs.Bounds.{most_nodes};
ghost use Rattle.meaning.specs.Calls.{degree_call};
ghost use Rattle.degrees.specs.Gradable.{GradableOn};
ghost use Rattle.lines.specs.Entries.{degree_row};
ghost use Rattle.ratings.specs.Rated.{Graded, Rated};

use graph::Indexed;
use graph::sets::Items;
use lines::Line;
use rows::Reduced;

// A row of ones, and six rows for the nodes that are being worked out.
const NUMBERS: usize = 7 * folds::ROW;

// What is worked out for all items beside the notes: their numbers at the tree's root, which stand from place 512 on, over a scale.
#[derive(Drop)]
pub struct Ratings {
    pub scale: u64,
    pub numbers: [u32; NUMBERS],
}

// Works out all items, and notes where the tree's nodes go: the notes are lent empty.
pub fn rate(on: &Indexed, of: &Reduced, notes: &mut [u64]) -> Ratings
    requires gradable { GradableOn on.now of.now 0 17 }
    requires empty { (k : ℕ) → get_or notes.old k 0 ≡ 0 }
    ensures { (k : GradableOn on.now of.now 0 17) → Graded k.posed.graph.register k.tree on.now.items of.now notes.new result }
{
    let set = Items::first(on.items);
    let mut numbers = [0; NUMBERS];
    folds::ones(0, &mut numbers);
    let scale = degrees::work(
        on,
        of,
        0,
        meaning::MOST_LEVELS,
        &set,
        folds::ROW,
        notes,
        &mut numbers,
    );
    Ratings { scale, numbers }
}

// The row of one item.
pub fn row(on: &Indexed, of: &Reduced, notes: &[u64], ratings: &Ratings, item: usize) -> Line
    requires rated { (m : List ℕ) × Rated on.now of.now m notes.now ratings.now }
    requires inside { item < on.now.items }
    ensures { (m : List ℕ) → Rated on.now of.now m notes.now ratings.now → result ≡ degree_row item (degree_call on.now.image.now m item most_nodes) }
{
    if graph::is_out(on.image, item) {
        return lines::withdrawn_line(item);
    }
    let mut map = [0; meaning::MOST_NODES];
    shown::show(on, of, notes, 0, meaning::MOST_LEVELS, Some(item), &mut map);
    let nodes = usize::from(of.tree.ends[0]);
    let number = u64::from(ratings.numbers[folds::ROW + item]);
    let degree = fractions::lowest(number, ratings.scale);
    lines::degree_line(item, degree.num, degree.den, &map[..nodes])
}
