// Of a set of items stay those that satisfy the thresholds of a node: each inner concept is read again from the message, and their degrees in it are
// worked out.
#![tactic(auto)]

ghost use Rattle.std.specs.Prelude.{◌≡◌, ◌+◌, ◌≤◌, ◌<◌, length};
ghost use Rattle.meaning.specs.Bounds.{most_items, most_thresholds, most_q};
ghost use Rattle.meaning.specs.Fraction.{◌÷◌, compares};
ghost use Rattle.meaning.specs.Message.{comparison};
ghost use Rattle.meaning.specs.Requirement.{Threshold, passes};
ghost use Rattle.graph.specs.Walked.{walked};
ghost use Rattle.graph.specs.Sets.{Among};
ghost use Rattle.graph.specs.On.{JudgedOn};
ghost use Rattle.folds.specs.Members.{Member};
ghost use Rattle.folds.specs.Folded.{row_at};
ghost use Rattle.degrees.specs.Given.{Worked};
ghost use Rattle.screening.specs.Sifting.{Sifted};
ghost use Rattle.screening.specs.Standing.{StandsAt, OneStands, AllStand, ruled_at};

use graph::Indexed;
use graph::sets::Items;
use rows::{Parts, Reduced, Tree};

// A requirement that was read: the bytes of its message, its tree, and which of its thresholds is whose and stands where in the message.
#[derive(Drop)]
pub struct Wanted<'a> {
    pub message: &'a [u8],
    pub tree: Tree,
    pub parts: Parts,
}

// Of a set stay the items that satisfy each threshold of a node.
pub fn screen(on: &Indexed, wanted: &Wanted, node: usize, set: &mut Items)
    requires all_stand { AllStand wanted.now.message.now wanted.now.parts.firsts wanted.now.parts.count }
    requires count_le_most { (wanted.now.parts.count ≤ most_thresholds) × Among on.now.items set.old.words }
    ensures { (j : JudgedOn on.now) (a : AllStand wanted.now.message.now wanted.now.parts.firsts wanted.now.parts.count)
        → Sifted (λ x. ruled_at (walked j.register) wanted.now.parts.owners a.thresholds wanted.now.parts.count node x) set.old.words set.new.words }
{
    for k in 0..wanted.parts.count {
        if usize::from(wanted.parts.owners[k]) == node {
            judge(on, wanted.message, usize::from(wanted.parts.firsts[k]), set);
        }
    }
}

// Of a set stay the items that satisfy the threshold at `first`.
fn judge(on: &Indexed, message: &[u8], first: usize, set: &mut Items)
    requires one_stands { OneStands message.now first }
    requires among { Among on.now.items set.old.words }
    ensures { (j : JudgedOn on.now) (h : Threshold) → StandsAt message.now first h
        → Sifted (λ x. passes (walked j.register) h x) set.old.words set.new.words }
{
    if set.is_empty() {
        return;
    }
    let mut numbers = [0u32; 3584];
    let scale = grade(on, message, first, set, &mut numbers);
    let p = fields::two(message, first + 1) as u64;
    let q = fields::two(message, first + 3) as u64;
    sift(&numbers, scale, message[first], p, q, set);
}

// The degrees of the items of a set in the inner concept of the threshold at `first`, over the scale that is answered.
// Kept: a slice of numbers with its length in a clause, and no array: `degrees::degrees`, which it is handed on to, has it so.
fn grade(on: &Indexed, message: &[u8], first: usize, set: &Items, numbers: &mut [u32]) -> u64
    requires one_stands { OneStands message.now first }
    requires among { Among on.now.items set.now.words × (length numbers.old ≡ 3584) }
    ensures { (j : JudgedOn on.now) (h : Threshold) → StandsAt message.now first h
        → Worked j.register h.inner (Member set.now.words) 512 result numbers.new }
{
    let mut packed = [0u64; rows::LEN];
    let at = first + 7;
    let stop = at + fields::two(message, first + 5);
    parts::read_concept(message, at, stop, &mut packed);
    let tree = Tree::of(&packed);
    let mut marks = [0u8; 64];
    reduction::reduce(&tree, &mut marks);
    degrees::degrees(on, &Reduced { tree, marks }, set, numbers)
}

// Of a set stay the items whose number, which stands from place 512 on, over the scale satisfies a comparison with p / q.
fn sift(values: &[u32], scale: u64, how: u8, p: u64, q: u64, set: &mut Items)
    requires { (512 + most_items ≤ length values.now) × (scale < 4294967296) × (p ≤ most_q) × (q ≤ most_q) }
    ensures { Sifted (λ x. compares (comparison how) (row_at values.now 512 x ÷ scale) (p ÷ q)) set.old.words set.new.words }
{
    set.retain(|x| fractions::satisfies(how, u64::from(values[folds::ROW + x]), scale, p, q));
}
