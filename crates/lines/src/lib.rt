// The lines of a listing, as text in memory of their own: a refusal's, and an item's with its degree or with yes or no, and its map, or with `withdrawn`.
// Kept: pieces pushed one after the other, and no `write!` with a `Display`: what `write!` promises of a writer holds where it answers Ok, and no promise
// says when it does; so the clause `text` of each line here, that the line is whole, would not follow.
#![tactic(auto)]

ghost use Rattle.std.specs.Prelude.{◌≡◌, ◌+◌, ◌*◌, ◌≤◌, ◌++◌, length};
ghost use Rattle.meaning.specs.Bounds.{most_nodes};
ghost use Rattle.meaning.specs.Fraction.{◌÷◌};
ghost use Rattle.lines.specs.Lines.{line_room, side_word, refusal_line, place, places, shown_map, degree_line, yes_line, item_line, no_line, withdrawn_line};

use meaning;
use meaning::{Refusal, Side};

pub mod print;
pub mod text;

pub use print::print_rows;
pub use text::{Line, ROOM};

// The word for a side.
fn word_of(side: Side) -> &'static [u8]
    ensures word { result.now ≡ side_word side }
    ensures upper_bound { length result.now ≤ 11 }
{
    match side {
        Side::Register => b"register",
        Side::Requirement => b"requirement",
        Side::Call => b"call",
    }
}

// One line for a refusal.
#[tactic(auto, using(crate::proofs::Writing::decimal_most), unfolding(crate::specs::Lines::refusal_line))]
pub fn refusal_line(refusal: Refusal) -> Line
    ensures text { result ≡ refusal_line refusal }
    ensures upper_bound { length result ≤ line_room }
{
    let mut line = Line::new();
    line.push_word(word_of(refusal.side));
    line.push_word(b" refused ");
    line.push_number(refusal.number as u64);
    line.push_word(b" at ");
    line.push_number(refusal.place as u64);
    line.push(b'\n');
    line
}

// One place of a map.
#[tactic(auto, using(crate::proofs::Writing::decimal_short), unfolding(crate::specs::Lines::place))]
fn push_place(line: &mut Line, to: u16)
    requires { length line.old + 5 ≤ line_room }
    ensures text { line.new ≡ line.old ++ place to }
    ensures upper_bound { length line.new ≤ length line.old + 5 }
{
    match usize::from(to) {
        meaning::NOWHERE => line.push(b'-'),
        meaning::DROPPED => line.push(b'='),
        item => line.push_number(item as u64),
    }
}

// The places of a map from the second on, each after a comma.
#[tactic(auto, unfolding(crate::specs::Lines::places))]
fn push_places(line: &mut Line, map: &[u16])
    requires { length line.old + 6 * length map.now ≤ line_room }
    ensures text { line.new ≡ line.old ++ places map.now }
    ensures upper_bound { length line.new ≤ length line.old + 6 * length map.now }
{
    for to in map {
        line.push(b',');
        push_place(line, *to);
    }
}

// A map.
#[tactic(auto, unfolding(crate::specs::Lines::shown_map))]
fn push_map(line: &mut Line, map: &[u16])
    requires { length line.old + 6 * length map.now ≤ line_room }
    ensures text { line.new ≡ line.old ++ shown_map map.now }
    ensures upper_bound { length line.new ≤ length line.old + 6 * length map.now }
{
    if let [first, rest @ ..] = map {
        push_place(line, *first);
        push_places(line, rest);
    }
}

// The line of an item with its degree and map.
#[tactic(auto, using(crate::proofs::Writing::decimal_most), unfolding(crate::specs::Lines::degree_line))]
pub fn degree_line(item: usize, num: u64, den: u64, map: &[u16]) -> Line
    requires { length map.now ≤ most_nodes }
    ensures text { result ≡ degree_line item (num ÷ den) map.now }
    ensures upper_bound { length result ≤ line_room }
{
    let mut line = Line::new();
    line.push_number(item as u64);
    line.push(b' ');
    line.push_number(num);
    line.push(b'/');
    line.push_number(den);
    line.push(b' ');
    push_map(&mut line, map);
    line.push(b'\n');
    line
}

// The line of an item that meets the requirement, with its map.
#[tactic(auto, using(crate::proofs::Writing::decimal_most), unfolding(crate::specs::Lines::yes_line))]
pub fn yes_line(item: usize, map: &[u16]) -> Line
    requires { length map.now ≤ most_nodes }
    ensures text { result ≡ yes_line item map.now }
    ensures upper_bound { length result ≤ line_room }
{
    let mut line = Line::new();
    line.push_number(item as u64);
    line.push_word(b" yes ");
    push_map(&mut line, map);
    line.push(b'\n');
    line
}

// The line of an item with words that end it.
#[tactic(auto, using(crate::proofs::Writing::decimal_most), unfolding(crate::specs::Lines::item_line))]
fn item_line(item: usize, word: &[u8]) -> Line
    requires { length word.now ≤ 20 }
    ensures text { result ≡ item_line item word.now }
    ensures upper_bound { length result ≤ line_room }
{
    let mut line = Line::new();
    line.push_number(item as u64);
    line.push_word(word);
    line
}

// The line of an item that does not meet the requirement.
pub fn no_line(item: usize) -> Line
    ensures text { result ≡ no_line item }
    ensures upper_bound { length result ≤ line_room }
{
    item_line(item, b" no -\n")
}

// The line of an item that is withdrawn.
pub fn withdrawn_line(item: usize) -> Line
    ensures text { result ≡ withdrawn_line item }
    ensures upper_bound { length result ≤ line_room }
{
    item_line(item, b" withdrawn -\n")
}
