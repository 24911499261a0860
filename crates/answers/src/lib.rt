// The four numbers of an answer: the kind, then three numbers that go with the kind (specs/Numbers.antt). What each call hands back, as these numbers.
#![tactic(auto)]

ghost use Rattle.std.specs.Prelude.{◌≡◌, List, ℕ};
ghost use Rattle.meaning.specs.Rules.{paper};
ghost use Rattle.answers.specs.Numbers.{side_number, refusal_numbers, numbers, counts, sizes, place_numbers, in_use};
ghost use Rattle.answers.specs.Numbers.{verdict_numbers, answered_numbers, listed_numbers, signed_numbers};

use asking::{Answered, Margin};
use meaning::{Refusal, Side};
use parts::Place;
use register::Size;
use requirement::Message;
use tabling::Listed;

// What tells itself in four numbers, of which the first is its kind.
pub trait Tells {
    ghost told: { Self → List ℕ };

    fn numbers(self) -> [u64; 4]
        ensures { result ≡ told self };
}

// Writes what a call hands back: what is good as it tells itself, or its refusal.
pub fn of<T: Tells>(answer: &mut [u64; 4], r: Result<T, Refusal>)
    ensures { answer.new ≡ numbers T.told (paper r) }
{
    *answer = match r {
        Ok(good) => good.numbers(),
        Err(refusal) => refusal.numbers(),
    };
}

// The number of a side: 0 the register, 1 the requirement, 2 the call.
fn side_number(side: Side) -> u64
    ensures { result ≡ side_number side }
{
    side as u64
}

// A refusal: 0, side, number, place.
impl Tells for Refusal {
    ghost told = { refusal_numbers };

    fn numbers(self) -> [u64; 4] {
        let side = side_number(self.side);
        [0, side, self.number as u64, self.place as u64]
    }
}

// A register that was read: 1, items, links, 0.
impl Tells for Size {
    ghost told = { counts };

    fn numbers(self) -> [u64; 4] {
        [1, self.items as u64, self.links as u64, 0]
    }
}

// A requirement that was read: 1, written nodes, thresholds, 0.
impl Tells for Message {
    ghost told = { sizes };

    fn numbers(self) -> [u64; 4] {
        [1, self.nodes as u64, self.parts as u64, 0]
    }
}

// Where an inner concept stands: 1, place, length, 0; nowhere is 0, 0, 0, 0.
impl Tells for Option<Place> {
    ghost told = { place_numbers };

    fn numbers(self) -> [u64; 4] {
        match self {
            Some(place) => [1, place.start as u64, place.len as u64, 0],
            None => [0, 0, 0, 0],
        }
    }
}

// A degree: 1, numerator, denominator, places written.
impl Tells for Answered {
    ghost told = { answered_numbers };

    fn numbers(self) -> [u64; 4] {
        [1, self.num, self.den, self.nodes as u64]
    }
}

// A margin: 1, its magnitude, what it is over, 1 where it is below zero and else 0.
impl Tells for Margin {
    ghost told = { signed_numbers };

    fn numbers(self) -> [u64; 4] {
        let sign = u64::from(self.margin < 0);
        [1, self.margin.unsigned_abs(), self.over, sign]
    }
}

// A list: 1, items, written nodes, the scale of the root.
impl Tells for Listed {
    ghost told = { listed_numbers };

    fn numbers(self) -> [u64; 4] {
        [1, self.items as u64, self.nodes as u64, self.scale as u64]
    }
}

// A yes or no: yes is 1, places written, 0, 0; no is 2, 0, 0, 0.
impl Tells for Option<usize> {
    ghost told = { verdict_numbers };

    fn numbers(self) -> [u64; 4] {
        match self {
            Some(nodes) => [1, nodes as u64, 0, 0],
            None => [2, 0, 0, 0],
        }
    }
}

// A session's call: 1, the count of steps in use, 0, 0. A message that was written: 1, its length, 0, 0.
impl Tells for usize {
    ghost told = { in_use };

    fn numbers(self) -> [u64; 4] {
        [1, self as u64, 0, 0]
    }
}
