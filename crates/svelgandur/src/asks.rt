// The degree and the margin from C.
ghost use Rattle.svelgandur.specs.Promises.{DegreePromise, MarginPromise};

use answers;

// The degree of an item in a plain requirement, in lowest terms, and its map.
// Good: 1, numerator, denominator, places written. Refused: 0, side, number, place; the map is then untouched.
pub fn svelgandur_degree(
    image: &[u8],
    message: &[u8],
    item: u64,
    map: &mut [u16],
    answer: &mut [u64; 4],
)
    ensures { DegreePromise image.now message.now item map.old map.new answer.new }
{
    answers::of(
        answer,
        asking::degree_of(image, message, item as usize, map),
    );
}

// The margin of an item's degree in a plain requirement against p/q.
// Good: 1, magnitude of the margin, what it is over, 1 where it is below zero and else 0. Refused: 0, side, number, place.
pub fn svelgandur_margin(
    image: &[u8],
    message: &[u8],
    item: u64,
    p: u64,
    q: u64,
    answer: &mut [u64; 4],
)
    ensures { MarginPromise image.now message.now item p q answer.new }
{
    let r = asking::margin_of(image, message, item as usize, p as usize, q as usize);
    answers::of(answer, r);
}
