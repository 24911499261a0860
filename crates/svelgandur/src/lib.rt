// Each call of the libraries as it is made from C: the crate `svelgandur_c` exports these, and include/svelgandur.h declares them. A call answers in
// four numbers that the caller lends: the kind of the answer, then three numbers that go with the kind (crate `answers`). Everything handed in is
// bytes or numbers, so no bit pattern that a caller hands in is undefined.
#![tactic(auto)]

use answers::Tells;

pub mod asks;
pub mod trial;
pub mod whole_list;
pub mod writes;
pub mod yes_no;

ghost use Rattle.svelgandur.specs.Promises.{RegisterPromise, RequirementPromise, InnerPromise};

// Reads a register image: of a whole input where `session` is 0, and otherwise of what a session's buffer begins with.
// Good: 1, items, links, 0. Refused: 0, side, number, place.
pub fn svelgandur_read_register(image: &[u8], session: u64, answer: &mut [u64; 4])
    ensures { RegisterPromise image.now session answer.new }
{
    answers::of(answer, register::read(image, session != 0));
}

// Reads a requirement message.
// Good: 1, written nodes, thresholds, 0. Refused: 0, side, number, place.
pub fn svelgandur_read_requirement(message: &[u8], answer: &mut [u64; 4])
    ensures { RequirementPromise message.now answer.new }
{
    answers::of(answer, requirement::read(message));
}

// Where the bytes of the k-th inner concept stand in the message.
// Found: 1, place of its first byte, length, 0. Refused, message bad or no k-th: 0, 0, 0, 0; this call alone gives no number.
pub fn svelgandur_inner_part(message: &[u8], k: u64, answer: &mut [u64; 4])
    ensures { InnerPromise message.now k answer.new }
{
    *answer = parts::find_inner(message, k as usize).numbers();
}
