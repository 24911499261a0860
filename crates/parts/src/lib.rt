// The inner concepts of a message's thresholds: where the k-th stands, its bytes as that part of the message, and one of them read again into rows.
#![tactic(auto)]

ghost use Rattle.std.specs.Prelude.{◌≡◌, ◌+◌, ◌≤◌, length, IfSome};
ghost use Rattle.meaning.specs.Message.{read_requirement, inner_part};
ghost use Rattle.rows.specs.Packed.{names_in, roles_in, ends_in};
ghost use Rattle.readers.specs.Reading.{Here};
ghost use Rattle.parts.specs.Inner.{inner_place, ConceptDone};

use fixed::Stretch;
use readers::Reached;
use rows::Parts;

// Where an inner concept stands in a message: its first byte and its length.
#[derive(Clone, Copy, Debug, PartialEq, Eq)]
pub struct Place {
    pub start: usize,
    pub len: usize,
}

// Where the k-th inner concept of a message stands; none where the message is refused or has no k-th.
pub fn find_inner(s: &[u8], k: usize) -> Option<Place>
    ensures value { result ≡ inner_place k (read_requirement s.now) }
    ensures len_in_bounds { IfSome result (λ p. (p.start + p.len) ≤ length s.now) }
{
    let mut rows = [0u64; rows::LEN];
    let Ok(message) = requirement::read_message(s, &mut rows) else {
        return None;
    };
    if message.parts <= k {
        return None;
    }
    let first = usize::from(Parts::of(&rows, message.parts).firsts[k]);
    Some(Place {
        start: first + 7,
        len: fields::two(s, first + 5),
    })
}

// The bytes of the k-th inner concept, as that part of the message itself.
pub fn inner_part(s: &[u8], k: usize) -> &[u8]
    ensures { result.now ≡ inner_part s.now k }
{
    match find_inner(s, k) {
        Some(place) => &s[place.start..place.start + place.len],
        None => &s[..0],
    }
}

// Reads again the inner concept that fills the bytes from `at` up to `stop` of a message that was read, into rows.
pub fn read_concept(s: &[u8], at: usize, stop: usize, rows: &mut [u64])
    requires here { Here s.now stop at }
    requires in_bounds { 144 ≤ length rows.old }
    ensures { ConceptDone s.now stop at (names_in rows.new) (roles_in rows.new) (ends_in rows.new) }
{
    let from = Reached {
        next: at,
        nodes: 0,
        parts: 0,
    };
    let stretch = Stretch {
        bytes: s,
        end: stop,
    };
    let _ = readers::read_node(&stretch, from, meaning::MOST_LEVELS, true, 0, rows);
}
