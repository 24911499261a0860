// The C boundary itself: each call of the library `svelgandur` under its own name as a C function, declared in include/svelgandur.h. What each promises
// is what the library promises, clause for clause.
#![tactic(auto)]

ghost use Rattle.meaning.specs.declared.Fact.{Fact};
ghost use Rattle.answers.specs.Numbers.{is_adding};
ghost use Rattle.svelgandur.specs.Promises.{RegisterPromise, RequirementPromise, InnerPromise, WritePromise};
ghost use Rattle.svelgandur.specs.Promises.{DegreePromise, MarginPromise, MemberPromise, ListPromise};
ghost use Rattle.svelgandur.specs.Promises.{OpenPromise, EditPromise, UndoPromise, KeepPromise};

use svelgandur::{asks, trial, whole_list, writes, yes_no};

// Reads a register image: of a whole input where `session` is 0, and otherwise of what a session's buffer begins with.
// Good: 1, items, links, 0. Refused: 0, side, number, place.
#[unsafe(no_mangle)]
pub extern "C" fn svelgandur_read_register(image: &[u8], session: u64, answer: &mut [u64; 4])
    ensures { RegisterPromise image.now session answer.new }
{
    svelgandur::svelgandur_read_register(image, session, answer)
}

// Reads a requirement message.
// Good: 1, written nodes, thresholds, 0. Refused: 0, side, number, place.
#[unsafe(no_mangle)]
pub extern "C" fn svelgandur_read_requirement(message: &[u8], answer: &mut [u64; 4])
    ensures { RequirementPromise message.now answer.new }
{
    svelgandur::svelgandur_read_requirement(message, answer)
}

// Where the bytes of the k-th inner concept stand in the message.
// Found: 1, place of its first byte, length, 0. Refused, message bad or no k-th: 0, 0, 0, 0; this call alone gives no number.
#[unsafe(no_mangle)]
pub extern "C" fn svelgandur_inner_part(message: &[u8], k: u64, answer: &mut [u64; 4])
    ensures { InnerPromise message.now k answer.new }
{
    svelgandur::svelgandur_inner_part(message, k, answer)
}

// Writes the message of a requirement that is handed over as lists.
// Good: 1, bytes written, 0, 0. Refused: 0, side, number, place.
#[unsafe(no_mangle)]
pub extern "C" fn svelgandur_write_requirement(
    nodes: &[u64],
    thresholds: &[u64],
    inner: &[u64],
    message: &mut [u8],
    answer: &mut [u64; 4],
)
    ensures { WritePromise nodes.now thresholds.now inner.now message.old message.new answer.new }
{
    writes::svelgandur_write_requirement(nodes, thresholds, inner, message, answer)
}

// The degree of an item in a plain requirement, in lowest terms, and its map.
// Good: 1, numerator, denominator, places written. Refused: 0, side, number, place; the map is then untouched.
#[unsafe(no_mangle)]
pub extern "C" fn svelgandur_degree(
    image: &[u8],
    message: &[u8],
    item: u64,
    map: &mut [u16],
    answer: &mut [u64; 4],
)
    ensures { DegreePromise image.now message.now item map.old map.new answer.new }
{
    asks::svelgandur_degree(image, message, item, map, answer)
}

// The margin of an item's degree in a plain requirement against p/q.
// Good: 1, magnitude of the margin, what it is over, 1 where it is below zero and else 0. Refused: 0, side, number, place.
#[unsafe(no_mangle)]
pub extern "C" fn svelgandur_margin(
    image: &[u8],
    message: &[u8],
    item: u64,
    p: u64,
    q: u64,
    answer: &mut [u64; 4],
)
    ensures { MarginPromise image.now message.now item p q answer.new }
{
    asks::svelgandur_margin(image, message, item, p, q, answer)
}

// Whether an item meets a requirement; a yes writes the map.
// Yes: 1, places written, 0, 0. No: 2, 0, 0, 0. Refused: 0, side, number, place.
#[unsafe(no_mangle)]
pub extern "C" fn svelgandur_member(
    image: &[u8],
    message: &[u8],
    item: u64,
    map: &mut [u16],
    answer: &mut [u64; 4],
)
    ensures { MemberPromise image.now message.now item map.old map.new answer.new }
{
    yes_no::svelgandur_member(image, message, item, map, answer)
}

// The number of each written node of a plain requirement at each item.
// Good: 1, items, written nodes, the scale of the root. Refused: 0, side, number, place; the table is then untouched.
#[unsafe(no_mangle)]
pub extern "C" fn svelgandur_list(
    image: &[u8],
    message: &[u8],
    table: &mut [u32],
    answer: &mut [u64; 4],
)
    ensures { ListPromise image.now message.now table.old table.new answer.new }
{
    whole_list::svelgandur_list(image, message, table, answer)
}

// Opens the image that the buffer begins with: all behind it becomes zeros. The count is 0.
#[unsafe(no_mangle)]
pub extern "C" fn svelgandur_open(buffer: &mut [u8], answer: &mut [u64; 4])
    ensures { OpenPromise buffer.old buffer.new answer.new }
{
    trial::svelgandur_open(buffer, answer)
}

// Adds a name to an item, or takes it away where `adds` is 0.
#[unsafe(no_mangle)]
pub extern "C" fn svelgandur_edit_name(
    buffer: &mut [u8],
    log: &mut [u64],
    count: u64,
    adds: u64,
    item: u64,
    name: u64,
    answer: &mut [u64; 4],
)
    ensures { EditPromise buffer.old log.old count (Fact.Name item name) (is_adding adds)
        buffer.new log.new answer.new }
{
    trial::svelgandur_edit_name(buffer, log, count, adds, item, name, answer)
}

// Adds a link, or takes it away where `adds` is 0.
#[unsafe(no_mangle)]
pub extern "C" fn svelgandur_edit_link(
    buffer: &mut [u8],
    log: &mut [u64],
    count: u64,
    adds: u64,
    from: u64,
    role: u64,
    to: u64,
    answer: &mut [u64; 4],
)
    ensures { EditPromise buffer.old log.old count (Fact.Link from role to) (is_adding adds)
        buffer.new log.new answer.new }
{
    trial::svelgandur_edit_link(buffer, log, count, adds, from, role, to, answer)
}

// Takes the last step in use back.
#[unsafe(no_mangle)]
pub extern "C" fn svelgandur_undo(buffer: &mut [u8], log: &[u64], count: u64, answer: &mut [u64; 4])
    ensures { UndoPromise buffer.old log.now count buffer.new answer.new }
{
    trial::svelgandur_undo(buffer, log, count, answer)
}

// Keeps all edits: none can be taken back any more. The count is 0.
#[unsafe(no_mangle)]
pub extern "C" fn svelgandur_keep(buffer: &[u8], log: &[u64], count: u64, answer: &mut [u64; 4])
    ensures { KeepPromise buffer.now log.now count answer.new }
{
    trial::svelgandur_keep(buffer, log, count, answer)
}
