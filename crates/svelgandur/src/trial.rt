// A session of trial edits: open, edit, undo and keep on a lent buffer, with a lent log of numbers, one for each step.
// Each call answers 1, the count of steps in use, 0, 0; or, refused, 0, side, number, place. A refused call changes neither buffer nor log.
ghost use Rattle.meaning.specs.declared.Fact.{Fact};
ghost use Rattle.answers.specs.Numbers.{is_adding};
ghost use Rattle.svelgandur.specs.Promises.{OpenPromise, EditPromise, UndoPromise, KeepPromise};

use answers;
use meaning::Fact;

// Opens the image that the buffer begins with: all behind it becomes zeros. The count is 0.
pub fn svelgandur_open(buffer: &mut [u8], answer: &mut [u64; 4])
    ensures { OpenPromise buffer.old buffer.new answer.new }
{
    answers::of(answer, session::open(buffer));
}

// Adds a name to an item, or takes it away where `adds` is 0.
pub fn svelgandur_edit_name(
    buffer: &mut [u8],
    log: &mut [u64],
    count: u64,
    adds: u64,
    item: u64,
    name: u64,
    answer: &mut [u64; 4],
)
    ensures { EditPromise buffer.old log.old count (Fact.Name item name) (is_adding adds)
        buffer.new log.new answer.new }
{
    let named = Fact::Name {
        item: item as usize,
        name: name as usize,
    };
    answers::of(
        answer,
        numbered::edit(buffer, log, count as usize, named, adds != 0),
    );
}

// Adds a link, or takes it away where `adds` is 0.
pub fn svelgandur_edit_link(
    buffer: &mut [u8],
    log: &mut [u64],
    count: u64,
    adds: u64,
    from: u64,
    role: u64,
    to: u64,
    answer: &mut [u64; 4],
)
    ensures { EditPromise buffer.old log.old count (Fact.Link from role to) (is_adding adds)
        buffer.new log.new answer.new }
{
    let linked = Fact::Link {
        from: from as usize,
        role: role as usize,
        to: to as usize,
    };
    answers::of(
        answer,
        numbered::edit(buffer, log, count as usize, linked, adds != 0),
    );
}

// Takes the last step in use back.
pub fn svelgandur_undo(buffer: &mut [u8], log: &[u64], count: u64, answer: &mut [u64; 4])
    ensures { UndoPromise buffer.old log.now count buffer.new answer.new }
{
    answers::of(answer, numbered::undo(buffer, log, count as usize));
}

// Keeps all edits: none can be taken back any more. The count is 0.
pub fn svelgandur_keep(buffer: &[u8], log: &[u64], count: u64, answer: &mut [u64; 4])
    ensures { KeepPromise buffer.now log.now count answer.new }
{
    answers::of(answer, numbered::keep(buffer, log, count as usize));
}
