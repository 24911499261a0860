// A session of trial edits on the register image that a lent buffer begins with: opening, and the core of edit, undo and keep, which touches no log.
// It is handed the log's length, the count of steps in use and, for an undo, the last step by value. Over it stand the same calls on a lent log, of
// any records of steps (record.rt); the crates `numbered` and `recorded` are the two that a log can have.
#![tactic(auto)]

pub mod record; // record.rt: what a log's records say of its steps

ghost use Rattle.std.specs.Prelude.{◌≡◌, ◌-◌, length, map, get_or};
ghost use Rattle.meaning.specs.Session.{out_of_range, role_above, no_step};
ghost use Rattle.session.specs.Calls.{an_edit, OpenPromise, EditPromise, UndoPromise, KeepPromise, LogPromise};

use meaning::{Fact, Refusal, Rule, Step};
use record::Record;
use register::layout;

// What the core answers to an edit: whether the fact was there before, and the count of steps in use.
#[derive(Clone, Copy, Debug, PartialEq, Eq)]
pub struct Edited {
    pub was: bool,
    pub count: usize,
}

// ---- the tests of a call

// 15 for a fact that is edited.
fn out_of_range(items: usize, fact: Fact) -> bool
    ensures { result ≡ out_of_range items fact }
{
    match fact {
        Fact::Name { item, name } => items <= item || meaning::MOST_NAME < name,
        Fact::Link { from, to, .. } => items <= from || items <= to,
    }
}

// 7 for a fact that is edited.
fn role_above(fact: Fact) -> bool
    ensures { result ≡ role_above fact }
{
    match fact {
        Fact::Name { .. } => false,
        Fact::Link { role, .. } => meaning::MOST_ROLE < role,
    }
}

// ---- the calls
// Kept: buffer, log and count are three arguments of each call: document 01 has them lent and handed over so, and an undo and a keep have the log lent
// for reading alone, which a struct for an edit, that writes it, would not.

// Opens the image that the buffer begins with: all behind it becomes zeros.
pub fn open(s: &mut [u8]) -> Result<usize, Refusal>
    ensures { OpenPromise s.old result s.new }
{
    let size = register::read(s, true)?;
    let end = layout::image_len(size.items, size.links);
    s[end..].fill(0);
    Ok(0)
}

// An edit of the image that the buffer begins with; the log has so many records, of which `count` are in use.
pub fn edit_in(
    s: &mut [u8],
    log: usize,
    count: usize,
    fact: Fact,
    adds: bool,
) -> Result<Edited, Refusal>
    ensures { EditPromise s.old log count (an_edit fact adds) result s.new }
{
    let size = register::read(s, true)?;
    let room = log.min(meaning::MOST_STEPS);
    if room < count {
        return Err(Rule::StepsBeyondLog.of_call());
    }
    if out_of_range(size.items, fact) {
        return Err(Rule::OutOfRange.of_call());
    }
    if role_above(fact) {
        return Err(Rule::RoleAbove.of_call());
    }
    if count == room {
        return Err(Rule::LogFull.of_call());
    }
    let set = setting::set_fact(s, size, fact, adds);
    let was = set.ok_or(Rule::NoPlaceForLink.of_call())?;
    Ok(Edited {
        was,
        count: count + 1,
    })
}

// An undo of the last step in use.
pub fn undo_in(s: &mut [u8], log: usize, count: usize, last: Step) -> Result<usize, Refusal>
    ensures { UndoPromise s.old log count last result s.new }
{
    let size = register::read(s, true)?;
    if log.min(meaning::MOST_STEPS) < count {
        return Err(Rule::StepsBeyondLog.of_call());
    }
    if count == 0 {
        return Err(Rule::NothingToUndo.of_call());
    }
    if out_of_range(size.items, last.fact) || role_above(last.fact) {
        return Err(Rule::StepsBeyondLog.of_call());
    }
    let set = setting::set_fact(s, size, last.fact, last.was);
    set.ok_or(Rule::NoPlaceForLink.of_call())?;
    Ok(count - 1)
}

// Keeps all edits: none can be taken back any more.
pub fn keep_in(s: &[u8], log: usize, count: usize) -> Result<usize, Refusal>
    ensures { KeepPromise s.now log count result }
{
    register::read(s, true)?;
    if log.min(meaning::MOST_STEPS) < count {
        Err(Rule::StepsBeyondLog.of_call())
    } else {
        Ok(0)
    }
}

// ---- the calls on a log

// An edit, which writes one record where it is accepted.
pub fn edit<R: Record>(
    s: &mut [u8],
    log: &mut [R],
    count: usize,
    fact: Fact,
    adds: bool,
) -> Result<usize, Refusal>
    ensures { LogPromise s.old R.of log.old count (an_edit fact adds) result s.new log.new }
{
    let edited = edit_in(s, log.len(), count, fact, adds)?;
    log[count] = R::of(fact, edited.was);
    Ok(edited.count)
}

// The step that an undo is handed: that of the last record in use. Where there is none, nothing looks at it.
fn last_step<R: Record>(log: &[R], count: usize) -> Step
    ensures { result ≡ get_or (map R.step log.now) (count - 1) no_step }
{
    match log.get(count.saturating_sub(1)) {
        Some(record) => record.step(),
        None => Step {
            fact: Fact::Name { item: 0, name: 0 },
            was: false,
        },
    }
}

// An undo of the last record in use.
pub fn undo<R: Record>(s: &mut [u8], log: &[R], count: usize) -> Result<usize, Refusal>
    ensures { UndoPromise s.old (length log.now) count (get_or (map R.step log.now) (count - 1) no_step) result s.new }
{
    undo_in(s, log.len(), count, last_step(log, count))
}

pub fn keep<R: Record>(s: &[u8], log: &[R], count: usize) -> Result<usize, Refusal>
    ensures { KeepPromise s.now (length log.now) count result }
{
    keep_in(s, log.len(), count)
}
