// A session whose log is a lent slice of numbers, one for each step (session's record.rt says which).
// Kept: three functions beside those of `recorded`, each of one line over session's generic one: what they promise has a name of its own in
// docs/PROMISES.md (`Called`, of numbers) and theorems that go by it.
#![tactic(auto)]

ghost use Rattle.meaning.specs.Session.{edits, undoes, keeps, count_after};
ghost use Rattle.session.specs.Calls.{paper_count, an_edit};
ghost use Rattle.numbered.specs.Played.{lent, Called};

use meaning::{Fact, Refusal};

pub fn edit(
    s: &mut [u8],
    log: &mut [u64],
    count: usize,
    fact: Fact,
    adds: bool,
) -> Result<usize, Refusal>
    ensures { Called (lent s.old log.old count) (edits (an_edit fact adds)) result (lent s.new log.new (count_after count (paper_count result))) }
{
    session::edit(s, log, count, fact, adds)
}

pub fn undo(s: &mut [u8], log: &[u64], count: usize) -> Result<usize, Refusal>
    ensures { Called (lent s.old log.now count) undoes result (lent s.new log.now (count_after count (paper_count result))) }
{
    session::undo(s, log, count)
}

pub fn keep(s: &[u8], log: &[u64], count: usize) -> Result<usize, Refusal>
    ensures { Called (lent s.now log.now count) keeps result (lent s.now log.now (count_after count (paper_count result))) }
{
    session::keep(s, log, count)
}
