// A session run as a program: a history of calls on an image in a buffer of 50 bytes, with a log of four numbers. After each call it prints the
// answer, then the whole buffer and the log in hex.
#![tactic(auto)]

ghost use Rattle.std.specs.Prelude.{◌≡◌, ◌≤◌, length};
ghost use Rattle.meaning.specs.Session.{play, count_after};
ghost use Rattle.session.specs.Calls.{paper_count};
ghost use Rattle.numbered.specs.Played.{lent, steps, Called};
ghost use Rattle.history.specs.Histories.{call_in, calls_of};

use meaning::{Fact, Refusal};
use std::io::Read;

// A write that fails is passed over: the history runs on. So a number is written apart from the blank before it: where there is room for one byte alone, the blank
// comes through.
fn print_buffer(rt: &impl Print, s: &[u8]) {
    for b in s {
        let _done = print!(rt; "{b:02x}");
    }
    let _done = println!(rt);
}

fn print_log(rt: &impl Print, log: &[u64]) {
    let _done = print!(rt; "log");
    for step in log {
        let _done = print!(rt; " ");
        let _done = print!(rt; "{step:011x}");
    }
    let _done = println!(rt);
}

// Prints an answer. The count for the next call is the one that was handed back, and after a refusal that of this call.
fn print_answer(rt: &impl Print, answer: Result<usize, Refusal>, count: usize) -> usize
    ensures { result ≡ count_after count (paper_count answer) }
{
    match answer {
        Ok(handed) => {
            let _done = println!(rt; "count {handed}");
            handed
        }
        Err(refusal) => {
            let _done = println!(rt; "refused {}", refusal.number);
            count
        }
    }
}

// One call, in four bytes, its kind, a, b and c: o opens, n adds a name and N takes one away (item a, name b), l adds a link and L takes one away
// (from a, role b, to c), u undoes, any other keeps.
fn call(s: &mut [u8], log: &mut [u64], count: usize, bytes: [u8; 4]) -> Result<usize, Refusal>
    ensures { Called (lent s.old log.old count) (call_in bytes) result (lent s.new log.new (count_after count (paper_count result))) }
{
    let [kind, a, b, c] = bytes;
    let name = Fact::Name {
        item: a.into(),
        name: b.into(),
    };
    let link = Fact::Link {
        from: a.into(),
        role: b.into(),
        to: c.into(),
    };
    match kind {
        b'o' => session::open(s),
        b'n' => numbered::edit(s, log, count, name, true),
        b'N' => numbered::edit(s, log, count, name, false),
        b'l' => numbered::edit(s, log, count, link, true),
        b'L' => numbered::edit(s, log, count, link, false),
        b'u' => numbered::undo(s, log, count),
        _ => numbered::keep(s, log, count),
    }
}

// Runs a history, four bytes for each call; bytes at its end that make no call are passed over. What is lent afterwards is what the history makes of it.
fn run(rt: &impl Print, history: &[u8], s: &mut [u8], log: &mut [u64]) -> usize
    ensures { steps (lent s.new log.new result) ≡ play (steps (lent s.old log.old 0)) (calls_of history.now) }
{
    let mut count = 0;
    let (calls, _) = history.as_chunks();
    for bytes in calls {
        let answer = call(s, log, count, *bytes);
        count = print_answer(rt, answer, count);
        print_buffer(rt, s);
        print_log(rt, log);
    }
    count
}

// Reads until the buffer is full, the input ends or a read fails, and says how many bytes stand at its front.
fn read_full<R: Read>(input: &mut R, buffer: &mut [u8]) -> usize
    ensures { result ≤ length buffer.new }
{
    let mut count = 0;
    while let Ok(more @ 1..) = input.read(&mut buffer[count..]) {
        count += more;
    }
    count
}

// The image comes first on standard input, with the bytes behind it, 50 in all; the rest is the history.
fn main(rt: HostRuntime) {
    let mut buffer = [0u8; 50];
    let mut history = [0u8; 128];
    let mut log = [0u64; 4];
    let mut input = rt.stdin();
    read_full(&mut input, &mut buffer);
    let n = read_full(&mut input, &mut history);
    run(&rt, &history[..n], &mut buffer, &mut log);
}
