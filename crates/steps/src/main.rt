// A session on a log of step records: what each call hands back, then the buffer and the records.
// It opens the document's register R1 with seven bytes behind it, adds a name, adds a link that stands and undoes that (the link stands), takes a link
// away and undoes that, keeps, takes a name away, undoes that, and asks for one undo too many.
#![tactic(auto)]

use meaning::{Fact, Refusal, Step};
use recorded::held;
use std::io;

// Kept: word after word, and no `Display`, which is one write a line: the program ends at the first write that fails, and as much comes out before as ever did.
fn show(rt: &impl Print, step: Step) -> io::Result<()> {
    let Step { fact, was } = step;
    match fact {
        Fact::Name { item, name } => {
            print!(rt; "name")?;
            print!(rt; " {item}")?;
            print!(rt; " {name}")?;
        }
        Fact::Link { from, role, to } => {
            print!(rt; "link")?;
            print!(rt; " {from}")?;
            print!(rt; " {role}")?;
            print!(rt; " {to}")?;
        }
    }
    println!(rt; "{}", if was { " was there" } else { " was not there" })
}

fn show_bytes(rt: &impl Print, s: &[u8]) -> io::Result<()> {
    for b in s {
        print!(rt; "{b:02x}")?;
    }
    println!(rt)
}

// Prints what a call hands back, and gives the count to hand over next.
fn told(
    rt: &impl Print,
    name: &str,
    answer: Result<usize, Refusal>,
    count: usize,
) -> io::Result<usize> {
    print!(rt; "{name}")?;
    match answer {
        Ok(next) => {
            print!(rt; " {next}")?;
            println!(rt)?;
            Ok(next)
        }
        Err(refusal) => {
            print!(rt; " refused")?;
            print!(rt; " {}", refusal.number)?;
            println!(rt)?;
            Ok(count)
        }
    }
}

// The log, and the count of steps in use.
#[derive(Drop)]
struct Steps {
    log: [Step; 64],
    count: usize,
}

impl Steps {
    fn open(rt: &impl Print, s: &mut [u8]) -> io::Result<Steps> {
        let none = Step {
            fact: Fact::Name { item: 0, name: 0 },
            was: false,
        };
        let count = told(rt, "open", session::open(s), 0)?;
        Ok(Steps {
            log: [none; 64],
            count,
        })
    }

    fn edit(&mut self, rt: &impl Print, s: &mut [u8], fact: Fact, adds: bool) -> io::Result<()> {
        let done = held::edit(s, self.log, self.count, fact, adds);
        let log = done.log;
        self.log = log;
        self.count = told(rt, "edit", done.answer, self.count)?;
        Ok(())
    }

    fn undo(&mut self, rt: &impl Print, s: &mut [u8]) -> io::Result<()> {
        let answer = held::undo(s, self.log, self.count);
        self.count = told(rt, "undo", answer, self.count)?;
        Ok(())
    }

    fn keep(&mut self, rt: &impl Print, s: &[u8]) -> io::Result<()> {
        let answer = held::keep(s, self.log, self.count);
        self.count = told(rt, "keep", answer, self.count)?;
        Ok(())
    }
}

fn link(from: usize, role: usize, to: usize) -> Fact {
    Fact::Link { from, role, to }
}

fn main(rt: HostRuntime) -> io::Result<()> {
    let mut s = [
        1, 0, 38, 0, 3, 0, 0, 0, 0, 0, 0, 0, 10, 0, 0, 0, 0, 0, 0, 0, 2, 0, 0, 0, 0, 0, 0, 0, 4, 0,
        2, 0, 0, 0, 0, 1, 0, 0, 1, 0, 2, 9, 9, 9, 9, 9, 9, 9u8,
    ];
    let mut steps = Steps::open(&rt, &mut s)?;
    steps.edit(&rt, &mut s, Fact::Name { item: 0, name: 5 }, true)?;
    steps.edit(&rt, &mut s, link(0, 0, 1), true)?;
    steps.undo(&rt, &mut s)?;
    steps.edit(&rt, &mut s, link(0, 1, 2), false)?;
    show_bytes(&rt, &s)?;
    steps.undo(&rt, &mut s)?;
    steps.keep(&rt, &s)?;
    steps.edit(&rt, &mut s, Fact::Name { item: 0, name: 3 }, false)?;
    show_bytes(&rt, &s)?;
    for step in &steps.log[..3] {
        show(&rt, *step)?;
    }
    steps.undo(&rt, &mut s)?;
    steps.undo(&rt, &mut s)?;
    show_bytes(&rt, &s)
}
