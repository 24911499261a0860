// A requirement that must be plain: read into rows and marked by the drop rule, with 11 and 14; and a register, then such a requirement.
#![tactic(auto)]

ghost use Rattle.std.specs.Prelude.{◌≡◌};
ghost use Rattle.plain.specs.Reading.{PlainDone, BothDone};

use meaning::{Refusal, Rule, Side};
use register::Size;
use rows::{Parts, Reduced, Tree};

// A plain requirement: how many nodes are written, and its tree with the marks of the drop rule.
#[derive(Drop)]
pub struct Plain {
    pub nodes: usize,
    pub reduced: Reduced,
}

// A register and a plain requirement.
#[derive(Drop)]
pub struct Both {
    pub size: Size,
    pub plain: Plain,
}

// Reads the register, and then the requirement.
pub fn read_both(image: &[u8], message: &[u8]) -> Result<Both, Refusal>
    ensures { BothDone image.now message.now result }
{
    let size = register::read(image, false)?;
    let plain = read_plain(message)?;
    Ok(Both { size, plain })
}

// Reads a requirement that must be plain, and marks it by the drop rule.
pub fn read_plain(message: &[u8]) -> Result<Plain, Refusal>
    ensures { PlainDone message.now result }
{
    let mut packed = [0u64; rows::LEN];
    let read = requirement::read_message(message, &mut packed)?;
    if 0 < read.parts {
        let first = usize::from(Parts::of(&packed, read.parts).firsts[0]);
        return Err(Rule::NotPlain.at(first).on(Side::Requirement));
    }
    let tree = Tree::of(&packed);
    let mut marks = [0u8; 64];
    reduction::reduce(&tree, &mut marks);
    if meaning::MOST_SIZE < reduction::size(&tree, &marks, 0, meaning::MOST_LEVELS) {
        return Err(Rule::TooLarge.at(3).on(Side::Requirement));
    }
    Ok(Plain {
        nodes: read.nodes,
        reduced: Reduced { tree, marks },
    })
}
