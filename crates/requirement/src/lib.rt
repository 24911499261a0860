// Reading a requirement message: its head, its tree, and nothing behind it.
#![tactic(auto)]

ghost use Rattle.std.specs.Prelude.{◌≡◌, ◌≤◌, length};
ghost use Rattle.meaning.specs.Message.{read_requirement};
ghost use Rattle.requirement.specs.Message.{on_requirement, MessageDone, paper_message, counted};

use fixed::Stretch;
use meaning::{Fault, Refusal, Rule, Side};
use readers::Reached;

// A message that was read: how many nodes are written, and how many thresholds.
#[derive(Clone, Copy, Debug, PartialEq, Eq)]
pub struct Message {
    pub nodes: usize,
    pub parts: usize,
}

// Reads a message, and keeps nothing of it.
pub fn read(s: &[u8]) -> Result<Message, Refusal>
    ensures { paper_message result ≡ counted (read_requirement s.now) }
{
    let mut rows = [0u64; rows::LEN];
    read_message(s, &mut rows)
}

// Reads a message into rows.
// Kept: a slice with its length asked for, since an array of 144 would ask more of who lends it.
pub fn read_message(s: &[u8], rows: &mut [u64]) -> Result<Message, Refusal>
    requires { 144 ≤ length rows.old }
    ensures { MessageDone s.now rows.new result }
{
    read_whole(s, rows).map_err(|fault| fault.on(Side::Requirement))
}

// The head, the tree, and nothing behind it.
fn read_whole(s: &[u8], rows: &mut [u64]) -> Result<Message, Fault>
    requires { 144 ≤ length rows.old }
    ensures { MessageDone s.now rows.new (on_requirement result) }
{
    let end = fields::read_head(s, false)?;
    let from = Reached {
        next: 3,
        nodes: 0,
        parts: 0,
    };
    let stretch = Stretch { bytes: s, end };
    let reached = readers::read_node(&stretch, from, meaning::MOST_LEVELS, false, 0, rows)?;
    if reached.next < end {
        return Err(Rule::LeftOver.at(reached.next));
    }
    Ok(Message {
        nodes: reached.nodes,
        parts: reached.parts,
    })
}
