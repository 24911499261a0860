// The list call: register and requirement are read, what is refused is tested in the document's order, and the table is filled.
#![tactic(auto)]

ghost use Rattle.tabling.specs.Answers.{ListPromise};

use meaning::{Refusal, Rule};
use register::Reading;

// How many items and written nodes there are, and the scale of the first row.
#[derive(Clone, Copy, Debug, PartialEq, Eq)]
pub struct Listed {
    pub items: usize,
    pub nodes: usize,
    pub scale: u32,
}

// The number of each written node of a plain requirement at each item, node by node, over the node's own scale.
pub fn list_of(image: &[u8], message: &[u8], table: &mut [u32]) -> Result<Listed, Refusal>
    ensures { ListPromise image.now message.now table.old table.new result }
{
    let both = plain::read_both(image, message)?;
    let items = both.size.items;
    let nodes = both.plain.nodes;
    if table.len() < nodes * items {
        return Err(Rule::MapTooShort.of_call());
    }
    let read = Reading {
        bytes: image,
        items,
        links: both.size.links,
    };
    let scale = tables::whole(&read, &both.plain.reduced, table);
    Ok(Listed {
        items,
        nodes,
        scale,
    })
}
