// The yes/no call: it reads the image and the message, indexes the image's links, and settles.
#![tactic(auto)]

ghost use Rattle.std.specs.Prelude.{◌≡◌, ◌≤◌, ◌<◌, length, get_or};
ghost use Rattle.deciding.specs.Refusing.{DecidePromise};

use graph::Indexed;
use meaning::{Refusal, Rule};
use register::{Reading, Size};
use requirement::Message;
use rows::{Parts, Tree};
use screening::Wanted;

// Whether an item meets a requirement: how many places of the map are written, none where it does not, or the refusal. A yes writes the map: one place
// for each written node. A no and a refusal write nothing.
pub fn decide(
    image: &[u8],
    message: &[u8],
    item: usize,
    map: &mut [u16],
) -> Result<Option<usize>, Refusal>
    ensures { DecidePromise image.now message.now item map.old map.new result }
{
    let Size { items, links } = register::read(image, false)?;
    let mut packed = [0u64; rows::LEN];
    let Message { nodes, parts } = requirement::read_message(message, &mut packed)?;
    // Kept: no `map_err(Rule::of_call)?`: the proof that its error is the refusal of the rule that was told did not close.
    if let Err(rule) = graph::refusal_of(image, items, item) {
        return Err(rule.of_call());
    }
    if map.len() < nodes {
        return Err(Rule::MapTooShort.of_call());
    }
    let on = Indexed::new(&Reading {
        bytes: image,
        items,
        links,
    });
    let wanted = Wanted {
        message,
        tree: Tree::of(&packed),
        parts: Parts::of(&packed, parts),
    };
    let meets = meeting::settle(&on, &wanted, item, map);
    Ok(meets.then_some(nodes))
}
