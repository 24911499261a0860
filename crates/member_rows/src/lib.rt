// The rows of yes and no. Register and requirement are read once, and each node and each threshold is judged once for all items; the rows are then
// printed off the table of what was found. `listing::plan` has read both before: a refusal here cannot be, and nothing would be printed for it.
#![tactic(auto)]

ghost use Rattle.std.specs.Prelude.{◌≡◌, false, List, ◌≤◌, length, OnOk};
ghost use Rattle.std.specs.Io.KnownBytes.{Appends};
ghost use Rattle.meaning.specs.Refusal.{good};
ghost use Rattle.meaning.specs.Register.{Register, read_register};
ghost use Rattle.meaning.specs.Requirement.{Requirement};
ghost use Rattle.meaning.specs.Message.{Part, read_requirement};
ghost use Rattle.lines.specs.Entries.{row_of};
ghost use Rattle.lines.specs.Printed.{texts};

use graph::Indexed;
use graph::sets::Items;
use register::{Reading, Size};
use requirement::Message;
use rows::{Parts, Tree};
use screening::Wanted;
use std::io;
use std::io::Write;

// Prints the rows of the first so many items, up to the first that cannot be written. A row is planned for items alone.
pub fn print<W: Write>(output: &mut W, image: &[u8], message: &[u8], count: usize) -> io::Result<()>
    ensures { (g : Register) (q : Requirement) (ps : List Part) → read_register image.now ≡ good g → read_requirement message.now ≡ good (q, ps)
        → count ≤ length g.names
        → OnOk result (Appends (W.contents output.old) (W.contents output.new) (texts (row_of false image.now message.now) count)) }
{
    let Ok(Size { items, links }) = register::read(image, false) else {
        return Ok(());
    };
    let mut packed = [0u64; rows::LEN];
    let Ok(Message { nodes: _, parts }) = requirement::read_message(message, &mut packed) else {
        return Ok(());
    };
    if items < count {
        return Ok(());
    }
    let on = Indexed::new(&Reading {
        bytes: image,
        items,
        links,
    });
    let wanted = Wanted {
        message,
        tree: Tree::of(&packed),
        parts: Parts::of(&packed, parts),
    };
    let mut met = [Items::none(); 64];
    verdicts::judge(&on, &wanted, &mut met);
    lines::print_rows(
        output,
        count,
        |item| verdicts::row(&on, &wanted.tree, &met, item),
    )
}
