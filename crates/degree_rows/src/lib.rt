// The rows of degrees. Register and requirement are read once, and all items are worked out at once; the rows are then printed off what was found.
// `listing::plan` has read both before: a refusal here cannot be, and nothing would be printed for it.
#![tactic(auto)]

ghost use Rattle.std.specs.Prelude.{◌≡◌, true, ◌≤◌, length, OnOk};
ghost use Rattle.std.specs.Io.KnownBytes.{Appends};
ghost use Rattle.meaning.specs.Refusal.{good};
ghost use Rattle.meaning.specs.Tree.{Concept};
ghost use Rattle.meaning.specs.Register.{Register, read_register};
ghost use Rattle.meaning.specs.Calls.{read_plain};
ghost use Rattle.lines.specs.Entries.{row_of};
ghost use Rattle.lines.specs.Printed.{texts};

use graph::Indexed;
use plain::Both;
use register::{Reading, Size};
use std::io;
use std::io::Write;

// Prints the rows of the first so many items, up to the first that cannot be written. A row is planned for items alone.
pub fn print<W: Write>(output: &mut W, image: &[u8], message: &[u8], rows: usize) -> io::Result<()>
    ensures { (g : Register) (t : Concept) → read_register image.now ≡ good g → read_plain message.now ≡ good t → rows ≤ length g.names
        → OnOk result (Appends (W.contents output.old) (W.contents output.new) (texts (row_of true image.now message.now) rows)) }
{
    let Ok(Both { size, plain }) = plain::read_both(image, message) else {
        return Ok(());
    };
    let Size { items, links } = size;
    if items < rows {
        return Ok(());
    }
    let read = Reading {
        bytes: image,
        items,
        links,
    };
    let on = Indexed::new(&read);
    let of = plain.reduced;
    let mut notes = [0; meaning::MOST_LINKS];
    let ratings = ratings::rate(&on, &of, &mut notes);
    lines::print_rows(
        output,
        rows,
        |item| ratings::row(&on, &of, &notes, &ratings, item),
    )
}
