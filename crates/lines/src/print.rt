// The rows of a listing, printed one after the other.
ghost use Rattle.std.specs.Prelude.{◌≡◌, List, ℕ, ◌<◌, OnOk};
ghost use Rattle.std.specs.Io.KnownBytes.{Appends};
ghost use Rattle.lines.specs.Printed.{texts};

use super::Line;
use std::io;
use std::io::Write;

// Prints the rows of the first so many items, up to the first that cannot be written.
pub fn print_rows<W: Write, F: Fn(usize) -> Line>(
    output: &mut W,
    rows: usize,
    row: F,
) -> io::Result<()>
    requires { (i : ℕ) → i < rows → F.pre row i }
    ensures { (text : ℕ → List ℕ) → ((i : ℕ) (l : List ℕ) → i < rows → F.post row i l → l ≡ text i)
        → OnOk result (Appends (W.contents output.old) (W.contents output.new) (texts text rows)) }
{
    for i in 0..rows {
        output.write_all(row(i).text())?;
    }
    Ok(())
}
