// The listing program: reads one register and then one requirement from standard input, and prints a line for each item.
// All that is printed is worked out by `listing::plan`, `ratings::row` and `verdicts::row`, whose promises name every byte; what stands here, and in
// `degree_rows` and `member_rows`, is reading and writing.
// Where either fails, one line on standard error says so, and the program ends with status 0 all the same.
#![tactic(auto)]

mod standard;

ghost use Rattle.std.specs.Prelude.{◌≤◌, ◌<◌, length, IfOk};
ghost use Rattle.std.specs.Io.KnownBytes.{IsAtEnd};
ghost use Rattle.listing.specs.Listing.{most_input};

use listing::Rest;
use standard::Broken;
use std::io;
use std::io::{Read, Write};

// Reads the input into a buffer that has room for one byte more than is taken: so an input that is too long shows.
fn read_all<R: Read>(input: &mut R, buffer: &mut [u8]) -> Result<usize, Broken>
    requires { most_input < length buffer.old }
    ensures count { IfOk result (λ n. n ≤ length buffer.new) }
    ensures all { IfOk result (λ n. n ≤ most_input → IsAtEnd (R.remaining input.new)) }
{
    standard::read_input(input, buffer)
}

// Prints the listing of an input.
fn print<W: Write>(output: &mut W, input: &[u8]) -> io::Result<()> {
    let plan = listing::plan(input);
    output.write_all(plan.first.text())?;
    match plan.rest {
        Rest::Nothing => Ok(()),
        Rest::Degrees(sheet) => {
            degree_rows::print(output, sheet.image, sheet.message, sheet.items)
        }
        Rest::Members(sheet) => {
            member_rows::print(output, sheet.image, sheet.message, sheet.items)
        }
    }
}

// The system's words for what went wrong, without its number.
fn reason(words: &str) -> &str {
    match words.split_once(" (os error ") {
        Some((reason, _)) => reason,
        None => words,
    }
}

// Says in one line what could not be read or written, and why.
fn say(rt: &HostRuntime, what: &str, error: io::Error) -> io::Result<()> {
    let words = format!(in rt.alloc(); "{error}")?;
    let reason = reason(words.as_str());
    eprintln!(rt; "list: {what}: {reason}")
}

fn main(rt: HostRuntime) {
    let mut buffer = [0u8; 65537];
    let mut input = rt.stdin();
    let count = match read_all(&mut input, &mut buffer) {
        Ok(count) => count,
        Err(broken) => {
            let _said = say(&rt, "standard input", broken.error);
            return;
        }
    };
    let mut output = rt.stdout();
    if let Err(error) = print(&mut output, &buffer[..count]) {
        let _said = say(&rt, "standard output", error);
    }
}
