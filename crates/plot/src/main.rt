//! The program `plot`: reads a book from its standard input, and prints the answer to each of its lines.
#![tactic(auto)]

ghost use Rattle.std.specs.Prelude.{◌≤◌, length, IfOk};

use book::first_line;
use grade::points::Points;
use plan::Place;
use session::Session;
use std::io;
use std::io::Read;

// How much of the input is read, in bytes; what comes after that is no part of the book.
const LONGEST: usize = 65_536;

fn main(rt: HostRuntime) -> io::Result<()> {
    // An array and no `Vec`: the program allocates nothing.
    let mut buffer = [0; LONGEST];
    let filled = read_input(&rt, &mut buffer)?;
    let mut places = [Place::vacant(Points { value: 0 }); 256];
    let mut session = Session::new(&mut places);
    run(&rt, &mut session, &buffer[0..filled])
}

// Fills a buffer from the standard input until one of them ends, and says how much of it is filled.
fn read_input(rt: &HostRuntime, buffer: &mut [u8]) -> io::Result<usize>
    ensures { IfOk result (λ n. n ≤ length buffer.old) }
{
    let mut filled = 0;
    while filled < buffer.len() {
        let count = rt.stdin().read(&mut buffer[filled..])?;
        if count == 0 {
            break;
        }
        filled += count;
    }
    Ok(filled)
}

// Prints the answer to each line of a book, in the order of the lines.
fn run(rt: &HostRuntime, session: &mut Session, book: &[u8]) -> io::Result<()> {
    let mut rest = book;
    while let Some((line, after)) = first_line(rest) {
        let reply = session.answer(line);
        println!(rt; "{reply}")?;
        rest = after;
    }
    Ok(())
}
