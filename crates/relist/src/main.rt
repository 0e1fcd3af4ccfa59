// relist: reads the listing of a frame on standard input and prints the same frame in its normal
// order, or the number of a refusal and its line.
#![tactic(auto)]

use frames::Draft;
use std::io;
use std::io::{Read, Write};

fn main(rt: HostRuntime) -> io::Result<()> {
    let mut text = Vec::new(rt.alloc());
    rt.stdin().read_to_end(&mut text)?;
    let mut draft = Draft::new();
    match listings::read(&mut draft, text.as_slice()) {
        Ok(()) => rt
            .stdout()
            .write_all(output::listing(rt.alloc(), &draft)?.as_slice()),
        Err(rejection) => println!(rt; "{rejection}"),
    }
}
