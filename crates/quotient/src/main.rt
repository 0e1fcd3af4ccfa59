// quotient: reads the listing of a controller and a map of its states to classes on standard input,
// and prints the folded frame as a listing, or the number of a refusal and its line.
#![tactic(auto)]

use frames::Draft;
use std::io;
use std::io::{Read, Write};
use systems::{Entry, LampAt, Modality, Move, Setting};
use tables::MOST_ENTRIES;

fn main(rt: HostRuntime) -> io::Result<()> {
    let mut text = Vec::new(rt.alloc());
    rt.stdin().read_to_end(&mut text)?;
    let no_move = Entry {
        at: Move {
            from: 0,
            action: 0,
            to: 0,
        },
        value: Modality::May,
    };
    let no_light = Entry {
        at: LampAt { state: 0, lamp: 0 },
        value: Setting::Off,
    };
    let mut moves = vec![in rt.alloc(); no_move; MOST_ENTRIES]?;
    let mut lights = vec![in rt.alloc(); no_light; MOST_ENTRIES]?;
    let mut draft = Draft::new();
    match quotients::quotient(text.as_slice(), &mut moves, &mut lights, &mut draft) {
        Ok(()) => rt
            .stdout()
            .write_all(output::listing(rt.alloc(), &draft)?.as_slice()),
        Err(rejection) => println!(rt; "{rejection}"),
    }
}
