// The records of a batch, by their letters. Input and output are two parameters: more than half of the functions take one of them alone.
use crate::input::Input;
use crate::output::Output;
use crate::stop::Stop;
use crate::{drains, files, groups, hashes, maps, merges, pointers, points, scans};

// A match and no table: the letters are the format's (docs/CALLS.md), and each stands beside its call.
fn answer(letter: u8, input: &mut Input, out: &mut Output) -> Result<(), Stop> {
    match letter {
        b'H' => hashes::joined(input, out),
        b'h' => hashes::one(input, out),
        b'W' => files::written(input, out),
        b'S' => scans::file(input, out),
        b'P' => points::pointed(input, out),
        b'M' => merges::merged(input, out),
        b'D' => drains::asked(input, out),
        b'V' => groups::written(input, out),
        b'v' => groups::read(input, out),
        b'I' => pointers::written(input, out),
        b'i' => pointers::read(input, out),
        b'G' => maps::stepped(input, out),
        _ => Err(Stop::Malformed),
    }
}

// Each record to the batch's end. None is shorter than its letter.
pub fn all(batch: &[u8], out: &mut Output) -> Result<(), Stop> {
    let mut input = Input::new(batch);
    for _ in batch {
        let Some(letter) = input.letter() else { break };
        answer(letter, &mut input, out)?;
    }
    Ok(())
}
