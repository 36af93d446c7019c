// The letter G: steps over eight maps.
use crate::input::Input;
use crate::output::{Output, done};
use crate::stop::Stop;
use crate::{counts, judges, stores};
use garbage::map::{CountRefusal, FragmentationMap};

// A step of one map, by its kind. The kinds are the format's (docs/CALLS.md), and their calls take different things.
fn one(
    input: &mut Input,
    out: &mut Output,
    kind: u64,
    map: &mut FragmentationMap,
) -> Result<(), Stop> {
    match kind {
        0 => counts::dropped(input, out, map),
        1 => counts::batch(input, out, map),
        3 => stores::stored(input, out, *map),
        4 => stores::loaded(input, out, map),
        5 => stores::pruned(input, out, map),
        6 => judges::sum(out, *map),
        7 => judges::dead(input, out, *map),
        8 => judges::stale(input, out, *map),
        9 => stores::told(input, map),
        _ => Err(Stop::Malformed),
    }
}

fn step(input: &mut Input, out: &mut Output, maps: &mut [FragmentationMap; 8]) -> Result<(), Stop> {
    let kind = input.number()?;
    let i = input.bounded(7)?;
    if kind != 2 {
        return one(input, out, kind, &mut maps[i]);
    }
    let j = input.bounded(7)?;
    if i == j {
        return Err(Stop::Malformed);
    }
    let merged = maps[i].merge_into(maps[j]);
    maps[i] = merged.source;
    maps[j] = merged.target;
    done(out, merged.answer.map_err(CountRefusal::number))?;
    Ok(())
}

pub fn stepped(input: &mut Input, out: &mut Output) -> Result<(), Stop> {
    let mut maps = [FragmentationMap::new(); 8];
    let count = input.number()?;
    for _ in 0..count {
        step(input, out, &mut maps)?;
    }
    Ok(())
}
