// The steps of G that store a map, load it, prune it and tell it whole.
use crate::input::{Input, Malformed};
use crate::output::{Output, done, used, whole};
use crate::stop::Stop;
use garbage::map::{FragmentationMap, MapFull};
use garbage::stored::{LoadRefusal, StoreRefusal};

pub fn stored(input: &mut Input, out: &mut Output, map: FragmentationMap) -> Result<(), Stop> {
    let n = input.bounded(4096)?;
    let mut bytes = [0xEE; 4096];
    let room = &mut bytes[..n];
    used(out, map.store(room).map_err(StoreRefusal::number))?;
    whole(out, room)?;
    Ok(())
}

// The map that was read; refused, the one that was there.
pub fn loaded(input: &mut Input, out: &mut Output, map: &mut FragmentationMap) -> Result<(), Stop> {
    let bytes = input.bytes()?;
    let loaded = FragmentationMap::load(bytes);
    if loaded.answer.is_ok() {
        *map = loaded.map;
    }
    used(out, loaded.answer.map_err(LoadRefusal::number))?;
    Ok(())
}

pub fn pruned(input: &mut Input, out: &mut Output, map: &mut FragmentationMap) -> Result<(), Stop> {
    let n = input.bounded(256)?;
    let mut list = [0; 256];
    let ids = &mut list[..n];
    for id in ids.iter_mut() {
        *id = input.number()?;
    }
    let pruned = map.prune(ids);
    *map = pruned.map;
    done(out, pruned.answer.map_err(MapFull::number))?;
    Ok(())
}

// A map in any state: entries past the sixty-fourth are read over. By slot, as a map has four columns and no iterator that fills them.
fn state(input: &mut Input) -> Result<FragmentationMap, Malformed> {
    let mut map = FragmentationMap::new();
    map.count = input.number()? as usize;
    for i in 0..map.count {
        let id = input.number()?;
        let frames = input.short()?;
        let stated = input.number()?;
        let disk = input.number()?;
        if i < 64 {
            map.ids[i] = id;
            map.frames[i] = frames;
            map.stated[i] = stated;
            map.disk[i] = disk;
        }
    }
    Ok(map)
}

pub fn told(input: &mut Input, map: &mut FragmentationMap) -> Result<(), Stop> {
    *map = state(input)?;
    Ok(())
}
