// The steps of G that count drops: one record, and a batch of pointers.
use crate::input::Input;
use crate::output::{Output, agreed, done};
use crate::pointers::pointer;
use crate::stop::Stop;
use garbage::batch::drop_all;
use garbage::dropped::Dropped;
use garbage::map::{CountRefusal, FragmentationMap};
use garbage::record::RecordRefusal;
use numbers::handle::{BlobIndirection, ValueHandle};

pub fn dropped(
    input: &mut Input,
    out: &mut Output,
    map: &mut FragmentationMap,
) -> Result<(), Stop> {
    let marked = input.flag()?;
    let record = input.bytes()?;
    let dropped = map.drop_record(marked, record);
    *map = dropped.map;
    done(out, dropped.answer.map_err(RecordRefusal::number))?;
    Ok(())
}

// The pointers dropped one by one: all of them, or the map as it came in. A map's own refusal comes before the first.
fn one_by_one(map: FragmentationMap, pointers: &[BlobIndirection]) -> Dropped {
    if map.get(0).is_err() {
        return Dropped {
            answer: Err(CountRefusal::MapFull),
            map,
        };
    }
    let mut now = map;
    for pointer in pointers {
        let dropped = now.drop(*pointer);
        if dropped.answer.is_err() {
            return Dropped { map, ..dropped };
        }
        now = dropped.map;
    }
    Dropped {
        answer: Ok(()),
        map: now,
    }
}

pub fn batch(input: &mut Input, out: &mut Output, map: &mut FragmentationMap) -> Result<(), Stop> {
    let n = input.bounded(256)?;
    // All zeros by hand: a pointer to no frame is no default of the type's.
    let nowhere = BlobIndirection {
        handle: ValueHandle {
            offset: 0,
            file: 0,
            size: 0,
        },
        stated: 0,
    };
    let mut list = [nowhere; 256];
    let pointers = &mut list[..n];
    for place in pointers.iter_mut() {
        *place = pointer(input)?;
    }
    let whole = drop_all(*map, pointers);
    done(out, whole.answer.map_err(CountRefusal::number))?;
    agreed(out, whole == one_by_one(*map, pointers))?;
    *map = whole.map;
    Ok(())
}
