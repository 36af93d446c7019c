// The fragmentation map in lent columns: a drop, a batch of drops, the stored form. Count and columns are five parameters, as C lends them.
ghost use Rattle.std.specs.Prelude.{◌≡◌};
ghost use Rattle.garbage.specs.Drops.{dropped_of};
ghost use Rattle.garbage.specs.Maps.{map_at};
ghost use Rattle.garbage.specs.Refusals.{store_number, load_number};
ghost use Rattle.garbage.specs.Stored.{store_answer, store_bytes, load_of};
ghost use Rattle.boundary.specs.Maps.{dropped_number, batched_of};
ghost use Rattle.boundary.specs.Pointers.{pointer_of};
ghost use Rattle.boundary.specs.Rows.{counted};

use super::count::counted;
use super::pointers::{pointer, pointers_in, rows_in};
use garbage::batch::drop_all;
use garbage::dropped::drop_into;
use garbage::map::{CountRefusal, FragmentationMap};
use garbage::stored::store_columns;

// The map that lent columns are.
fn map_at(
    count: usize,
    ids: &[u64; 64],
    frames: &[u32; 64],
    stated: &[u64; 64],
    disk: &[u64; 64],
) -> FragmentationMap
    ensures { result ≡ map_at count ids.now frames.now stated.now disk.now }
{
    FragmentationMap {
        count,
        ids: *ids,
        frames: *frames,
        stated: *stated,
        disk: *disk,
    }
}

// A map laid down in lent columns. Taken apart first: of `*ids = m.ids` the check says that it does not cover an array stored straight from a field.
fn put_map(
    m: FragmentationMap,
    count: &mut usize,
    ids: &mut [u64; 64],
    frames: &mut [u32; 64],
    stated: &mut [u64; 64],
    disk: &mut [u64; 64],
)
    ensures { map_at count.new ids.new frames.new stated.new disk.new ≡ m }
{
    let FragmentationMap {
        count: count_now,
        ids: ids_now,
        frames: frames_now,
        stated: stated_now,
        disk: disk_now,
    } = m;
    *count = count_now;
    *ids = ids_now;
    *frames = frames_now;
    *stated = stated_now;
    *disk = disk_now;
}

// 0, or document 01's number.
fn dropped_number(answer: Result<(), CountRefusal>) -> u64
    ensures { result ≡ dropped_number answer }
{
    match answer {
        Ok(()) => 0,
        Err(why) => why.number(),
    }
}

#[unsafe(no_mangle)]
pub extern "C" fn pd_drop(
    count: &mut usize,
    ids: &mut [u64; 64],
    frames: &mut [u32; 64],
    stated: &mut [u64; 64],
    disk: &mut [u64; 64],
    file: u64,
    size: u32,
    length: u32,
) -> u64
    ensures number { result ≡ dropped_number (dropped_of (map_at count.old ids.old frames.old stated.old disk.old) (pointer_of file size length)).answer }
    ensures map { map_at count.new ids.new frames.new stated.new disk.new
        ≡ (dropped_of (map_at count.old ids.old frames.old stated.old disk.old) (pointer_of file size length)).map }
{
    dropped_number(drop_into(
        count,
        ids,
        frames,
        stated,
        disk,
        pointer(file, size, length),
    ))
}

// A batch of up to 1,024 pointers, three numbers each. Rows that are none are refused, and the map stays.
#[unsafe(no_mangle)]
pub extern "C" fn pd_batch(
    count: &mut usize,
    ids: &mut [u64; 64],
    frames: &mut [u32; 64],
    stated: &mut [u64; 64],
    disk: &mut [u64; 64],
    rows: &[u64],
) -> u64
    ensures number { result ≡ (batched_of (map_at count.old ids.old frames.old stated.old disk.old) rows.now).number }
    ensures map { map_at count.new ids.new frames.new stated.new disk.new
        ≡ (batched_of (map_at count.old ids.old frames.old stated.old disk.old) rows.now).map }
{
    let rows = match rows_in(rows) {
        Ok(rows) => rows,
        Err(why) => return why.number(),
    };
    let mut list = [pointer(0, 0, 0); 1024];
    match pointers_in(&mut list, rows) {
        Ok(pointers) => {
            let m = map_at(*count, ids, frames, stated, disk);
            let dropped = drop_all(m, pointers);
            put_map(dropped.map, count, ids, frames, stated, disk);
            dropped_number(dropped.answer)
        }
        Err(why) => why.number(),
    }
}

// The bytes used; refused, document 01's number below zero.
#[unsafe(no_mangle)]
pub extern "C" fn pd_store<'a>(
    count: usize,
    ids: &'a [u64; 64],
    frames: &'a [u32; 64],
    stated: &'a [u64; 64],
    disk: &'a [u64; 64],
    buf: &mut [u8],
) -> u64
    ensures number { result ≡ counted store_number (store_answer (map_at count ids.now frames.now stated.now disk.now) buf.old) }
    ensures bytes { buf.new ≡ store_bytes (map_at count ids.now frames.now stated.now disk.now) buf.old }
{
    let used = store_columns(count, ids, frames, stated, disk, buf);
    counted(used.map_err(|why| why.number()))
}

// The bytes used; refused, document 01's number below zero.
#[unsafe(no_mangle)]
pub extern "C" fn pd_load(
    s: &[u8],
    count: &mut usize,
    ids: &mut [u64; 64],
    frames: &mut [u32; 64],
    stated: &mut [u64; 64],
    disk: &mut [u64; 64],
) -> u64
    ensures number { result ≡ counted load_number (load_of s.now).answer }
    ensures map { map_at count.new ids.new frames.new stated.new disk.new ≡ (load_of s.now).map }
{
    let loaded = FragmentationMap::load(s);
    put_map(loaded.map, count, ids, frames, stated, disk);
    counted(loaded.answer.map_err(|why| why.number()))
}
