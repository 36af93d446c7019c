// Append, scan step and point read. Writers, entries and answers stay rows and numbers here, as C is handed them.
ghost use Rattle.std.specs.Prelude.{◌≡◌, length};
ghost use Rattle.frames.specs.Point.{read_of};
ghost use Rattle.frames.specs.Shape.{plain_of, blob_form};
ghost use Rattle.frames.specs.Scan.{going, step_of};
ghost use Rattle.frames.specs.Write.{append_answer, append_bytes};
ghost use Rattle.boundary.specs.Rows.{handle_of, place_row, writer_of, writer_row, appended_row, appended_number, step_row, step_number};

use frames::place::Place;
use frames::reader::look;
use frames::scanner::{Scanned, Scanner};
use frames::writer::Writer;
use numbers::handle::ValueHandle;

fn writer_of(row: [u64; 11]) -> Writer
    ensures { result ≡ writer_of row }
{
    let [
        id,
        offset,
        items,
        disk,
        stated,
        target,
        finished,
        first_at,
        first_len,
        last_at,
        last_len,
    ] = row;
    Writer {
        id,
        offset: offset as usize,
        items,
        disk,
        stated,
        target,
        finished: finished == 1,
        first: Place {
            at: first_at as usize,
            len: first_len as usize,
        },
        last: Place {
            at: last_at as usize,
            len: last_len as usize,
        },
    }
}

fn row_of(w: Writer) -> [u64; 11]
    ensures { result ≡ writer_row w }
{
    [
        w.id,
        w.offset as u64,
        w.items,
        w.disk,
        w.stated,
        w.target,
        w.finished as u64,
        w.first.at as u64,
        w.first.len as u64,
        w.last.at as u64,
        w.last.len as u64,
    ]
}

// The writer is a row: id, offset, items, on-disk bytes, stated bytes, target, whether finished, the first key's place, the last key's. Refused, it
// stays. 0 for a frame that is put, 100 where it was the file's last, else document 01's number.
#[unsafe(no_mangle)]
pub extern "C" fn pd_append(
    row: &mut [u64; 11],
    buf: &mut [u8],
    key: &[u8],
    seqno: u64,
    value: &[u8],
) -> u64
    ensures number { result ≡ appended_number (append_answer blob_form (writer_of row.old) buf.old (plain_of key.now seqno value.now)) }
    ensures row { row.new ≡ appended_row row.old (append_answer blob_form (writer_of row.old) buf.old (plain_of key.now seqno value.now)) }
    ensures bytes { buf.new ≡ append_bytes blob_form (writer_of row.old) buf.old (plain_of key.now seqno value.now) }
{
    match writer_of(*row).append(buf, key, seqno, value) {
        Ok(appended) => {
            *row = row_of(appended.writer);
            if appended.report.is_some() { 100 } else { 0 }
        }
        Err(refused) => refused.why.number(),
    }
}

// The row of an entry: offset, the key's place, seqno, stated length, the value's place, where the next step begins. The last is told of every
// answer, so that a scan goes on after 8 and 9. 0 for an entry, 100 for the end, else document 01's number.
#[unsafe(no_mangle)]
pub extern "C" fn pd_step(file: &[u8], at: usize, out: &mut [u64; 8]) -> u64
    ensures number { result ≡ step_number (step_of file.now (going at)) }
    ensures row { out.new ≡ step_row out.old (step_of file.now (going at)) }
{
    match (Scanner { at, ended: false }).step(file) {
        Scanned::Entry(e, next) => {
            *out = [
                e.offset as u64,
                e.key.at as u64,
                e.key.len as u64,
                e.seqno,
                e.stated as u64,
                e.value.at as u64,
                e.value.len as u64,
                next.at as u64,
            ];
            0
        }
        Scanned::End { next, .. } => {
            out[7] = next.at as u64;
            100
        }
        Scanned::Refused(why, next) => {
            out[7] = next.at as u64;
            why.number()
        }
    }
}

#[unsafe(no_mangle)]
pub extern "C" fn pd_read(
    file: &[u8],
    key: &[u8],
    offset: u64,
    size: u32,
    out: &mut [u64; 2],
) -> u64
    ensures number { result ≡ (read_of file.now key.now (handle_of offset size)).number }
    ensures place { out.new ≡ place_row (read_of file.now key.now (handle_of offset size)).value }
{
    let handle = ValueHandle {
        offset,
        file: 0,
        size,
    };
    let told = look(file, key, handle);
    *out = [told.value.at as u64, told.value.len as u64];
    told.number
}
