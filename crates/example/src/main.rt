// README's example: two images go into a blob file, the file is scanned, and one image is read back by its handle. The stored output is
// by document 01's rules: a frame is 38 bytes, key and value, so the second one begins at 38 + 6 + 19.
#![tactic(auto)]

use frames::reader::{look, value};
use frames::scanner::{Scanned, Scanner};
use frames::writer::Writer;
use numbers::bytes::part;
use std::io;

// Every step but the last moves on, so a scan is over within as many steps as the file has bytes.
fn list(rt: &impl Print, file: &[u8]) -> io::Result<()> {
    let mut scanner = Scanner::new();
    for _ in 0..file.len() {
        let Scanned::Entry(e, next) = scanner.step(file) else {
            break;
        };
        print!(rt; "frame at byte {}, key ", e.offset)?;
        rt.write_all(part(file, e.key.at, e.key.len))?;
        println!(rt)?;
        scanner = next;
    }
    Ok(())
}

// A refusal ends the program.
fn main(rt: HostRuntime) -> io::Result<()> {
    let mut file = [0; 256];
    let Ok(engine) = Writer::new(1).append(&mut file, b"engine", 7, b"image of the engine") else {
        return Ok(());
    };
    let w = engine.writer;
    let Ok(brakes) = w.append(&mut file, b"brakes", 9, b"image of the brakes") else {
        return Ok(());
    };
    let Ok(_) = brakes.writer.finish(&mut file) else {
        return Ok(());
    };
    list(&rt, &file)?;
    let told = look(&file, b"engine", engine.pointer.handle);
    print!(rt; "engine, by its handle: ")?;
    rt.write_all(value(&file, told))?;
    println!(rt)
}
