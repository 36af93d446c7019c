// The steps of G that judge: the sum of a map's bytes, dead, and stale.
use crate::floats::{Pattern, of_bits};
use crate::input::{Input, Malformed};
use crate::output::Output;
use crate::stop::Stop;
use frames::place::Place;
use frames::writer::Report;
use garbage::map::FragmentationMap;
use garbage::verdict::{DeadVerdict, StaleVerdict, is_dead, is_stale};
use std::io::Write;

pub fn sum(out: &mut Output, map: FragmentationMap) -> Result<(), Stop> {
    match map.stale_bytes() {
        Ok(total) => writeln!(out, "sum {total}")?,
        Err(why) => writeln!(out, "refused {}", why.number())?,
    }
    Ok(())
}

// A file's totals. Nothing is judged by the places of its keys.
fn report(input: &mut Input) -> Result<Report, Malformed> {
    let nowhere = Place { at: 0, len: 0 };
    Ok(Report {
        items: input.number()?,
        disk: input.number()?,
        stated: input.number()?,
        first: nowhere,
        last: nowhere,
    })
}

pub fn dead(input: &mut Input, out: &mut Output, map: FragmentationMap) -> Result<(), Stop> {
    let id = input.number()?;
    let report = report(input)?;
    let verdict = is_dead(map, id, report);
    match verdict {
        DeadVerdict::Dead => writeln!(out, "dead")?,
        DeadVerdict::Wanted => writeln!(out, "wanted")?,
        DeadVerdict::NoEntry => writeln!(out, "none")?,
        DeadVerdict::Refused => writeln!(out, "refused {}", verdict.number())?,
    }
    Ok(())
}

pub fn stale(input: &mut Input, out: &mut Output, map: FragmentationMap) -> Result<(), Stop> {
    let id = input.number()?;
    let report = report(input)?;
    let threshold = of_bits(input.short()?);
    let verdict = is_stale(map, id, report, threshold);
    match verdict {
        StaleVerdict::Stale(ratio) => writeln!(out, "stale {}", Pattern(ratio))?,
        StaleVerdict::Kept(ratio) => writeln!(out, "kept {}", Pattern(ratio))?,
        StaleVerdict::NoEntry => writeln!(out, "none")?,
        StaleVerdict::Refused => writeln!(out, "refused {}", verdict.number())?,
    }
    Ok(())
}
