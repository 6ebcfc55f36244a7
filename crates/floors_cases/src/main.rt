// Recorded inputs of `floors`, good and damaged, with what they must give (data/NN.in and NN.out,
// named in data/names): each is run through the library's function, and what differs is told.
#![tactic(auto)]

use records::rooms::room;
use records::tally::Tally;
use records::words::read_full;
use std::fmt::InlineText;
use std::rt::Files;
use std::{fs, io};

// What a file has, read into buf; none where there is no such file.
fn read_file<'a>(rt: &impl Files, path: &str, buf: &'a mut [u8]) -> io::Result<Option<&'a [u8]>> {
    let Ok(mut file) = fs::open(rt, path) else {
        return Ok(None);
    };
    let count = read_full(&mut file, buf)?;
    Ok(Some(&buf[..count]))
}

// The name of a case's file.
fn name(number: usize, end: &str) -> InlineText<6> {
    InlineText::of(format_args!("{number:02}.{end}"))
}

// Whether two texts are the same, or the first place at which they are not, past the end of the shorter one too.
fn same(a: &[u8], b: &[u8]) -> Result<(), usize> {
    if a == b {
        return Ok(());
    }
    let place = a.iter().zip(b).position(|(x, y)| x != y);
    Err(place.unwrap_or(a.len().min(b.len())))
}

// The same of a text of so many bytes, of which `text` has those that there was room for, and the recorded one.
fn judge(text: &[u8], count: usize, recorded: &[u8]) -> Result<(), usize> {
    if count > text.len() {
        return Err(text.len());
    }
    same(&text[..count], recorded)
}

// How a case ended; none where one of its files is missing.
fn run(
    rt: &impl Files,
    number: usize,
    input: &mut [u8],
    text: &mut [u8],
    recorded: &mut [u8],
) -> io::Result<Option<Result<(), usize>>> {
    let Some(given) = read_file(rt, name(number, "in").as_str(), input)? else {
        return Ok(None);
    };
    let Some(due) = read_file(rt, name(number, "out").as_str(), recorded)? else {
        return Ok(None);
    };
    let count = floors_text::floors(given, text);
    Ok(Some(judge(text, count, due)))
}

// All cases; one that differs is told.
fn run_all(
    rt: &(impl Files + Print),
    input: &mut [u8],
    text: &mut [u8],
    recorded: &mut [u8],
) -> io::Result<Tally> {
    let mut tally = Tally::new();
    for number in 1..100 {
        let Some(ended) = run(rt, number, input, text, recorded)? else {
            continue;
        };
        if let Err(place) = ended {
            println!(rt; "case={number} byte={place}")?;
        }
        tally.count(ended.is_ok());
    }
    Ok(tally)
}

fn main(rt: HostRuntime) -> io::Result<()> {
    // One byte more than the most input, and than the longest text, so that what is too long shows.
    let mut input = room::<u8, 60001>(0);
    let mut text = room::<u8, 160001>(0);
    let mut recorded = room::<u8, 160001>(0);
    let tally = run_all(&rt, &mut input, &mut text, &mut recorded)?;
    println!(rt; "cases={} differ={}", tally.count, tally.differ)
}
