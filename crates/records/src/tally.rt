ghost use Rattle.std.specs.Prelude.{◌≡◌, ◌+◌, ◌%◌, ◌^◌, if◌then◌else◌};

use crate::words;
use std::fs::File;
use std::io;
use std::rt::Files;

// How many answers were held to the recorded ones, how many of them differ, and which differed first.
#[derive(Clone, Copy)]
pub struct Tally {
    pub count: u64,
    pub differ: u64,
    pub first: Option<u64>,
}

impl Tally {
    pub fn new() -> Self {
        Tally {
            count: 0,
            differ: 0,
            first: None,
        }
    }

    // One more answer, which was, or was not, the recorded one.
    pub fn count(&mut self, same: bool)
        ensures counted { self.new.count ≡ (self.old.count + 1) % 2 ^ 64 }
        ensures differing { self.new.differ
            ≡ (if same then self.old.differ else ((self.old.differ + 1) % 2 ^ 64)) }
    {
        if !same {
            self.first = self.first.or(Some(self.count));
            self.differ = self.differ.wrapping_add(1);
        }
        self.count = self.count.wrapping_add(1);
    }
}

// A replayed file: the tally, and how many bytes stood after its last whole record.
#[derive(Clone, Copy)]
pub struct Replayed {
    pub tally: Tally,
    pub rest: usize,
}

impl Replayed {
    // A line for the layer; a second one where something differs; a third where the file ends inside
    // a record.
    pub fn print(self, rt: &impl Print, layer: &str) -> io::Result<()> {
        let tally = self.tally;
        println!(rt;
            "{layer}: {} recorded, {} differ",
            tally.count, tally.differ
        )?;
        if let Some(first) = tally.first {
            println!(rt; "first difference: record {first}, counted from 0")?;
        }
        if self.rest != 0 {
            println!(rt; "the file ends inside a record")?;
        }
        Ok(())
    }
}

// The records of a file, up to so many. The word that begins one is read; the rest is `play`'s to read, and its answers to count.
fn each<R: io::Read, F: FnMut(&mut R, u64, &mut Tally) -> io::Result<()>>(
    file: &mut R,
    most: usize,
    mut play: F,
) -> io::Result<Replayed>
    requires { F.IsAlwaysCallable play }
{
    let mut tally = Tally::new();
    for _ in 0..most {
        match words::first(file)? {
            Ok(first) => play(file, first, &mut tally)?,
            Err(rest) => return Ok(Replayed { tally, rest }),
        }
    }
    Ok(Replayed { tally, rest: 0 })
}

// Replays a layer's file, so many records at most, and prints what it came to.
pub fn replay<S: Files + Print + Eprint, F: FnMut(&mut S::File, u64, &mut Tally) -> io::Result<()>>(
    rt: &S,
    path: &str,
    layer: &str,
    most: usize,
    play: F,
) -> io::Result<()>
    requires { F.IsAlwaysCallable play }
{
    let mut file = match File::open(rt, path) {
        Ok(file) => file,
        Err(error) => return eprintln!(rt; "{path}: {error}"),
    };
    each(&mut file, most, play)?.print(rt, layer)
}
