// Replays the recorded sessions of the Rust's whole limiter and prints how many calls were replayed, with
// the weights that each session leaves, and how many of them differ. `oracle/run record-whole` writes data/sessions.
#![tactic(auto)]

ghost use Rattle.std.specs.Prelude.{◌≡◌, length};

use records::rooms::room;
use records::tally::{Tally, replay};
use session_calls::calls::{Session, Stores};
use session_calls::head;
use std::io;

// The session.
mod session;

// The weights store before setup: the host's weights, or, where setup is to fill in the house's, no number.
fn lent(house: bool, weights: [f64; 4097]) -> [f64; 4097]
    ensures { length result ≡ 4097 }
{
    if house { room(f64::NAN) } else { weights }
}

// A session whose first word was read, on stores of its lengths. No other store starts at 0, so that a setup that
// leaves something is told.
fn replayed<R: io::Read>(file: &mut R, first: u64, tally: &mut Tally) -> io::Result<()> {
    let h = head::read(file, first)?;
    let rows = h.rows;
    let entries = h.look + 1;
    let lines = head::places(h.spec.channels, h.look, 4096);
    let heard = head::places(h.spec.channels, 12, 12);
    let mut due = room::<f64, 4097>(1.0);
    head::weights(file, &mut due[..rows])?;
    let mut weights = lent(h.spec.house, due);
    let mut delay = room::<f64, 32768>(1.0);
    let mut marks = room::<u64, 4097>(1);
    let mut minima = room::<f64, 4097>(1.0);
    let mut row = room::<f64, 4097>(1.0);
    let mut detector = room::<f64, 96>(1.0);
    let stores = Stores {
        delay: &mut delay[..lines],
        marks: &mut marks[..entries],
        minima: &mut minima[..entries],
        weights: &mut weights[..rows],
        row: &mut row[..rows],
        detector: &mut detector[..heard],
    };
    session::whole(file, &due[..rows], &mut Session::new(h, stores), tally)
}

fn main(rt: HostRuntime) -> io::Result<()> {
    replay(
        &rt,
        "sessions",
        "calls and weights of the limiter",
        10000,
        replayed,
    )
}
