// A recorded session on stores of its lengths.
use records::tally::Tally;
use records::words;
use session_calls::calls::Session;
use std::io;

// The rest of a call whose op was read. Another op is no call's, and differs.
// By the file's numbers: each is named in this match alone, and an enum would list them twice.
fn play<R: io::Read>(file: &mut R, op: u64, session: &mut Session) -> io::Result<bool> {
    match op {
        2 => session.block(file),
        3 => session.drain(file),
        4 => Ok(session.reset()),
        5 => session.set(file),
        6 => session.read(file),
        7 => session.gain_step(file),
        8 => Ok(session.setup()),
        _ => Ok(false),
    }
}

// The setup (8), then the calls that the file has, up to the session's end (0). A file that ends inside a session
// differs. At the end the weights: those that the Rust computed, whoever laid them into the store.
pub fn whole<R: io::Read>(
    file: &mut R,
    due: &[f64],
    session: &mut Session,
    tally: &mut Tally,
) -> io::Result<()> {
    let mut op = Ok(8);
    for _ in 0..1000000usize {
        match op {
            Ok(0) => break,
            Ok(call) => tally.count(play(file, call, session)?),
            Err(_) => {
                tally.count(false);
                break;
            }
        }
        op = words::first(file)?;
    }
    tally.count(session.holds(due));
    Ok(())
}
