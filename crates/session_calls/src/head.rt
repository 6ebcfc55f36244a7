// The head of a recorded session: what the limiter was set up with.
ghost use Rattle.std.specs.Prelude.{◌*◌, ◌≤◌, IfOk};

use crate::samples::Kind;
use arithmetic::pattern::from_bits;
use audio::format::Format;
use records::words::{array, next};
use settings::{LimiterSettings, ProcessSpec};
use std::io;

#[derive(Clone, Copy)]
pub struct Head {
    pub format: Format,
    pub settings: LimiterSettings,
    pub spec: ProcessSpec,
    pub look: usize,
    pub rows: usize,
    pub seed: u64,
    pub kind: Kind,
}

// A count of at most `most`; a larger one is damage, which the answers tell.
pub fn count<R: io::Read>(file: &mut R, most: u64) -> io::Result<u64>
    ensures { IfOk result (λ n. n ≤ most) }
{
    Ok(next(file)?.min(most))
}

// So many places for each channel; none where there are more than 8 channels or `most` places: no byte is then compared, and
// the call's refusal tells.
pub fn places(channels: usize, n: usize, most: usize) -> usize
    requires { most ≤ 4096 }
    ensures { result ≤ 8 * most }
{
    if channels > 8 || n > most {
        return 0;
    }
    channels * n
}

fn settings<R: io::Read>(file: &mut R) -> io::Result<LimiterSettings> {
    let [threshold_db, true_peak_margin_db, lookahead_ms, release_ms] = array::<_, 4>(file)?;
    Ok(LimiterSettings {
        threshold_db: from_bits(threshold_db),
        true_peak_margin_db: from_bits(true_peak_margin_db),
        lookahead_ms: from_bits(lookahead_ms),
        release_ms: from_bits(release_ms),
        left_out: 0,
    })
}

// The sample type that a session's first word tells.
fn format(first: u64) -> Format {
    if first == 9 { Format::F32 } else { Format::F64 }
}

pub fn read<R: io::Read>(file: &mut R, first: u64) -> io::Result<Head>
    ensures { IfOk result (λ h. (h.look ≤ 4096) × (h.rows ≤ 4096)) }
{
    let rate = count(file, 192000)? as u32;
    let channels = count(file, 8)? as usize;
    let s = settings(file)?;
    let look = count(file, 4096)? as usize;
    let rows = count(file, 4096)? as usize;
    let seed = next(file)?;
    let kind = Kind::from(next(file)?);
    let max_block = count(file, 65536)? as usize;
    let house = count(file, 1)? == 1;
    let left_out = count(file, 255)? as u8;
    let spec = ProcessSpec {
        rate,
        channels,
        max_block,
        cap: None,
        house,
    };
    Ok(Head {
        format: format(first),
        settings: s.left_out(left_out),
        spec,
        look,
        rows,
        seed,
        kind,
    })
}

// The weights, as the Rust computed them.
pub fn weights<R: io::Read>(file: &mut R, into: &mut [f64]) -> io::Result<()> {
    for weight in into.iter_mut() {
        *weight = from_bits(next(file)?);
    }
    Ok(())
}
