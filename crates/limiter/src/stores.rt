// Lengths of the lent stores.
ghost use Rattle.std.specs.Prelude.{◌≡◌, ◌≤◌};
ghost use Rattle.limiter.specs.Stores.{lengths_of, lengths_fit, stores_at};

// The stores' lengths, in document 01's order.
#[derive(Clone, Copy, Debug, PartialEq, Eq)]
pub struct StoreLengths {
    pub delay: usize,
    pub marks: usize,
    pub minima: usize,
    pub weights: usize,
    pub row: usize,
    pub detector: usize,
}

pub fn lengths_of(
    delay: &[f64],
    marks: &[u64],
    minima: &[f64],
    weights: &[f64],
    row: &[f64],
    detector: &[f64],
) -> StoreLengths
    ensures { result ≡ lengths_of (stores_at delay.now marks.now minima.now weights.now row.now detector.now) }
{
    StoreLengths {
        delay: delay.len(),
        marks: marks.len(),
        minima: minima.len(),
        weights: weights.len(),
        row: row.len(),
        detector: detector.len(),
    }
}

// 16: whether each store has its exact length. Setup's channels and look come from settings, a limiter's from its state:
// a struct with their bounds would be made at each call.
pub fn lengths_fit(channels: usize, look: usize, l: StoreLengths) -> bool
    requires channels_bound { channels ≤ 8 }
    requires look_bound { look ≤ 4096 }
    ensures { result ≡ lengths_fit channels look l }
{
    let row = settings::memory::row_len(look);
    l == StoreLengths {
        delay: channels * look,
        marks: look + 1,
        minima: look + 1,
        weights: row,
        row,
        detector: channels * 12,
    }
}
