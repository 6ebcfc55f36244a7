// Tables, stored row after row, whose columns are to stand one after the other.
ghost use Rattle.std.specs.Prelude.{◌≡◌, ◌*◌, ◌≤◌, ◌<◌};
ghost use Rattle.interleaving.specs.Walks.{source_of};

// So many rows and columns, of samples or of rows of samples: MOST of them at the most.
#[derive(Clone, Copy)]
pub struct Table<const MOST: usize> {
    pub rows: usize,
    pub columns: usize,
    ghost small: { rows * columns ≤ MOST },
}

impl Table<8192> {
    // What comes to a place.
    pub fn source_of(self, at: usize) -> usize
        requires { at < self.rows * self.columns }
        ensures { result ≡ source_of self.rows self.columns at }
    {
        at % self.rows * self.columns + at / self.rows
    }
}
