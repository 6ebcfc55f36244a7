// The six stores that a host lends to a call, in their order. Whoever is handed them leaves each where it lies (`Stays`).
// A reset lends marks and minima to be read, a setup the weights to be written, a gain step four: those keep their slices.
#[derive(Drop)]
pub struct Lent<'a> {
    pub delay: &'a mut [f64],
    pub marks: &'a mut [u64],
    pub minima: &'a mut [f64],
    pub weights: &'a [f64],
    pub row: &'a mut [f64],
    pub detector: &'a mut [f64],
}
