// What a push answers: the largest magnitude among the four interpolated outputs, and which of them has it.
#[derive(Clone, Copy)]
pub struct Peak {
    pub peak: f64,
    // the first phase, 0 to 3, that has the peak; none where the peak is 0.0
    pub phase: Option<usize>,
}
