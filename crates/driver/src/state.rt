// The limiter with its bank (driver.rs: KernelProcessor).
use bank::smoother::Smoother;
use bank::smoother_bank::SmootherBank;
use limiter::state::Limiter;

#[derive(Clone, Copy)]
pub struct KernelProcessor {
    pub limiter: Limiter,
    pub bank: SmootherBank,
}

// What 18 and 19 read of a bank, and all that a state's bytes keep of it: the threshold's smoother and
// the bank's own fields. It goes beside the limiter, and in no struct with it: that would be copied once more a call.
#[derive(Clone, Copy)]
pub struct Threshold {
    pub smoother: Smoother,
    pub count: usize,
    pub rate: u32,
    pub ready: bool,
}
