//! What a bus asks for.
use res_base::Ratio;

/// What a bus is to have: this many bits per second from a clock in hertz, and a sample point in
/// per mille of a bit with a tolerance to either side.
#[derive(Clone, Copy, Debug)]
pub struct Request {
    pub pclk: Ratio,
    pub rate: u32,
    pub point: u32,
    pub tolerance: u32,
}
