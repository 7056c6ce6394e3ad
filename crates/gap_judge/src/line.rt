//! What a certificate's head says of an asset.

/// The mean and the deviation of an asset in millionths, its least and greatest lots, and its present lots.
#[derive(Clone, Copy, Debug)]
pub struct Line {
    pub mean: i32,
    pub dev: u32,
    pub least: u16,
    pub greatest: u16,
    pub present: u16,
}
