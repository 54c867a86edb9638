use text::refusal::Refusal;

// What a job may do and what its pages are like: steps up to 10^9, width 1 to 8,192, height 1 to 65,535; and how many
// numbers may be kept.
#[derive(Clone, Copy, Debug, PartialEq, Eq)]
pub struct Order {
    pub steps: u64,
    pub width: u64,
    pub height: u64,
    pub kept: u64,
}

// A job that is not opened: why, and the lent memory again, as it was.
#[derive(Drop)]
pub struct Refused<'m> {
    pub why: Refusal,
    pub words: &'m mut [u64],
    pub bytes: &'m mut [u8],
}
