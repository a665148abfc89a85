/// Counts of what happened to the tickets of a lane.
#[derive(Clone, Copy, Debug, PartialEq, Eq)]
pub struct LaneCounts {
    /// How many tickets the lane made.
    pub tickets: u64,
    /// How many of them were posted.
    pub posted: u64,
    /// How many were given back.
    pub back: u64,
    /// How many answers were appended by posts.
    pub appended: u64,
}

impl LaneCounts {
    pub(crate) const NONE: LaneCounts = LaneCounts {
        tickets: 0,
        posted: 0,
        back: 0,
        appended: 0,
    };
}
