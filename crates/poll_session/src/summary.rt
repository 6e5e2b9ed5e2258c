//! What is counted of a session of polls.

/// What is counted of the frames of one direction.
#[derive(Clone, Copy, Debug, PartialEq, Eq)]
pub struct WayCounts {
    /// The frames that were sealed at the end where they were said.
    pub sealed: u64,
    /// The frames that have passed at the other end.
    pub passed: u64,
    /// The bursts that the gate there has kept back.
    pub held: u64,
    /// The frames that were read there.
    pub read: u64,
    /// The frames that were read there and weren't sealed.
    pub unsealed: u64,
}

/// What is counted of a session.
#[derive(Clone, Copy, Debug, PartialEq, Eq)]
pub struct PollSummary {
    /// The requests that the master has said whole.
    pub asked: u64,
    /// The requests.
    pub requests: WayCounts,
    /// The answers.
    pub answers: WayCounts,
}
