// What comes of a connection.
/// What comes of a connection or request.
#[derive(Clone, Copy, Debug, PartialEq, Eq)]
pub enum Outcome {
    Admitted,
    /// An HTTP request without a valid token where one was shown.
    Refused401,
    /// An HTTP request that a policy refuses.
    Refused403,
    /// A connection that is closed.
    Closed,
}

/// The outcome, and whether an AUDIT policy marked it.
#[derive(Clone, Copy, Debug, PartialEq, Eq)]
pub struct Verdict {
    pub outcome: Outcome,
    pub audited: bool,
}
