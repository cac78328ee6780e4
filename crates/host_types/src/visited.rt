/// What a visit of the scanner did.
#[derive(Clone, Copy, Debug, PartialEq, Eq)]
pub enum Visited {
    /// Nothing: the scanner is stopped, or no page may be merged.
    Idle,
    /// Nothing to the page, which shares a frame already.
    Already,
    /// The page joined a group of its bytes.
    Joined,
    /// The page has another fingerprint than at its last visit, and is volatile.
    Changed,
    /// The page is all zeros, and went to the zero frame.
    Zeroed,
    /// The page and a waiting one of its bytes are a new group.
    Paired,
    /// The page waits for another one of its bytes.
    Waiting,
}
