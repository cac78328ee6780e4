/// How far merging has come with a page.
#[derive(Clone, Copy, PartialEq, Eq)]
pub enum Status {
    /// It was never visited.
    New,
    /// It was written lately, as far as visits know.
    Volatile,
    /// It waits for a page of the same bytes.
    Waiting,
    /// It shares a write-protected frame with the pages of its group.
    Grouped,
    /// It lies on the write-protected frame of zeros.
    Zero,
}

impl Status {
    ghost use Rattle.std.specs.Prelude.{◌≡◌};
    ghost use Rattle.host_types.specs.Sharing.{is_shared};

    /// Whether the page lies on a frame that isn't its own.
    pub fn is_shared(self) -> bool
        ensures { result ≡ is_shared self }
    {
        match self {
            Status::New | Status::Volatile | Status::Waiting => false,
            Status::Grouped | Status::Zero => true,
        }
    }
}
