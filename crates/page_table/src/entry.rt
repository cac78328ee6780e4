ghost use Rattle.std.specs.Prelude.{◌≡◌, true, false, None};
ghost use Rattle.host_types.specs.Sharing.{is_shared, broken_page, with_status};
ghost use Rattle.page_table.specs.Table.{state_of};

use host_types::Status;

/// What is kept of a page.
#[derive(Clone, Copy, PartialEq, Eq)]
pub struct Entry {
    /// The frame that the page lies on.
    pub frame: u32,
    /// Whether the frame must not be written: other pages may lie on it.
    pub protected: bool,
    /// Whether the page may be merged.
    pub mergeable: bool,
    pub status: Status,
    /// The fingerprint at the page's last visit.
    pub last: Option<u64>,
}

impl Entry {
    /// The page on a frame of its own, after it was taken off a shared one.
    pub(crate) fn broken(self, frame: u32) -> Entry
        ensures state { state_of result ≡ broken_page (state_of self) }
        ensures frame { result.frame ≡ frame }
        ensures own { is_shared result.status ≡ false }
        ensures protected { result.protected ≡ false }
    {
        Entry {
            frame,
            protected: false,
            status: Status::Volatile,
            last: None,
            ..self
        }
    }

    /// The page on a shared frame.
    pub(crate) fn merged(self, frame: u32, status: Status) -> Entry
        requires { is_shared status ≡ true }
        ensures state { state_of result ≡ with_status status (state_of self) }
        ensures frame { result.frame ≡ frame }
        ensures status { result.status ≡ status }
        ensures protected { result.protected ≡ true }
    {
        Entry {
            frame,
            protected: true,
            status,
            ..self
        }
    }
}
