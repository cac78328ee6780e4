//! Where the pages of maps lie before a run.

use host_types::Options;

/// Where the pages of two tenants with the same maps lie when a run begins.
#[derive(Clone, Copy)]
pub enum Pages {
    /// Each on a frame of its own.
    Own,
    /// With the pages that are alike, those of the other tenant among them.
    Merged,
    /// The pages of zeros on the zero frame, the others merged.
    Zero,
}

impl Pages {
    /// The options by which pages of zeros may go where they are to lie.
    pub fn options(self) -> Options {
        Options {
            use_zero_pages: match self {
                Pages::Zero => 1,
                Pages::Own | Pages::Merged => 0,
            },
            ..Options::standard()
        }
    }
}
