ghost use Rattle.std.specs.Prelude.{◌≡◌};
ghost use Rattle.ksm_counters.specs.Counters.{counters_text};
ghost use Rattle.ksm_counters.specs.Lines.{lines_text};

use crate::line::Line;

/// The counters of a memory, by the names of the kernel's manual.
#[derive(Clone, Copy, Debug, PartialEq, Eq)]
pub struct Counters {
    /// How many frames pages share.
    pub pages_shared: u32,
    /// How many more pages share them.
    pub pages_sharing: u32,
    /// How many pages wait for another one of their bytes.
    pub pages_unshared: u32,
    /// How many pages changed since they were visited last.
    pub pages_volatile: u32,
    /// How many passes over all pages ended, at most `2^64 - 1`.
    pub full_scans: u64,
    /// How many pages lie on the zero frame.
    pub ksm_zero_pages: u32,
    /// How many contents have two groups or more.
    pub stable_node_chains: u32,
    /// How many groups such contents have.
    pub stable_node_dups: u32,
    /// How many frames no page has, the zero frame aside.
    pub frames_free: u32,
}

impl Counters {
    /// A line for each counter, in the order of the kernel's manual.
    pub(crate) fn lines(&self) -> [Line; 9]
        ensures { lines_text result ≡ counters_text self.now }
    {
        [
            Line::of("pages_shared", self.pages_shared),
            Line::of("pages_sharing", self.pages_sharing),
            Line::of("pages_unshared", self.pages_unshared),
            Line::of("pages_volatile", self.pages_volatile),
            Line {
                name: "full_scans",
                value: self.full_scans,
            },
            Line::of("ksm_zero_pages", self.ksm_zero_pages),
            Line::of("stable_node_chains", self.stable_node_chains),
            Line::of("stable_node_dups", self.stable_node_dups),
            Line::of("frames_free", self.frames_free),
        ]
    }
}
