//! The counters that are drawn.

use ksm_counters::Counters;

/// A line of the picture.
#[derive(Clone, Copy)]
pub enum Line {
    FramesFree,
    Shared,
    Sharing,
    Zero,
    Volatile,
    Waiting,
}

/// All of them, in the order of the legend.
pub const LINES: [Line; 6] = [
    Line::FramesFree,
    Line::Shared,
    Line::Sharing,
    Line::Zero,
    Line::Volatile,
    Line::Waiting,
];

impl Line {
    /// The counter.
    pub fn name(self) -> &'static str {
        match self {
            Line::FramesFree => "frames_free",
            Line::Shared => "pages_shared",
            Line::Sharing => "pages_sharing",
            Line::Zero => "ksm_zero_pages",
            Line::Volatile => "pages_volatile",
            Line::Waiting => "pages_unshared",
        }
    }

    /// Its colour and dashes: where two lines lie on each other, both are seen.
    pub fn style(self) -> &'static str {
        match self {
            Line::FramesFree => "stroke=\"#777777\"",
            Line::Shared => "stroke=\"#1b7837\"",
            Line::Sharing => "stroke=\"#2166ac\" stroke-dasharray=\"9 3\"",
            Line::Zero => "stroke=\"#762a83\" stroke-dasharray=\"2 5\"",
            Line::Volatile => "stroke=\"#b2182b\" stroke-dasharray=\"6 6\"",
            Line::Waiting => "stroke=\"#c06000\" stroke-dasharray=\"3 9\"",
        }
    }

    /// What the counter is.
    pub fn number(self, counters: &Counters) -> u32 {
        match self {
            Line::FramesFree => counters.frames_free,
            Line::Shared => counters.pages_shared,
            Line::Sharing => counters.pages_sharing,
            Line::Zero => counters.ksm_zero_pages,
            Line::Volatile => counters.pages_volatile,
            Line::Waiting => counters.pages_unshared,
        }
    }
}
