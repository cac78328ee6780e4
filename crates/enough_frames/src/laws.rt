ghost use Rattle.enough_frames.specs.Laws.{NextHasFrames, ManyHaveFrames};

use host_core::Host;

/// Where a host has two frames for each page of its maps, also of a map that a call is to make, and two more, that call isn't refused for lack
/// of frames: whatever happened before, whichever pages share frames, and whichever runs are open. One of the two is the frame of zeros, and the
/// other one lets an update write a value that lies on two pages. This is a law about hosts: the function does nothing.
pub fn calls_have_frames(host: &Host)
    ensures next { NextHasFrames host.now }
    ensures many { ManyHaveFrames host.now }
{
    host.facts();
}
