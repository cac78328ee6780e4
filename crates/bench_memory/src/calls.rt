//! One call of an arena.

ghost use Rattle.std.specs.Prelude.{◌≡◌, ◌<◌, length};

use frame_arena::FrameArena;
use std::cmp::Ordering;

/// A call, with how many bytes it has.
#[derive(Clone, Copy)]
pub(crate) enum Call {
    ReadOne,
    ReadFour,
    ReadEight,
    WriteOne,
    WriteEight,
    Get,
    Put,
    Same,
    Order,
    IsZero,
    Copy,
    Clear,
    Fingerprint,
}

/// Makes a call on a frame of the first half, and on its like in the second where it takes two; a number
/// that comes from the result, so that no call is left out.
pub(crate) fn made(arena: &mut FrameArena, call: Call, frame: u32) -> u64
    requires frames { length arena.old ≡ 64 }
    requires half { frame < 32 }
    ensures { length arena.new ≡ 64 }
{
    match call {
        Call::ReadOne => arena.read(frame, 64, 1),
        Call::ReadFour => arena.read(frame, 64, 4),
        Call::ReadEight => arena.read(frame, 64, 8),
        Call::Get | Call::Same | Call::Order | Call::IsZero | Call::Fingerprint => {
            looked(arena, call, frame)
        }
        _ => changed(arena, call, frame),
    }
}

/// Makes a call that only looks.
fn looked(arena: &FrameArena, call: Call, frame: u32) -> u64
    requires frames { length arena.now ≡ 64 }
    requires half { frame < 32 }
{
    let other = frame + 32;
    match call {
        Call::Get => {
            let mut bytes = [0; 64];
            arena.get(frame, 64, &mut bytes);
            u64::from(bytes[0])
        }
        Call::Same => u64::from(arena.same(frame, other)),
        Call::Order => u64::from(arena.order(frame, other) == Ordering::Equal),
        Call::IsZero => u64::from(arena.is_zero(frame)),
        _ => arena.fingerprint(frame),
    }
}

/// Makes a call that writes. The bytes are zeros, so that all frames stay the same.
fn changed(arena: &mut FrameArena, call: Call, frame: u32) -> u64
    requires frames { length arena.old ≡ 64 }
    requires half { frame < 32 }
    ensures { length arena.new ≡ 64 }
{
    match call {
        Call::WriteOne => arena.write(frame, 64, 1, 0),
        Call::WriteEight => arena.write(frame, 64, 8, 0),
        Call::Put => arena.put(frame, 64, &[0; 64]),
        Call::Copy => arena.copy(frame, frame + 32),
        _ => arena.clear(frame),
    }
    1
}
