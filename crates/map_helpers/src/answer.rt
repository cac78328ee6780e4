ghost use Rattle.std.specs.Prelude.{◌≡◌, ◌<◌, ◌==◌, is_none, IsNone};
ghost use Rattle.host_types.specs.Helpers.{failed, update_answer};
ghost use Rattle.map_helpers.specs.Answers.{refusal_answer, error_number, flag_of};

use host_types::Shape;

/// What an update wants of its element, by Linux's flags.
#[derive(Clone, Copy)]
enum UpdateFlag {
    /// BPF_ANY: it may be there or not.
    Any,
    /// BPF_NOEXIST: it isn't there yet.
    NoExist,
    /// BPF_EXIST: it is there.
    Exist,
}

/// Why a helper refuses, by Linux's numbers.
#[derive(Clone, Copy)]
pub(crate) enum HelperError {
    /// E2BIG: the key is past the map's end.
    TooBig = 7,
    /// EEXIST: the element is there.
    Exists = 17,
    /// EINVAL: no such flag, or nothing is ever deleted.
    Invalid = 22,
}

impl UpdateFlag {
    /// The flag with a number.
    fn from_number(flags: u64) -> Option<Self>
        ensures { result ≡ flag_of flags }
    {
        match flags {
            0 => Some(UpdateFlag::Any),
            1 => Some(UpdateFlag::NoExist),
            2 => Some(UpdateFlag::Exist),
            _ => None,
        }
    }
}

impl HelperError {
    /// What a helper answers that refuses: the error's number made negative.
    pub(crate) fn answer(self) -> u64
        ensures { result ≡ failed (error_number self) }
    {
        (self as u64).wrapping_neg()
    }
}

/// Why an update refuses, if it does. All elements of an array map are there.
#[tactic(auto, unfolding(host_types::specs::Helpers::update_answer))]
pub(crate) fn update_error(shape: Shape, key: u32, flags: u64) -> Option<HelperError>
    ensures answer { refusal_answer result ≡ update_answer shape key flags }
    ensures refused { (update_answer shape key flags == 0) ≡ is_none result }
    ensures there { IsNone result → key < shape.entries }
{
    let Some(flag) = UpdateFlag::from_number(flags) else {
        return Some(HelperError::Invalid);
    };
    if key >= shape.entries {
        return Some(HelperError::TooBig);
    }
    match flag {
        UpdateFlag::NoExist => Some(HelperError::Exists),
        UpdateFlag::Any | UpdateFlag::Exist => None,
    }
}
