/// The helpers on the elements of maps.
#[derive(Clone, Copy, PartialEq, Eq)]
pub enum MapHelper {
    Lookup,
    Update,
    Delete,
}

impl MapHelper {
    ghost use Rattle.std.specs.Prelude.{◌≡◌};
    ghost use Rattle.host_types.specs.Helpers.{helper_of};

    /// The helper that a number calls: those of Linux, whose numbers are 1 to 3.
    pub fn of(number: u64) -> Option<MapHelper>
        ensures { result ≡ helper_of number }
    {
        match number {
            1 => Some(MapHelper::Lookup),
            2 => Some(MapHelper::Update),
            3 => Some(MapHelper::Delete),
            _ => None,
        }
    }
}
