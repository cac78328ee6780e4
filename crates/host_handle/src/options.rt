ghost use Rattle.std.specs.Prelude.{◌≡◌};
ghost use Rattle.host_handle.specs.Codes.{option_of};

use host_types::Opt;

/// The option of the scanner with a number, if there is one: 0 to 3, in the order of `BpfHostOptions`.
pub fn option_numbered(number: u32) -> Option<Opt>
    ensures { result ≡ option_of number }
{
    match number {
        0 => Some(Opt::PagesToScan),
        1 => Some(Opt::Run),
        2 => Some(Opt::UseZeroPages),
        3 => Some(Opt::MaxPageSharing),
        _ => None,
    }
}
