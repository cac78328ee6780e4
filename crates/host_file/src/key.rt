ghost use Rattle.std.specs.Prelude.{◌≡◌};
ghost use Rattle.host_file.specs.HostFile.{key_name};

use std::fmt;

/// A key of a host file's tables.
#[derive(Clone, Copy, Debug, PartialEq, Eq)]
pub enum Key {
    Tenants,
    Frames,
    Options,
    Event,
    PagesToScan,
    Run,
    UseZeroPages,
    MaxPageSharing,
    Do,
    Tenant,
    Hex,
    Context,
    Program,
    Count,
    ValueSize,
    Entries,
    Mergeable,
    Map,
    Key,
    Value,
    Option,
}

impl Key {
    /// The key as it is written.
    pub fn name(self) -> &'static str
        ensures { result.now ≡ key_name self }
    {
        match self {
            Key::Tenants => "tenants",
            Key::Frames => "frames",
            Key::Options => "options",
            Key::Event => "event",
            Key::PagesToScan => "pages_to_scan",
            Key::Run => "run",
            Key::UseZeroPages => "use_zero_pages",
            Key::MaxPageSharing => "max_page_sharing",
            Key::Do => "do",
            Key::Tenant => "tenant",
            Key::Hex => "hex",
            Key::Context => "context",
            Key::Program => "program",
            Key::Count => "count",
            Key::ValueSize => "value_size",
            Key::Entries => "entries",
            Key::Mergeable => "mergeable",
            Key::Map => "map",
            Key::Key => "key",
            Key::Value => "value",
            Key::Option => "option",
        }
    }
}

impl fmt::Display for Key {
    fn fmt<W: fmt::Write>(&self, f: &mut fmt::Formatter<W>) -> fmt::Result {
        f.write_str(self.name())
    }
}
