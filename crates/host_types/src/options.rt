/// How pages are merged. The names are those of the files of Linux's KSM.
#[derive(Clone, Copy, PartialEq, Eq)]
pub struct Options {
    /// How many pages a batch visits: 1 to 100000.
    pub pages_to_scan: u32,
    /// 0 stops the scanner, 1 runs it, and 2 is left by an unmerging of everything.
    pub run: u32,
    /// 1 puts pages of zeros on the zero frame.
    pub use_zero_pages: u32,
    /// How many pages one frame may hold: 2 to 65535.
    pub max_page_sharing: u32,
}

/// One of the options.
#[derive(Clone, Copy, PartialEq, Eq)]
pub enum Opt {
    PagesToScan,
    Run,
    UseZeroPages,
    MaxPageSharing,
}

impl Opt {
    ghost use Rattle.std.specs.Prelude.{◌≡◌, ◌≢◌, ◌↔◌, IsTrue, IsNone, IfSome};
    ghost use Rattle.host_types.specs.OptionTable.{MayBe, option_name};

    /// The option with a name, if there is one.
    pub fn named(name: &str) -> Option<Opt>
        ensures named { IfSome result (λ option. name.now ≡ option_name option) }
        ensures unnamed { IsNone result → (option : Opt) → name.now ≢ option_name option }
    {
        match name {
            "pages_to_scan" => Some(Opt::PagesToScan),
            "run" => Some(Opt::Run),
            "use_zero_pages" => Some(Opt::UseZeroPages),
            "max_page_sharing" => Some(Opt::MaxPageSharing),
            _ => None,
        }
    }

    /// Whether the option may be set to the value.
    pub fn allows(self, value: u32) -> bool
        ensures { IsTrue result ↔ MayBe self value }
    {
        match self {
            Opt::PagesToScan => 1 <= value && value <= 100000,
            Opt::Run | Opt::UseZeroPages => value <= 1,
            Opt::MaxPageSharing => 2 <= value && value <= 65535,
        }
    }
}

impl Options {
    ghost use Rattle.std.specs.Prelude.{◌≡◌, ◌↔◌, IsTrue};
    ghost use Rattle.host_types.specs.OptionTable.{AreOptions, default_options};

    /// The options of a memory that is given none.
    pub fn standard() -> Self
        ensures { result ≡ default_options }
    {
        Options {
            pages_to_scan: 100,
            run: 1,
            use_zero_pages: 0,
            max_page_sharing: 256,
        }
    }

    /// Whether each option has a value that it may be set to.
    pub fn is_valid(&self) -> bool
        ensures { IsTrue result ↔ AreOptions self.now }
    {
        Opt::PagesToScan.allows(self.pages_to_scan)
            && Opt::Run.allows(self.run)
            && Opt::UseZeroPages.allows(self.use_zero_pages)
            && Opt::MaxPageSharing.allows(self.max_page_sharing)
    }
}
