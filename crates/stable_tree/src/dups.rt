//! How many contents have more than one group, kept as numbers while groups come and go.
ghost use Rattle.std.specs.Prelude.{◌≡◌, ◌+◌, ◌-◌, ◌<◌, ◌≤◌};
ghost use Rattle.stable_tree.specs.Groups.{many_in, dups_in};

/// The contents that have two groups or more.
#[derive(Clone, Copy)]
pub(crate) struct Dups {
    /// How many there are.
    pub chains: usize,
    /// How many groups they have.
    pub groups: usize,
}

impl Dups {
    /// There is no such content.
    pub(crate) const NONE: Dups = Dups {
        chains: 0,
        groups: 0,
    };

    /// The same after one content, which had so many groups before, has another number of them.
    pub(crate) fn moved(self, before: usize, after: usize) -> Dups
        requires chains { many_in before ≤ self.chains }
        requires groups { dups_in before ≤ self.groups }
        requires few_chains { self.chains - many_in before + many_in after < 18446744073709551616 }
        requires few_groups { self.groups - dups_in before + dups_in after < 18446744073709551616 }
        ensures { result ≡ record {
          chains = self.chains - many_in before + many_in after;
          groups = self.groups - dups_in before + dups_in after;
        } }
    {
        Dups {
            chains: self.chains - many_in(before) + many_in(after),
            groups: self.groups - dups_in(before) + dups_in(after),
        }
    }
}

/// One for a content with two groups or more.
fn many_in(groups: usize) -> usize
    ensures { result ≡ many_in groups }
{
    usize::from(groups > 1)
}

/// The groups of a content with two or more.
fn dups_in(groups: usize) -> usize
    ensures { result ≡ dups_in groups }
{
    if groups > 1 { groups } else { 0 }
}
