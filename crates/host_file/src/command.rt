ghost use Rattle.std.specs.Prelude.{◌≡◌};

use host_types::{Bytes, Event};
use std::marker::Model;

/// What an event of a host file asks for.
#[derive(Drop)]
pub enum Command {
    /// Applies an event of the host as it is.
    Apply(Event),
    /// Makes up to a number of steps of the tenant's open run.
    Step {
        tenant: u32,
        count: u32,
    },
    /// Makes steps of the tenant's open run until it ends.
    Finish {
        tenant: u32,
    },
    /// Opens a run of a loaded program on a context and, where it is open then, makes its steps until it ends.
    Run {
        tenant: u32,
        program: u32,
        context: Bytes,
    },
    /// Lets the scanner visit so many pages, or with no count as many as `pages_to_scan` is by then.
    Visit {
        count: Option<u32>,
    },
}

/// The commands of a host file in their order.
#[derive(Drop)]
pub struct Commands {
    items: Vec<Command>,
}

impl Model for Commands {
    ghost use Rattle.std.specs.Prelude.{List};
    ghost use Rattle.host_file.specs.declared.command.Command.{Command};

    ghost Value = { List Command };

    ghost view = { λ commands. commands.items.items };
}

impl Commands {
    pub fn as_slice(&self) -> &[Command]
        ensures { result.now ≡ self.now }
    {
        self.items.as_slice()
    }
}

/// Takes the list over, with no copy.
impl From<Vec<Command>> for Commands {
    ghost from_gives = { λ items commands. commands ≡ items.items };

    fn from(items: Vec<Command>) -> Self {
        Commands { items }
    }
}
