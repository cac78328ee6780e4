ghost use Rattle.std.specs.Prelude.{◌≡◌, OnOk, IfErr, OnErr};
ghost use Rattle.host_types.specs.OptionTable.{MayBe};
ghost use Rattle.host_types.specs.Unmerging.{with_option, MaySet, RefusesSet, RefusesUnmerge};
ghost use Rattle.page_table.specs.State.{part, have_of};
ghost use Rattle.page_table.specs.Changes.{AreKept};
ghost use Rattle.scanner.specs.Unmerged.{HasUnmerged};

use host_types::{Fault, Opt};
use page_table::Memory;

/// Sets one option to a value that it may be set to. No tenant's part changes.
///
/// Refusals in their order: `BadOption` where the option can't have the value, `PagesShared` where
/// `max_page_sharing` is to be set while there is a group. A refusal changes nothing.
#[tactic(auto, unfolding(page_table::specs::State::part))]
pub fn host_set(memory: &mut Memory, option: Opt, value: u32) -> Result<(), Fault>
    ensures may { OnOk result (MayBe option value × MaySet memory.old.sharing option) }
    ensures set { OnOk result (memory.new ≡ record memory.old {
      sharing =
          record memory.old.sharing { options = with_option memory.old.sharing.options option value };
    }) }
    ensures kept { AreKept memory.old memory.new }
    ensures refused { IfErr result (RefusesSet memory.old.sharing option value) }
    ensures unchanged { OnErr result (memory.new ≡ memory.old) }
{
    scanner::set(memory, option, value)
}

/// Gives each page that shares a frame one of its own, in page order, and stops the scanner. No tenant's
/// part changes.
///
/// The one refusal is `NoFrames`, just where the frames that this takes are more than `have()`; it gives both
/// numbers, and changes nothing.
pub fn host_unmerge(memory: &mut Memory) -> Result<(), Fault>
    ensures unmerged { OnOk result (HasUnmerged memory.old memory.new) }
    ensures refused { IfErr result (RefusesUnmerge memory.old.sharing (have_of memory.old)) }
    ensures unchanged { OnErr result (memory.new ≡ memory.old) }
{
    scanner::unmerge_all(memory)
}
