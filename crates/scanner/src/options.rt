ghost use Rattle.std.specs.Prelude.{◌≡◌, ◌↔◌, IsTrue, OnOk, IfErr, OnErr};
ghost use Rattle.host_types.specs.OptionTable.{MayBe};
ghost use Rattle.host_types.specs.Unmerging.{with_option, MaySet, RefusesSet};

use host_types::{Fault, Opt};
use page_table::Memory;

/// Sets one option to a value that it may be set to. 2 is no value of `run` here: only an unmerging of
/// everything leaves it.
///
/// Refusals in their order: `BadOption` where the option can't have the value, `PagesShared` where
/// `max_page_sharing` is to be set, also to the value that it has, while there is a group. A refusal changes
/// nothing.
pub fn set(memory: &mut Memory, option: Opt, value: u32) -> Result<(), Fault>
    ensures may { OnOk result (MayBe option value × MaySet memory.old.sharing option) }
    ensures set { OnOk result (memory.new ≡ record memory.old {
      sharing =
          record memory.old.sharing { options = with_option memory.old.sharing.options option value };
    }) }
    ensures err { IfErr result (RefusesSet memory.old.sharing option value) }
    ensures unchanged { OnErr result (memory.new ≡ memory.old) }
{
    if !option.allows(value) {
        return Err(Fault::BadOption);
    }
    if !may_set(memory, option) {
        return Err(Fault::PagesShared);
    }
    memory.set_option(option, value);
    Ok(())
}

/// Whether an option may be set now.
fn may_set(memory: &Memory, option: Opt) -> bool
    ensures { IsTrue result ↔ MaySet memory.now.sharing option }
{
    match option {
        Opt::PagesToScan | Opt::Run | Opt::UseZeroPages => true,
        Opt::MaxPageSharing => !memory.has_groups(),
    }
}
