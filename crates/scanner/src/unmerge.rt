ghost use Rattle.std.specs.Prelude.{◌≡◌, OnOk, IfErr, OnErr};
ghost use Rattle.host_types.specs.Unmerging.{RefusesUnmerge};
ghost use Rattle.page_table.specs.State.{have_of};
ghost use Rattle.scanner.specs.Unmerged.{HasUnmerged};

use host_types::Fault;
use page_table::Memory;

/// Gives each page that shares a frame one of its own, in the order of the pages, and stops the
/// scanner: `run` is 2 then, until it is set again. The kernel's manual calls it unmerging.
///
/// `NoFrames` where that takes more frames than `have()`; it names both numbers, and changes nothing.
pub fn unmerge_all(memory: &mut Memory) -> Result<(), Fault>
    ensures unmerged { OnOk result (HasUnmerged memory.old memory.new) }
    ensures err { IfErr result (RefusesUnmerge memory.old.sharing (have_of memory.old)) }
    ensures unchanged { OnErr result (memory.new ≡ memory.old) }
{
    let need = memory.unmerge_need();
    let have = memory.have();
    if have < need {
        return Err(Fault::NoFrames { need, have });
    }
    memory.unmerge();
    Ok(())
}
