ghost use Rattle.std.specs.Prelude.{◌≡◌, OnErr, OnOk, length};
ghost use Rattle.std.specs.Io.KnownBytes.{Appends};
ghost use Rattle.page_table.specs.Changes.{contents_now};
ghost use Rattle.ksm_counters.specs.Counters.{counters_of, counters_text};
ghost use Rattle.ksm_counters.specs.Lines.{AppendsBeginning};

use crate::line::write_lines;
use crate::numbers::Counters;
use page_table::Memory;
use std::io;
use std::io::Write;

/// The counters of a memory as it is now. Each number is kept while pages change, so that no page and no
/// group is looked at.
#[tactic(auto, unfolding(host_types::specs::Counters::pages_sharing, host_types::specs::Unmerging::unmerge_need))]
pub fn counters(memory: &Memory) -> Counters
    ensures { result ≡ counters_of (length memory.now.arena) (contents_now memory.now) memory.now.sharing }
{
    let zero_pages = memory.zero_pages();
    Counters {
        pages_shared: memory.groups(),
        pages_sharing: memory.unmerge_need() - zero_pages,
        pages_unshared: memory.unshared_pages(),
        pages_volatile: memory.volatile_pages(),
        full_scans: memory.full_scans(),
        ksm_zero_pages: zero_pages,
        stable_node_chains: memory.node_chains(),
        stable_node_dups: memory.node_dups(),
        frames_free: memory.free(),
    }
}

/// Writes the counters, a line with its name and value for each. The writer's fault is handed on, and what
/// was written by then is a beginning of the lines.
pub fn text<W: Write>(counters: &Counters, writer: &mut W) -> io::Result<()>
    ensures lines { OnOk result (Appends (W.contents writer.old) (W.contents writer.new) (counters_text counters.now)) }
    ensures beginning { OnErr result (AppendsBeginning (W.contents writer.old) (W.contents writer.new) (counters_text counters.now)) }
{
    write_lines(&counters.lines(), writer)
}
