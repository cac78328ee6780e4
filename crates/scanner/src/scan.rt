ghost use Rattle.std.specs.Prelude.{◌≡◌, ◌≤◌, ◌<◌, length, true, false, None, IfSome, IsTrue, ◌↔◌, ◌==◌, ◌&&◌, ◌||◌, bytes_eq};
ghost use Rattle.host_types.specs.Pages.{page_index_of, zero_page, fingerprint_of};
ghost use Rattle.host_types.specs.Pins.{is_pinned};
ghost use Rattle.host_types.specs.Sharing.{state_at};
ghost use Rattle.host_types.specs.declared.visited.Visited.TheVariants.{Idle};
ghost use Rattle.host_types.specs.Visits.{visit, decided, had, paired_or_waiting, find_partner, waiting_at, is_mergeable, contents_in};
ghost use Rattle.frame_arena.specs.Pages.{page_at};
ghost use Rattle.page_table.specs.State.{MemoryState, part, frame_at};
ghost use Rattle.page_table.specs.Changes.{AreKept, KeepsSettings, IsPageOf, MayMerge, IsNotWaiting, HadFingerprint, contents_now};
ghost use Rattle.scanner.specs.Idle.{ScansNothing};

use host_types::{Page, Visited};
use page_table::{Entry, Memory};

/// The value of the option `run` at which the scanner runs.
const RUN: u32 = 1;

/// The value of the option `use_zero_pages` at which pages of zeros go to the zero frame.
const USE_ZERO_PAGES: u32 = 1;

/// One visit: of the next page that may be merged. What it did and what it left is the definition's
/// function of the sharing state and the pages' bytes. It is idle exactly where the scanner is stopped or
/// no page may be merged.
pub fn visit(memory: &mut Memory) -> Visited
    ensures visited { visit (contents_in memory.old.maps) memory.old.sharing ≡ (result, memory.new.sharing) }
    ensures idle { result ≡ Idle ↔ ScansNothing memory.old.sharing }
    ensures maps { memory.new.maps ≡ memory.old.maps }
    ensures kept { AreKept memory.old memory.new }
    ensures settings { KeepsSettings memory.old memory.new }
{
    memory.facts();
    if memory.options().run != RUN {
        return Visited::Idle;
    }
    let Some(page) = memory.next_page() else {
        return Visited::Idle;
    };
    begin_pass(memory);
    memory.advance(page);
    look_at(memory, page)
}

/// At the start of a pass no page waits.
fn begin_pass(memory: &mut Memory)
    ensures { memory.new ≡ record memory.old {
      sharing = record memory.old.sharing {
        waiting = waiting_at memory.old.sharing.cursor memory.old.sharing.waiting;
      };
    } }
{
    if memory.cursor().is_none() {
        memory.flush();
    }
}

/// What becomes of the visited page: the first case that holds decides.
fn look_at(memory: &mut Memory, page: Page) -> Visited
    requires there { IsPageOf memory.old page }
    requires mergeable { is_mergeable (state_at memory.old.sharing (page_index_of page)) ≡ true }
    requires free { IsNotWaiting memory.old page }
    requires at_or_before { IfSome memory.old.sharing.cursor (λ c. page_index_of page ≤ c) }
    ensures decided { decided (contents_now memory.old) memory.old.sharing (page_index_of page)
        (state_at memory.old.sharing (page_index_of page)) ≡ (result, memory.new.sharing) }
    ensures maps { memory.new.maps ≡ memory.old.maps }
    ensures kept { AreKept memory.old memory.new }
    ensures settings { KeepsSettings memory.old memory.new }
{
    let entry = memory.entry(page);
    if stays(memory, page, entry) {
        return Visited::Already;
    }
    if let Some(group) = memory.open_group(page) {
        memory.join_group(page, group);
        return Visited::Joined;
    }
    let fingerprint = memory.arena().fingerprint(entry.frame);
    if !had(entry.last, fingerprint) {
        memory.change(page, fingerprint);
        return Visited::Changed;
    }
    if is_zeros(memory, entry) {
        memory.zero(page);
        return Visited::Zeroed;
    }
    pair_or_wait(memory, page, fingerprint)
}

/// Whether a visit leaves a page as it is: it shares a frame already, or an open run took it out.
fn stays(memory: &Memory, page: Page, entry: Entry) -> bool
    requires { IsPageOf memory.now page }
    ensures { result ≡ (entry.protected || is_pinned memory.now.sharing.pins (page_index_of page)) }
{
    entry.protected || memory.is_pinned(page)
}

/// Whether a page had a fingerprint at its last visit.
fn had(last: Option<u64>, fingerprint: u64) -> bool
    ensures { result ≡ had last fingerprint }
{
    match last {
        Some(last) => last == fingerprint,
        None => false,
    }
}

/// Whether a page goes to the zero frame: the option says so, and all its bytes are zero.
fn is_zeros(memory: &Memory, entry: Entry) -> bool
    requires { entry.frame < length memory.now.arena }
    ensures { result ≡ (memory.now.sharing.options.use_zero_pages == 1
        && bytes_eq (page_at memory.now.arena entry.frame) zero_page) }
{
    memory.options().use_zero_pages == USE_ZERO_PAGES && memory.arena().is_zero(entry.frame)
}

/// Makes a page and the one that waits longest for its bytes a new group, or lets it wait.
fn pair_or_wait(memory: &mut Memory, page: Page, fingerprint: u64) -> Visited
    requires there { IsPageOf memory.old page }
    requires may { MayMerge memory.old page }
    requires free { IsNotWaiting memory.old page }
    requires last { HadFingerprint memory.old page fingerprint }
    requires at_or_before { IfSome memory.old.sharing.cursor (λ c. page_index_of page ≤ c) }
    ensures paired_or_waiting { paired_or_waiting memory.old.sharing (page_index_of page) fingerprint
        (find_partner (contents_now memory.old) memory.old.sharing (page_index_of page) fingerprint) ≡ (result, memory.new.sharing) }
    ensures maps { memory.new.maps ≡ memory.old.maps }
    ensures kept { AreKept memory.old memory.new }
    ensures settings { KeepsSettings memory.old memory.new }
{
    match memory.partner(page, fingerprint) {
        Some(other) => {
            memory.pair(other, page);
            Visited::Paired
        }
        None => {
            memory.wait(page, fingerprint);
            Visited::Waiting
        }
    }
}
