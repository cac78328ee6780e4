//! Many runs of a program in one call.
ghost use Rattle.std.specs.Prelude.{◌≡◌, ◌≢◌, ◌⊎◌, ◌*◌, ℕ, length, IfSome, IfNone};
ghost use Rattle.host_handle.specs.Many.{AnswersMany};

use host_handle::{Answer, BpfHost, BpfHostRefused};
use std::alloc::Global;

/// Runs a loaded program on as many contexts as there are numbers to write, which have one size and stand one after the other, and
/// writes what each run returns, and how many runs were made. It stops at the first run that is refused. Where the contexts can't have one
/// size, nothing happens.
#[unsafe(no_mangle)]
pub extern "C" fn bpf_host_run_many(
    alloc: Global,
    handle: &mut BpfHost,
    tenant: u32,
    program: u32,
    contexts: &[u8],
    rets: &mut [u64],
    made: &mut usize,
    refused: &mut BpfHostRefused,
) -> u32
    ensures { ((size : ℕ) × (size * length rets.old ≡ length contexts.now)
        × AnswersMany tenant program contexts.now size rets.old rets.new made.new refused.old refused.new result handle.old.owner.host handle.new.owner.host)
        ⊎ (((size : ℕ) → size * length rets.old ≢ length contexts.now)
        × (result ≡ 102) × (rets.new ≡ rets.old) × (made.new ≡ 0) × (refused.new ≡ refused.old) × (handle.new.owner.host ≡ handle.old.owner.host)) }
{
    *made = 0;
    let count = rets.len();
    let Some(size) = size_of_each(contexts.len(), count) else {
        return 102;
    };
    let Some(mut host) = handle.take(alloc) else {
        return 100;
    };
    let ended = host.run_many(tenant, program, contexts, size, rets);
    handle.put(host);
    match ended {
        Ok(()) => {
            *made = count;
            0
        }
        Err(stopped) => {
            *made = stopped.ended;
            let answer = Answer::Replied(stopped.reply);
            answer.write_refused(refused);
            answer.code()
        }
    }
}

/// The size of each of so many contexts, which have so many bytes together.
fn size_of_each(bytes: usize, count: usize) -> Option<usize>
    ensures some { IfSome result (λ size. size * count ≡ bytes) }
    ensures none { IfNone result ((size : ℕ) → size * count ≢ bytes) }
{
    if count == 0 {
        return if bytes == 0 { Some(0) } else { None };
    }
    if bytes % count == 0 {
        Some(bytes / count)
    } else {
        None
    }
}
