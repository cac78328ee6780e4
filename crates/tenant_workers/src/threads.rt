//! Threads that do a job each, beside one that scans.

ghost use Rattle.std.specs.Prelude.{◌≡◌, ◌≤◌, [], All, IfOk, vec_len, vec_capacity};
ghost use Rattle.tenant_workers.specs.Jobs.{AreEach, HasRoomForJobs, IsJobBegun, IsJobDone, MayBecome};
ghost use Rattle.tenant_workers.specs.Plans.{IsScanServed};

use crate::gate::Gate;
use crate::plans::Scanning;
use std::alloc::{AllocError, Global};
use std::snapshot::Snapshot;
use std::sync::Wait;
use std::sync::atomic::{AtomicUsize, Ordering};
use std::thread;
use std::thread::{Promise, PromisedHandle, Scope, Threads};

/// What a thread is handed, and gives back when it is done.
pub(crate) trait Job {
    /// When it may be done.
    ghost is_ready: { Self → Type 0 };

    /// What comes of it when it is done.
    ghost is_done: { Self → Self → Type 0 };

    /// What comes of it where no thread can be started.
    ghost is_refused: { Self → Self → Type 0 };

    /// Does it.
    fn run<R: Wait>(self, rt: &R, alloc: Global, gate: &impl Gate) -> Self
        requires { is_ready self }
        ensures { is_done self result };

    /// Gives it back where no thread can be started.
    fn refuse(self) -> Self
        requires { is_ready self }
        ensures { is_refused self result };
}

/// A thread's promise, that it gives back what may come of its job.
#[derive(Drop)]
pub(crate) struct Becomes<T: Drop>(Snapshot<T>);

impl<T: Job + Drop> Promise<T> for Becomes<T> {
    ghost kept_by = { λ promise done. MayBecome T.is_done T.is_refused promise.0.value done };
}

/// A job that was begun: its thread, or the job as it was refused.
pub(crate) type Begun<T> = Result<PromisedHandle<T, Becomes<T>>, T>;

/// Room for jobs: while they are done, and for what comes of them.
#[derive(Drop)]
pub(crate) struct Room<T: Job + Drop> {
    begun: Vec<Begun<T>>,
    done: Vec<T>,
}

impl<T: Job + Drop> Room<T> {
    /// Room for so many jobs.
    pub(crate) fn new(alloc: Global, jobs: usize) -> Result<Room<T>, AllocError>
        ensures { IfOk result (HasRoomForJobs jobs) }
    {
        Ok(Room {
            begun: Vec::with_capacity(alloc, jobs)?,
            done: Vec::with_capacity(alloc, jobs)?,
        })
    }
}

/// Has each job done by a thread of its own, beside a thread that scans, and waits until all have ended. What came
/// of the jobs stands in their order.
pub(crate) fn run_jobs<'x, 'a, R, G, T>(
    rt: &R,
    alloc: Global,
    jobs: Vec<T>,
    room: Room<T>,
    scan: Scanning<'x, 'a>,
    gate: &G,
) -> (Vec<T>, Scanning<'x, 'a>)
where
    R: Threads + Wait + Sync,
    G: Gate + Sync,
    T: Job + Send + Drop,
    requires ready { All T.is_ready jobs.items }
    requires room { HasRoomForJobs (vec_len jobs) room }
    ensures jobs { AreEach (MayBecome T.is_done T.is_refused) jobs.items result.0.items }
    ensures lent { result.1.plan.ghost_name ≡ scan.entry.plan.ghost_name }
    ensures scan { IsScanServed scan.entry.plan.now result.1.plan.now }
{
    let Room { begun, done } = room;
    let none_refused = AtomicUsize::new(usize::MAX);
    let refused = &none_refused;
    thread::scope(
        thread::scope_env(),
        rt,
        move |scope| -> (Vec<T>, Scanning<'_, '_>)
            requires ready { All T.is_ready jobs.items }
            requires none_begun { begun.items ≡ [] }
            requires room_begun { vec_len jobs ≤ vec_capacity begun }
            requires none_done { done.items ≡ [] }
            requires room_done { vec_len jobs ≤ vec_capacity done }
            ensures jobs { AreEach (MayBecome T.is_done T.is_refused) jobs.items result.0.items }
            ensures lent { result.1.plan.ghost_name ≡ scan.entry.plan.ghost_name }
            ensures scan { IsScanServed scan.entry.plan.now result.1.plan.now }
        {
            let scanner = begin(scope, rt, alloc, jobs.len(), scan, gate, refused);
            let mut begun = begun;
            let mut done = done;
            begin_all(scope, rt, alloc, jobs, &mut begun, gate, refused);
            end_all(rt, begun, &mut done);
            let scanned = match scanner {
                Ok(thread) => thread.join(rt),
                Err(refused) => refused,
            };
            (done, scanned)
        },
    )
}

/// Begins all jobs, in order.
fn begin_all<'s, E, R: Threads + Wait + Sync, G: Gate + Sync, T: Job + Send + Drop + 's>(
    scope: &Scope<'s, E>,
    rt: &'s R,
    alloc: Global,
    jobs: Vec<T>,
    begun: &mut Vec<Begun<T>>,
    gate: &'s G,
    refused: &'s AtomicUsize,
)
    requires ready { All T.is_ready jobs.items }
    requires none { begun.old.items ≡ [] }
    requires room { vec_len jobs ≤ vec_capacity begun.old }
    ensures begun { AreEach (IsJobBegun (MayBecome T.is_done T.is_refused)) jobs.items begun.new.items }
{
    for job in jobs {
        let number = begun.len();
        begun.push_reserved(begin(scope, rt, alloc, number, job, gate, refused));
    }
}

/// Starts a job's thread. A closure that comes back unstarted holds the job: called here, it finds its own number
/// in `refused` and gives the job back refused. No thread finds its number there.
fn begin<'s, E, R: Threads + Wait + Sync, G: Gate + Sync, T: Job + Send + Drop + 's>(
    scope: &Scope<'s, E>,
    rt: &'s R,
    alloc: Global,
    number: usize,
    job: T,
    gate: &'s G,
    refused: &'s AtomicUsize,
) -> Begun<T>
    requires { T.is_ready job }
    ensures { IsJobBegun (MayBecome T.is_done T.is_refused) job result }
{
    let promise = Becomes(Snapshot::of(&job));
    let started = scope.spawn_with(
        promise,
        move || -> T
            requires { T.is_ready job }
            ensures { MayBecome T.is_done T.is_refused job result }
        {
            if refused.load(Ordering::SeqCst) == number {
                return job.refuse();
            }
            job.run(rt, alloc, gate)
        },
    );
    match started {
        Ok(thread) => Ok(thread),
        Err(unstarted) => {
            refused.store(number, Ordering::SeqCst);
            Err((unstarted.value)())
        }
    }
}

/// Joins the threads of all jobs, in order.
fn end_all<R: Threads, T: Job + Drop>(rt: &R, begun: Vec<Begun<T>>, done: &mut Vec<T>)
    requires none { done.old.items ≡ [] }
    requires room { vec_len begun ≤ vec_capacity done.old }
    ensures { AreEach (IsJobDone (MayBecome T.is_done T.is_refused)) begun.items done.new.items }
{
    for one in begun {
        let job = match one {
            Ok(thread) => thread.join(rt),
            Err(refused) => refused,
        };
        done.push_reserved(job);
    }
}
