//! A host file that is served: what it may ask for, and in which order it is done.

ghost use Rattle.std.specs.Prelude.{◌≡◌, ◌≤◌, length, All, IfErr, IfOk, IfSome};
ghost use Rattle.host_types.specs.OptionTable.{AreOptions};
ghost use Rattle.page_table.specs.Limits.{AreLimits};
ghost use Rattle.host_file.specs.Faults.{IsBad};
ghost use Rattle.host_file.specs.HostFile.{IsFileText, max_bytes};
ghost use Rattle.host_file.specs.Served.{IsServedCommand};
ghost use Rattle.host_file.specs.declared.file.HostFile.{HostFile};
ghost use Rattle.tenant_workers.specs.Plans.{IsFor};
ghost use Rattle.serving.specs.Prepared.{visits_in};
ghost use Rattle.serving.specs.Opened.{IsNewPlan};
ghost use Rattle.serving.specs.Served.{AreNotServed, IsServedSo};

use crate::report::print_stop;
use crate::results::print_served;
use crate::runs::{add_runs, visits_of};
use crate::setup::open_all;
use crate::shared_host::{SharedHost, open_host, plans_of};
use engines::{file_from, refuse, written};
use host_file::{FileFault, HostFile, require_served};
use std::alloc::{AllocError, Global};
use std::io::{Read, Write};
use std::sync::Wait;
use std::thread::Threads;
use tenant_workers::{Gate, Plan, ScanPlan, Shared, serve};

/// Serves the host file that the reader gives. Its maps, programs, values and options are made, loaded, written and
/// set in the file's order, and the first refusal among them is written and ends it: of an option only `BadOption`,
/// since no page shares a frame yet. Then a thread a tenant makes the tenant's runs in the file's order, while one for
/// the scanner makes all visits. When they have ended each run or its refusal is one line, by tenant and in order, and
/// then each value that is looked up. What a refusal means goes to `diagnostics`, and how far the threads are to the gate
/// (`Open`: nobody waits at it). Answers the status: 0, or 1 if a refusal was written. A bad file applies nothing.
#[tactic(auto, using(crate::proofs::Served::status_few, crate::proofs::Served::none_served, crate::proofs::Served::some_unserved))]
pub fn serve_file<T: Threads + Wait + Sync, R: Read, W: Write, E: Write, G: Gate + Sync>(
    rt: &T,
    alloc: Global,
    reader: &mut R,
    writer: &mut W,
    diagnostics: &mut E,
    gate: &G,
) -> Result<u8, FileFault>
    ensures status { IfOk result (λ status. status ≤ 1) }
    ensures served { IfOk result (λ status. IfSome (R.remaining reader.old) (λ bytes.
        (length bytes ≤ max_bytes) × ((file : HostFile) × IsFileText bytes file × All (IsServedCommand file.tenants) file.commands
        × IsServedSo file status (W.contents writer.old) (W.contents writer.new)))) }
    ensures bad { IfErr result (λ fault. IsBad fault → (writer.new ≡ writer.old) × (diagnostics.new ≡ diagnostics.old)) }
    ensures no_file { IfErr result (λ fault. IsBad fault → IfSome (R.remaining reader.old) AreNotServed) }
{
    let file = file_from(alloc, reader)?;
    require_served(&file)?;
    let status = serve_document(rt, alloc, &file, writer, diagnostics, gate);
    let flushed = writer.flush();
    let status = status?;
    written(flushed)?;
    Ok(status)
}

/// Serves a host file that may be served.
fn serve_document<T: Threads + Wait + Sync, W: Write, E: Write, G: Gate + Sync>(
    rt: &T,
    alloc: Global,
    file: &HostFile,
    writer: &mut W,
    diagnostics: &mut E,
    gate: &G,
) -> Result<u8, FileFault>
    ensures served { IfOk result (λ status. IsServedSo file.now status (W.contents writer.old) (W.contents writer.new)) }
    ensures bad { IfErr result (λ fault. ¬ IsBad fault) }
{
    match open_host(alloc, file) {
        Ok(shared_host) => serve_host(rt, alloc, shared_host, file, writer, diagnostics, gate),
        Err(fault) => {
            refuse(file, fault, writer, diagnostics)?;
            Ok(1)
        }
    }
}

/// Serves a host file by a new memory.
fn serve_host<T: Threads + Wait + Sync, W: Write, E: Write, G: Gate + Sync>(
    rt: &T,
    alloc: Global,
    shared_host: SharedHost,
    file: &HostFile,
    writer: &mut W,
    diagnostics: &mut E,
    gate: &G,
) -> Result<u8, FileFault>
    requires count { length shared_host.seats.items ≡ file.now.tenants }
    requires limits { AreLimits file.now.frames file.now.tenants × AreOptions file.now.options }
    ensures served { IfOk result (λ status. IsServedSo file.now status (W.contents writer.old) (W.contents writer.new)) }
    ensures bad { IfErr result (λ fault. ¬ IsBad fault) }
{
    let SharedHost {
        shared,
        seats,
        scanner,
    } = shared_host;
    let Ok(tenants) = plans_of(alloc, &shared, seats) else {
        return Err(FileFault::OutOfMemory(AllocError));
    };
    let mut plan = Plan {
        tenants,
        scan: ScanPlan {
            shared: &shared,
            seat: scanner,
            visits: visits_of(file.commands.as_slice(), file.options.pages_to_scan),
        },
    };
    serve_plan(
        rt,
        alloc,
        &shared,
        &mut plan,
        file,
        writer,
        diagnostics,
        gate,
    )
}

/// Serves a host file by the plans of its tenants.
fn serve_plan<T: Threads + Wait + Sync, W: Write, E: Write, G: Gate + Sync>(
    rt: &T,
    alloc: Global,
    shared: &Shared,
    plan: &mut Plan<'_>,
    file: &HostFile,
    writer: &mut W,
    diagnostics: &mut E,
    gate: &G,
) -> Result<u8, FileFault>
    requires own { All (IsFor shared.now) plan.old.tenants.items }
    requires new { All IsNewPlan plan.old.tenants.items }
    requires count { length plan.old.tenants.items ≡ file.now.tenants }
    requires limits { AreLimits file.now.frames file.now.tenants × AreOptions file.now.options }
    requires scan { plan.old.scan.shared.now ≡ shared.now }
    requires visits { plan.old.scan.visits ≡ visits_in file.now.options.pages_to_scan file.now.commands }
    ensures served { IfOk result (λ status. IsServedSo file.now status (W.contents writer.old) (W.contents writer.new)) }
    ensures bad { IfErr result (λ fault. ¬ IsBad fault) }
{
    let commands = file.commands.as_slice();
    if let Err(stop) = open_all(rt, alloc, shared, &mut plan.tenants, commands) {
        return print_stop(alloc, &stop, commands, writer, diagnostics);
    }
    if add_runs(alloc, shared, &mut plan.tenants, commands).is_err() {
        return Err(FileFault::OutOfMemory(AllocError));
    }
    if let Err(fault) = serve(rt, alloc, shared, plan, gate) {
        refuse(file, fault, writer, diagnostics)?;
        return Ok(1);
    }
    print_served(rt, alloc, &mut plan.tenants, commands, writer, diagnostics)
}
