//! Open runs: the frames reserved for them, and the pages that they pinned.
ghost use Rattle.std.specs.Prelude.{◌≡◌, ◌+◌, ◌*◌, ◌≤◌, ℕ, length, replicate, slice_index_or, slice_set, false};
ghost use Rattle.host_types.specs.Pins.{released, unpinned_from};
ghost use Rattle.page_table.specs.State.{part, have_of, unreserved_tenant};
ghost use Rattle.page_table.specs.Changes.{OtherTenantsUnchanged, pages_of_map, with_pins, with_reserve, with_run, without_run, with_record, opened, ended};

use crate::memory::{Memory, map_index, pages};
use crate::tenant::Tenant;
use host_types::MapNo;

impl Memory {
    /// How many frames are recorded as reserved for a tenant's open run, none where there is no such
    /// tenant.
    #[tactic(auto, unfolding(crate::specs::View::view_of, crate::specs::State::part))]
    pub fn reserve(&self, tenant: u32) -> u32
        ensures { result ≡ (part self.now tenant).reserve }
    {
        tenant_in(&self.tenants, tenant).reserve
    }

    /// Whether a tenant has an open run, false where there is no such tenant.
    #[tactic(auto, unfolding(crate::specs::View::view_of, crate::specs::State::part))]
    pub fn is_running(&self, tenant: u32) -> bool
        ensures { result ≡ (part self.now tenant).running }
    {
        tenant_in(&self.tenants, tenant).running
    }

    /// What holds of each memory's pins: only pages of a tenant that has an open run are pinned. The
    /// function does nothing.
    pub fn only_runs_pin(&self)
        ensures { (t : ℕ) → length (part self.now t).maps ≡ 8 → (part self.now t).running ≡ false
            → (part self.now t).pins ≡ replicate 2048 false }
    {
        self.table.facts();
    }

    /// How many pages of a tenant's map aren't pinned, none where there is no such map. The number is
    /// kept, and no page is looked at.
    pub fn unpinned(&self, tenant: u32, map: MapNo) -> u32
        ensures { result ≡
            unpinned_from (part self.now tenant).pins (map * 256) (pages_of_map (part self.now tenant) map) }
    {
        self.table.facts();
        match self.shape(tenant, map) {
            Some(shape) => pages(&shape) - self.pass.pins.pinned(map_index(tenant, map)),
            None => 0,
        }
    }

    /// Records how many frames are reserved for a tenant's open run, in place of what was recorded
    /// of it. There are so many free frames that no other tenant's record has.
    pub fn record(&mut self, tenant: u32, reserve: u32)
        requires there { length (part self.old tenant).maps ≡ 8 }
        requires room { reserve ≤ have_of self.old + (part self.old tenant).reserve }
        ensures recorded { part self.new tenant ≡ with_reserve reserve (part self.old tenant) }
        ensures others { OtherTenantsUnchanged tenant self.old self.new }
        ensures have { have_of self.new + reserve ≡ have_of self.old + (part self.old tenant).reserve }
        ensures all { self.new ≡ with_record self.old tenant reserve }
    {
        self.only_runs_pin();
        let running = self.is_running(tenant);
        self.keep(tenant, Tenant { reserve, running });
    }

    /// Opens a tenant's run, for which so many frames are reserved. There are so many free frames that
    /// no other tenant's record has.
    pub fn begin_run(&mut self, tenant: u32, reserve: u32)
        requires there { length (part self.old tenant).maps ≡ 8 }
        requires room { reserve ≤ have_of self.old + (part self.old tenant).reserve }
        ensures begun { part self.new tenant ≡ with_run reserve (part self.old tenant) }
        ensures others { OtherTenantsUnchanged tenant self.old self.new }
        ensures have { have_of self.new + reserve ≡ have_of self.old + (part self.old tenant).reserve }
        ensures all { self.new ≡ opened self.old tenant reserve }
    {
        self.keep(
            tenant,
            Tenant {
                reserve,
                running: true,
            },
        );
    }

    /// Opens a tenant's run as `begin_run` does, where nothing is reserved for it and nothing was: that it is open is all that is
    /// written.
    pub fn begin_unreserved(&mut self, tenant: u32)
        requires there { length (part self.old tenant).maps ≡ 8 }
        requires none { (part self.old tenant).reserve ≡ 0 }
        ensures begun { part self.new tenant ≡ with_run 0 (part self.old tenant) }
        ensures others { OtherTenantsUnchanged tenant self.old self.new }
        ensures all { self.new ≡ opened self.old tenant 0 }
    {
        self.tenants[tenant as usize].running = true;
    }

    /// Ends a tenant's run: no frame is reserved for it, and none of the tenant's pages is pinned. The
    /// call looks at the pages of maps that have pinned ones, and at no others. It is part of each caller, since a short run is
    /// mostly its beginning and its end.
    #[inline(always)]
    pub fn end_run(&mut self, tenant: u32)
        requires { length (part self.old tenant).maps ≡ 8 }
        ensures ended { part self.new tenant ≡ without_run (part self.old tenant) }
        ensures others { OtherTenantsUnchanged tenant self.old self.new }
        ensures have { have_of self.new ≡ have_of self.old + (part self.old tenant).reserve }
        ensures all { self.new ≡ ended self.old tenant }
    {
        self.unpin(tenant);
        self.keep(tenant, Tenant::NO_RUN);
    }

    /// Keeps what is recorded of a tenant, in place of what was. Where it has no open run then, none of
    /// its pages is pinned.
    fn keep(&mut self, tenant: u32, kept: Tenant)
        requires there { length (part self.old tenant).maps ≡ 8 }
        requires none { kept.running ≡ false → (part self.old tenant).pins ≡ replicate 2048 false }
        requires room { kept.reserve ≤ have_of self.old + (part self.old tenant).reserve }
        ensures part { part self.new tenant ≡
            record (part self.old tenant) { reserve = kept.reserve; running = kept.running } }
        ensures others { OtherTenantsUnchanged tenant self.old self.new }
        ensures have { have_of self.new + kept.reserve ≡ have_of self.old + (part self.old tenant).reserve }
        ensures all { self.new ≡ record self.old { tenants = slice_set self.old.tenants tenant kept } }
    {
        let recorded = &mut self.tenants[tenant as usize];
        self.reserved = self.reserved - recorded.reserve + kept.reserve;
        recorded.reserve = kept.reserve;
        recorded.running = kept.running;
    }

    /// No page of a tenant is pinned any more.
    fn unpin(&mut self, tenant: u32)
        requires { length (part self.old tenant).maps ≡ 8 }
        ensures part { part self.new tenant ≡ with_pins (replicate 2048 false) (part self.old tenant) }
        ensures others { OtherTenantsUnchanged tenant self.old self.new }
        ensures have { have_of self.new ≡ have_of self.old }
        ensures all { self.new ≡ record self.old { sharing = released self.old.sharing tenant } }
    {
        self.pass.pins.release_all(map_index(tenant, 0));
    }
}

/// What is recorded of a tenant.
fn tenant_in(tenants: &[Tenant], tenant: u32) -> Tenant
    ensures { result ≡ slice_index_or tenants.now tenant unreserved_tenant }
{
    match tenants.get(tenant as usize) {
        Some(tenant) => *tenant,
        None => Tenant::NO_RUN,
    }
}
