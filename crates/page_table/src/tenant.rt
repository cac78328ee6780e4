/// What is recorded of a tenant beside its maps.
#[derive(Clone, Copy)]
pub struct Tenant {
    /// How many frames are reserved for the tenant's open run.
    pub reserve: u32,
    /// Whether the tenant has an open run.
    pub running: bool,
}

impl Tenant {
    /// A tenant that has no open run.
    pub(crate) const NO_RUN: Tenant = Tenant {
        reserve: 0,
        running: false,
    };
}
