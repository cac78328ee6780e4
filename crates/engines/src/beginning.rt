use host_core::Bytes;

/// What opens a run of a tenant's loaded program, with the context where it is.
#[derive(Clone, Copy)]
pub struct Beginning<'a> {
    pub tenant: u32,
    pub program: u32,
    pub context: &'a Bytes,
}
