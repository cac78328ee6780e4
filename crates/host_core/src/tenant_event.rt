use host_types::MapNo;

/// An event of a tenant: what it says beside the tenant's number, with its bytes where they are.
#[derive(Clone, Copy)]
pub(crate) enum TenantEvent<'a> {
    CreateMap {
        value_size: u32,
        entries: u32,
        mergeable: bool,
    },
    Load {
        text: &'a [u8],
        context_size: u32,
    },
    Begin {
        program: u32,
        context: &'a [u8],
    },
    Step,
    Update {
        map: MapNo,
        key: u32,
        value: &'a [u8],
    },
    Lookup {
        map: MapNo,
        key: u32,
    },
    Unload {
        program: u32,
    },
    DropMap {
        map: MapNo,
    },
}
