//! The structs that C fills or reads.

use host_types::Fault;

/// The options of a new host.
#[repr(C)]
#[derive(Clone, Copy)]
pub struct BpfHostOptions {
    pub pages_to_scan: u32,
    pub run: u32,
    pub use_zero_pages: u32,
    pub max_page_sharing: u32,
}

/// What a refusal says beside its number: the slot of a program's instruction, or the frames that are needed and that may be had.
#[repr(C)]
#[derive(Clone, Copy)]
pub struct BpfHostRefused {
    pub slot: u32,
    pub need: u32,
    pub have: u32,
}

impl BpfHostRefused {
    ghost use Rattle.std.specs.Prelude.{◌≡◌};
    ghost use Rattle.host_handle.specs.Codes.{fault_written};

    /// Writes what a refusal says beside its number.
    pub(crate) fn write(&mut self, fault: &Fault)
        ensures { self.new ≡ fault_written fault.now self.old }
    {
        match fault {
            Fault::Program(refused) => self.slot = refused.slot,
            Fault::NoFrames { need, have } => {
                self.need = *need;
                self.have = *have;
            }
            _ => {}
        }
    }
}

/// The shape of a map: the bytes of a value, and how many values there are.
#[repr(C)]
#[derive(Clone, Copy)]
pub struct BpfHostShape {
    pub value_size: u32,
    pub entries: u32,
}

/// What a run returned, and how many steps it made.
#[repr(C)]
#[derive(Clone, Copy)]
pub struct BpfHostRun {
    pub ret: u64,
    pub steps: u32,
}

/// The counters, by the names of the kernel's manual.
#[repr(C)]
#[derive(Clone, Copy)]
pub struct BpfHostCounters {
    pub full_scans: u64,
    pub pages_shared: u32,
    pub pages_sharing: u32,
    pub pages_unshared: u32,
    pub pages_volatile: u32,
    pub ksm_zero_pages: u32,
    pub stable_node_chains: u32,
    pub stable_node_dups: u32,
    pub frames_free: u32,
}
