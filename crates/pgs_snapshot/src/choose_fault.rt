ghost use Rattle.std.specs.Prelude.{◌≡◌};

use pgs_base::Memory;
use pgs_journal::ScanFault;
use pgs_world::AreaFault;

/// Why no store was chosen.
#[derive(Clone, Copy, PartialEq, Eq)]
pub enum ChooseFault {
    /// There was no memory for the bytes of an area or for its payloads.
    Memory,
    /// A call on an area failed: the count of area faults rose.
    DiskFault,
    /// No area is a store, and none is foreign.
    NoStore,
    /// No area is a store, and one is another program's file.
    Foreign,
    /// The chosen store is damaged at this record.
    BadRecord { number: u64 },
}

impl From<AreaFault> for ChooseFault {
    ghost use Rattle.pgs_snapshot.specs.declared.choose_fault.ChooseFault.TheVariants as faults;

    ghost from_gives = { λ _ e. e ≡ faults.DiskFault };

    fn from(_: AreaFault) -> ChooseFault {
        ChooseFault::DiskFault
    }
}

impl From<ScanFault> for ChooseFault {
    ghost use Rattle.pgs_snapshot.specs.Faults.{of_scan};

    ghost from_gives = { λ fault e. e ≡ of_scan fault };

    fn from(fault: ScanFault) -> ChooseFault {
        match fault {
            ScanFault::Memory => ChooseFault::Memory,
            ScanFault::AreaFault => ChooseFault::DiskFault,
        }
    }
}
