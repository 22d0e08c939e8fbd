ghost use Rattle.std.specs.Prelude.{◌≡◌};

use pgs_base::Memory;
use pgs_world::AreaFault;

/// Why an area wasn't read.
#[derive(Clone, Copy, Debug, PartialEq, Eq)]
pub enum ScanFault {
    /// There was no memory for its bytes and payloads.
    Memory,
    /// A call on it failed: the count of area faults rose.
    AreaFault,
}

impl From<Memory> for ScanFault {
    ghost use Rattle.pgs_journal.specs.declared.scan_fault.ScanFault.TheVariants as faults;

    ghost from_gives = { λ _ e. e ≡ faults.Memory };

    fn from(_: Memory) -> ScanFault {
        ScanFault::Memory
    }
}

impl From<AreaFault> for ScanFault {
    ghost use Rattle.pgs_journal.specs.declared.scan_fault.ScanFault.TheVariants as faults;

    ghost from_gives = { λ _ e. e ≡ faults.AreaFault };

    fn from(_: AreaFault) -> ScanFault {
        ScanFault::AreaFault
    }
}
