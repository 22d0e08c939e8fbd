use pgs_base::Memory;
use pgs_decide::GuardRefusal;
use pgs_schema::{SchemaFault, SchemaUnread};
use pgs_snapshot::ChooseFault;
use pgs_violation::{Rejection, Violation};
use thiserror::Error;

/// Why there is no guard: there was no memory, or the text is no schema.
pub type GuardFault = SchemaUnread;

/// Why no store was made.
#[derive(Debug, Drop, Error)]
pub enum LoadFault {
    /// There was no memory.
    #[error("there is not enough memory")]
    Memory,
    /// A call on an area failed: the count of area faults rose.
    #[error("a call on an area failed")]
    DiskFault,
    /// 31: an area is a store.
    #[error("an area is a store")]
    AlreadyStore,
    /// 32: an area is another program's file, and none is a store.
    #[error("an area is the file of another program")]
    Foreign,
    /// 10 to 19: the text is no schema.
    #[error("the text is no schema: {0}")]
    Schema(SchemaFault),
}

/// Why no store was recovered.
#[derive(Debug, Drop, Error)]
pub enum RecoverFault {
    /// There was no memory.
    #[error("there is not enough memory")]
    Memory,
    /// A call on an area failed: the count of area faults rose.
    #[error("a call on an area failed")]
    DiskFault,
    /// 30: no area is a store, and none is another program's file.
    #[error("no area is a store")]
    NoStore,
    /// 32: an area is another program's file, and none is a store.
    #[error("an area is the file of another program")]
    Foreign,
    /// 33: the chosen store is damaged at this record.
    #[error("record {number} is damaged")]
    BadRecord { number: u64 },
    /// 34: this record is the first that is rejected: its transaction, its snapshot's graph, or the graph so far under its schema.
    #[error("record {number} is rejected")]
    BadHistory { number: u64, rejection: Rejection },
    /// 10 to 19: a stored text, the first or a later one, is no schema.
    #[error("the text is no schema: {0}")]
    Schema(SchemaFault),
}

/// Why a store didn't take a transaction.
#[derive(Debug, Drop, Error)]
pub enum ApplyFault {
    /// There was no memory. It comes before the first call on the world.
    #[error("there is not enough memory")]
    Memory,
    /// A call on an area failed: the count of area faults rose. The transaction may be in the areas or not.
    #[error("a call on an area failed")]
    DiskFault,
    /// An earlier call on this store answered `DiskFault`, so it has to be recovered.
    #[error("an earlier call failed, so the store has to be recovered")]
    NeedsReopen,
    /// The transaction is rejected.
    #[error("the transaction is rejected")]
    Rejected(Rejection),
}

/// Why a store made no checkpoint.
#[derive(Debug, Drop, Error)]
pub enum CheckpointFault {
    /// There was no memory. It comes before the first call on the world.
    #[error("there is not enough memory")]
    Memory,
    /// A call on an area failed: the count of area faults rose.
    #[error("a call on an area failed")]
    DiskFault,
    /// An earlier call on this store answered `DiskFault`, so it has to be recovered.
    #[error("an earlier call failed, so the store has to be recovered")]
    NeedsReopen,
    /// 37: the store has the last epoch.
    #[error("the store has the last epoch")]
    EpochsSpent,
}

/// Why a graph isn't put under another schema.
#[derive(Drop)]
pub(crate) enum SchemaRefusal {
    /// There was no memory.
    Memory,
    /// The text is no schema.
    Schema(SchemaFault),
    /// The graph's first violation under it.
    Violated(Violation),
}

/// Why a store wasn't put under another schema.
#[derive(Debug, Drop, Error)]
pub enum EvolveFault {
    /// There was no memory. It comes before the first call on the world.
    #[error("there is not enough memory")]
    Memory,
    /// A call on an area failed: the count of area faults rose. The schema may be in the areas or not.
    #[error("a call on an area failed")]
    DiskFault,
    /// An earlier call on this store answered `DiskFault`, so it has to be recovered.
    #[error("an earlier call failed, so the store has to be recovered")]
    NeedsReopen,
    /// 41: the chosen area is of the first format, which has no later schemas. A checkpoint makes a store of the second.
    #[error("the store is of the first format, which has no later schemas")]
    OldFormat,
    /// 10 to 19: the text is no schema.
    #[error("the text is no schema: {0}")]
    Schema(SchemaFault),
    /// 25 to 29 and 39: the graph's first violation under the schema.
    #[error("the graph violates the schema")]
    Violated(Violation),
}

impl From<Memory> for ApplyFault {
    ghost use Rattle.std.specs.Prelude.{◌≡◌};
    ghost use Rattle.pgs_store.specs.declared.fault.ApplyFault.TheVariants as faults;

    ghost from_gives = { λ _ e. e ≡ faults.Memory };

    fn from(_: Memory) -> ApplyFault {
        ApplyFault::Memory
    }
}

impl From<GuardRefusal> for ApplyFault {
    ghost use Rattle.pgs_store.specs.Refused.{of_guard};
    ghost use Rattle.std.specs.Prelude.{◌≡◌};

    ghost from_gives = { λ refusal e. e ≡ of_guard refusal };

    fn from(refusal: GuardRefusal) -> ApplyFault {
        match refusal {
            GuardRefusal::Memory => ApplyFault::Memory,
            GuardRefusal::Rejected(rejection) => ApplyFault::Rejected(rejection),
        }
    }
}

impl From<Memory> for LoadFault {
    ghost use Rattle.std.specs.Prelude.{◌≡◌};
    ghost use Rattle.pgs_store.specs.declared.fault.LoadFault.TheVariants as faults;

    ghost from_gives = { λ _ e. e ≡ faults.Memory };

    fn from(_: Memory) -> LoadFault {
        LoadFault::Memory
    }
}

impl From<SchemaUnread> for LoadFault {
    ghost use Rattle.std.specs.Prelude.{◌≡◌};
    ghost use Rattle.pgs_store.specs.Unread.{of_load};

    ghost from_gives = { λ unread e. e ≡ of_load unread };

    fn from(unread: SchemaUnread) -> LoadFault {
        match unread {
            SchemaUnread::Memory => LoadFault::Memory,
            SchemaUnread::Schema(fault) => LoadFault::Schema(fault),
        }
    }
}

impl From<Memory> for RecoverFault {
    ghost use Rattle.std.specs.Prelude.{◌≡◌};
    ghost use Rattle.pgs_store.specs.declared.fault.RecoverFault.TheVariants as faults;

    ghost from_gives = { λ _ e. e ≡ faults.Memory };

    fn from(_: Memory) -> RecoverFault {
        RecoverFault::Memory
    }
}

impl From<SchemaUnread> for RecoverFault {
    ghost use Rattle.std.specs.Prelude.{◌≡◌};
    ghost use Rattle.pgs_store.specs.Unread.{of_recover};

    ghost from_gives = { λ unread e. e ≡ of_recover unread };

    fn from(unread: SchemaUnread) -> RecoverFault {
        match unread {
            SchemaUnread::Memory => RecoverFault::Memory,
            SchemaUnread::Schema(fault) => RecoverFault::Schema(fault),
        }
    }
}

impl From<ChooseFault> for RecoverFault {
    ghost use Rattle.std.specs.Prelude.{◌≡◌};
    ghost use Rattle.pgs_store.specs.Unread.{of_choice};

    ghost from_gives = { λ fault e. e ≡ of_choice fault };

    fn from(fault: ChooseFault) -> RecoverFault {
        match fault {
            ChooseFault::Memory => RecoverFault::Memory,
            ChooseFault::DiskFault => RecoverFault::DiskFault,
            ChooseFault::NoStore => RecoverFault::NoStore,
            ChooseFault::Foreign => RecoverFault::Foreign,
            ChooseFault::BadRecord { number } => RecoverFault::BadRecord { number },
        }
    }
}

impl From<Memory> for CheckpointFault {
    ghost use Rattle.std.specs.Prelude.{◌≡◌};
    ghost use Rattle.pgs_store.specs.declared.fault.CheckpointFault.TheVariants as faults;

    ghost from_gives = { λ _ e. e ≡ faults.Memory };

    fn from(_: Memory) -> CheckpointFault {
        CheckpointFault::Memory
    }
}

impl From<Memory> for SchemaRefusal {
    ghost use Rattle.std.specs.Prelude.{◌≡◌};
    ghost use Rattle.pgs_store.specs.declared.fault.SchemaRefusal.TheVariants as faults;

    ghost from_gives = { λ _ e. e ≡ faults.Memory };

    fn from(_: Memory) -> SchemaRefusal {
        SchemaRefusal::Memory
    }
}

impl From<SchemaUnread> for SchemaRefusal {
    ghost use Rattle.std.specs.Prelude.{◌≡◌};
    ghost use Rattle.pgs_store.specs.Unread.{of_schema};

    ghost from_gives = { λ unread e. e ≡ of_schema unread };

    fn from(unread: SchemaUnread) -> SchemaRefusal {
        match unread {
            SchemaUnread::Memory => SchemaRefusal::Memory,
            SchemaUnread::Schema(fault) => SchemaRefusal::Schema(fault),
        }
    }
}

impl From<Memory> for EvolveFault {
    ghost use Rattle.std.specs.Prelude.{◌≡◌};
    ghost use Rattle.pgs_store.specs.declared.fault.EvolveFault.TheVariants as faults;

    ghost from_gives = { λ _ e. e ≡ faults.Memory };

    fn from(_: Memory) -> EvolveFault {
        EvolveFault::Memory
    }
}

impl From<SchemaUnread> for EvolveFault {
    ghost use Rattle.std.specs.Prelude.{◌≡◌};
    ghost use Rattle.pgs_store.specs.Unread.{of_evolve};

    ghost from_gives = { λ unread e. e ≡ of_evolve unread };

    fn from(unread: SchemaUnread) -> EvolveFault {
        match unread {
            SchemaUnread::Memory => EvolveFault::Memory,
            SchemaUnread::Schema(fault) => EvolveFault::Schema(fault),
        }
    }
}

impl From<SchemaRefusal> for EvolveFault {
    ghost use Rattle.std.specs.Prelude.{◌≡◌};
    ghost use Rattle.pgs_store.specs.Evolves.{of_refusal};

    ghost from_gives = { λ refusal e. e ≡ of_refusal refusal };

    fn from(refusal: SchemaRefusal) -> EvolveFault {
        match refusal {
            SchemaRefusal::Memory => EvolveFault::Memory,
            SchemaRefusal::Schema(fault) => EvolveFault::Schema(fault),
            SchemaRefusal::Violated(violation) => EvolveFault::Violated(violation),
        }
    }
}
