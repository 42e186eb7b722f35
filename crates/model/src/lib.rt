// The types of one ITS frame: the unit, its commands and its answers. What they mean is said in specs/.
#![tactic(auto)]

// Numbers of five kinds, kept apart as in the crate.
#[derive(Clone, Copy, Debug, Default, PartialEq, Eq)]
pub struct ItsDeviceId(pub u32);

#[derive(Clone, Copy, Debug, Default, PartialEq, Eq)]
pub struct EventId(pub u32);

#[derive(Clone, Copy, Debug, Default, PartialEq, Eq)]
pub struct CollectionId(pub u16);

#[derive(Clone, Copy, Debug, Default, PartialEq, Eq)]
pub struct LpiId(pub u32);

#[derive(Clone, Copy, Debug, Default, PartialEq, Eq)]
pub struct GicVcpuId(pub u16);

// A device and one of its events: what a message names.
#[derive(Clone, Copy, Debug, PartialEq, Eq)]
pub struct Pair {
    pub device: ItsDeviceId,
    pub event: EventId,
}

// The records of the three tables. A record that is not used is free.
// Stays: `used` stands beside the fields and is no Option. A host may hand over a free record whose fields are not 0, the entries answer for it, and what
// a write leaves in it is promised (`Writes`, `CallWrites`).
#[derive(Clone, Copy, Default)]
pub struct ItsDevice {
    pub device: ItsDeviceId,
    pub event_bits: u8,
    pub used: bool,
}

#[derive(Clone, Copy, Default)]
pub struct ItsCollection {
    pub collection: CollectionId,
    pub target: GicVcpuId,
    pub used: bool,
}

#[derive(Clone, Copy, Default)]
pub struct Translation {
    pub device: ItsDeviceId,
    pub event: EventId,
    pub lpi: LpiId,
    pub collection: CollectionId,
    pub used: bool,
}

// What configuration fixes. The profile is 0 for base or 1 for strict. The processors are the first `processor_count` of the sixteen.
// Stays: the profile is a number and the count stands beside the sixteen. A host gives any number of both, and `Configures` promises an answer to each.
#[derive(Clone, Copy, Default)]
pub struct ItsConfig {
    pub lpi_limit: u32,
    pub command_budget: u32,
    pub frame_size: u32,
    pub profile: u32,
    pub processor_count: u8,
    pub processors: [GicVcpuId; 16],
}

// What the guest writes and reads back; and whether the queue has stopped at a command, which only strict says, shows and heeds.
#[derive(Clone, Copy)]
pub struct ItsRegisters {
    pub enabled: bool,
    pub stalled: bool,
    pub cbaser: u64,
    pub creadr: u64,
    pub cwriter: u64,
    pub basers: [u64; 8],
}

// The unit.
#[derive(Clone, Copy)]
pub struct ItsState {
    pub config: ItsConfig,
    pub registers: ItsRegisters,
    pub devices: [ItsDevice; 32],
    pub collections: [ItsCollection; 32],
    pub translations: [Translation; 256],
}

// The register that an offset of the frame belongs to.
#[derive(Clone, Copy, Debug, PartialEq, Eq)]
pub enum Register {
    Ctlr,
    Iidr,
    Typer,
    Cbaser,
    Cwriter,
    Creadr,
    Baser(usize),
    Reserved,
}

// A decoded command.
// Stays: `valid` stands beside the bits and the processor. Arm's command has these fields whether it is valid or not, and `decode` promises each.
#[derive(Clone, Copy, Debug, PartialEq, Eq)]
pub enum Command {
    Mapd {
        device: ItsDeviceId,
        event_bits: u8,
        valid: bool,
    },
    Mapc {
        collection: CollectionId,
        target: GicVcpuId,
        valid: bool,
    },
    Mapti {
        device: ItsDeviceId,
        event: EventId,
        lpi: LpiId,
        collection: CollectionId,
    },
    Mapi {
        device: ItsDeviceId,
        event: EventId,
        collection: CollectionId,
    },
    Movi {
        device: ItsDeviceId,
        event: EventId,
        collection: CollectionId,
    },
    Int {
        device: ItsDeviceId,
        event: EventId,
    },
    Clear {
        device: ItsDeviceId,
        event: EventId,
    },
    Discard {
        device: ItsDeviceId,
        event: EventId,
    },
    Inv {
        device: ItsDeviceId,
        event: EventId,
    },
    Invall {
        collection: CollectionId,
    },
    Sync,
}

// An opcode that is none of the kinds'.
#[derive(Clone, Copy, Debug, PartialEq, Eq)]
pub struct UnknownOpcode(pub u8);

// Why something is refused. The numbers that the host sees are given by specs/Refusal.antt.
#[derive(Clone, Copy, Debug, PartialEq, Eq)]
pub enum Refusal {
    Unsound,
    RowTooShort,
    InvalidAccess,
    Identification,
    BaseZero,
    WriterRefused,
    BudgetExceeded,
    NotInWindow,
    OpcodeUnknown,
    LpiOutOfRange,
    DeviceUnmapped,
    EventBeyondBits,
    CollectionUnmapped,
    PairUnmapped,
    ProcessorUnlisted,
    DeviceTooLarge,
    ResourceNotFound,
    TableFull,
    LineDoesNotFit,
}

// Where a message goes.
#[derive(Clone, Copy, Debug, PartialEq, Eq)]
pub struct Delivery {
    pub lpi: LpiId,
    pub target: GicVcpuId,
}

// What an INT (pending) or a CLEAR (not pending) hands to the host.
#[derive(Clone, Copy, Debug, Default, PartialEq, Eq)]
pub struct ItsAction {
    pub target: GicVcpuId,
    pub lpi: LpiId,
    pub pending: bool,
}

// What a write has done, where it is taken: how many commands, and how many actions they handed over.
#[derive(Clone, Copy, Debug, PartialEq, Eq)]
pub struct WriteDone {
    pub done: usize,
    pub actions: usize,
}

// Why a write is refused: with the opcode of a refused command and the offset at which the queue stands, and what the commands before it have done.
#[derive(Clone, Copy, Debug, PartialEq, Eq)]
pub struct WriteRefusal {
    pub refusal: Refusal,
    pub opcode: u8,
    pub offset: u64,
    pub done: usize,
    pub actions: usize,
}

pub type WriteAnswer = Result<WriteDone, WriteRefusal>;

// What a write does to the registers before any command runs: the registers that it leaves, whether they have a new base, and its answer; none stands
// where the queue then runs and gives it.
#[derive(Clone, Copy)]
pub struct RegisterWrite {
    pub registers: ItsRegisters,
    pub rebased: bool,
    pub answer: Option<WriteAnswer>,
}

// An answer that comes with a unit stands beside it.
#[derive(Clone, Copy)]
pub struct Configured {
    pub unit: ItsState,
    pub verdict: Result<(), Refusal>,
}

#[derive(Clone, Copy)]
pub struct Written {
    pub unit: ItsState,
    pub answer: WriteAnswer,
}

// A command carried out: the unit after it, and what it came to.
#[derive(Clone, Copy)]
pub struct Applied {
    pub unit: ItsState,
    pub executed: Result<Option<ItsAction>, Refusal>,
}
