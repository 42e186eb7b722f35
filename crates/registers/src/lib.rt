// The registers of the frame: which accesses are taken (access.rt), which configurations and rings are sound (sizes.rt), what a register reads, and
// what a write leaves in the registers. Nothing here looks at a table.
#![tactic(auto)]

pub mod access;
pub mod sizes;

ghost use Rattle.std.specs.Prelude.{◌≡◌, get_or};
ghost use Rattle.model.specs.Config.{sound};
ghost use Rattle.model.specs.Register.{ctlr_value, creadr_value, register_at, value_of, read_of, value_written};
ghost use Rattle.model.specs.Writing.{refusing, storing, rebasing, going, to_ctlr, to_cbaser, retries, offered, writer_taken, writer_accepted, to_cwriter, with_baser, to_baser, write_register, register_write};
ghost use Rattle.model.specs.Entry.{read_from};

use model::{ItsConfig, ItsRegisters, Refusal, Register, RegisterWrite, WriteDone, WriteRefusal};

// The frame, as far as its registers go: what configuration fixes, and what the guest writes and reads back.
#[derive(Clone, Copy)]
pub struct Frame {
    pub config: ItsConfig,
    pub registers: ItsRegisters,
}

// GITS_CTLR: the enable bit, and bit 31.
fn ctlr(enabled: bool) -> u64
    ensures { result ≡ ctlr_value enabled }
{
    if enabled { 0x8000_0001 } else { 0x8000_0000 }
}

// GITS_BASER n; 0 where there is none.
fn baser(registers: ItsRegisters, index: usize) -> u64
    ensures { result ≡ get_or registers.basers index 0 }
{
    let basers = registers.basers;
    basers.get(index).copied().unwrap_or(0)
}

// The ways in which a write goes: stored with nothing to run; stored with a new base; stored with the queue to run; refused.
fn stored(registers: ItsRegisters) -> RegisterWrite
    ensures { result ≡ storing registers }
{
    RegisterWrite {
        registers,
        rebased: false,
        answer: Some(Ok(WriteDone {
            done: 0,
            actions: 0,
        })),
    }
}

fn stored_anew(registers: ItsRegisters) -> RegisterWrite
    ensures { result ≡ rebasing registers }
{
    RegisterWrite {
        rebased: true,
        ..stored(registers)
    }
}

fn stored_to_run(registers: ItsRegisters) -> RegisterWrite
    ensures { result ≡ going registers }
{
    RegisterWrite {
        answer: None,
        ..stored(registers)
    }
}

fn refused(registers: ItsRegisters, offset: u64, refusal: Refusal) -> RegisterWrite
    ensures { result ≡ refusing registers offset refusal }
{
    let why = WriteRefusal {
        refusal,
        opcode: 0,
        offset,
        done: 0,
        actions: 0,
    };
    RegisterWrite {
        answer: Some(Err(why)),
        ..stored(registers)
    }
}

#[tactic(auto, unfolding(model::specs::Writing::to_ctlr))]
fn set_enabled(registers: ItsRegisters, value: u64) -> RegisterWrite
    ensures { result ≡ to_ctlr registers value }
{
    stored_to_run(ItsRegisters {
        enabled: value % 2 == 1,
        ..registers
    })
}

// In strict bit 0 of CWRITER is Retry, and no part of the offset.
#[tactic(auto, unfolding(model::specs::Writing::retries))]
fn is_retry(config: ItsConfig, value: u64) -> bool
    ensures { result ≡ retries config value }
{
    config.profile == 1 && value % 2 == 1
}

#[tactic(auto, unfolding(model::specs::Writing::offered))]
fn without_retry(config: ItsConfig, value: u64) -> u64
    ensures { result ≡ offered config value }
{
    if config.profile == 1 {
        value - value % 2
    } else {
        value
    }
}

// With CBASER zero the whole value counts.
fn writer_taken(registers: ItsRegisters, value: u64) -> u64
    ensures { result ≡ writer_taken registers value }
{
    if registers.cbaser == 0 {
        value
    } else {
        value % 0x10_0000
    }
}

#[tactic(auto, unfolding(model::specs::Writing::writer_accepted))]
fn writer_accepted(registers: ItsRegisters, writer: u64) -> bool
    ensures { result ≡ writer_accepted registers writer }
{
    if registers.cbaser == 0 {
        return writer == 0;
    }
    sizes::is_queue_offset(registers.cbaser, writer)
}

// The registers with BASER n written; where there is none, as they were.
fn with_baser(registers: ItsRegisters, index: usize, value: u64) -> ItsRegisters
    ensures { result ≡ with_baser registers index value }
{
    let mut basers = registers.basers;
    if index < 8 {
        basers[index] = words::set_baser(basers[index], value);
    }
    ItsRegisters {
        basers,
        ..registers
    }
}

#[tactic(auto, unfolding(model::specs::Writing::to_baser))]
fn set_baser(registers: ItsRegisters, index: usize, value: u64) -> RegisterWrite
    ensures { result ≡ to_baser registers index value }
{
    if registers.enabled {
        return stored(registers);
    }
    stored(with_baser(registers, index, value))
}

// Stays: offset, width and value stay apart, no plainer as a struct, since the methods take one, two or all of them, and document 01's entries each.
impl Frame {
    // Whether configuration and ring are sound.
    pub fn is_sound(self) -> bool
        ensures { result ≡ sound self.config self.registers }
    {
        sizes::sound_config(self.config) && sizes::sound_ring(self.registers)
    }

    // GITS_CREADR: the offset, and in strict Stalled in bit 0.
    #[tactic(auto, unfolding(model::specs::Register::creadr_value))]
    fn creadr(self) -> u64
        ensures { result ≡ creadr_value self.config self.registers }
    {
        let offset = self.registers.creadr;
        if self.config.profile == 1 && self.registers.stalled {
            return offset - offset % 2 + 1;
        }
        offset
    }

    fn register_value(self, register: Register) -> u64
        ensures { result ≡ value_of self.config self.registers register }
    {
        match register {
            Register::Ctlr => ctlr(self.registers.enabled),
            Register::Iidr => 0x43b,
            Register::Typer => words::its_typer(self.config.lpi_limit),
            Register::Cbaser => self.registers.cbaser,
            Register::Cwriter => self.registers.cwriter,
            Register::Creadr => self.creadr(),
            Register::Baser(index) => baser(self.registers, index),
            Register::Reserved => 0,
        }
    }

    // What an access that is taken reads.
    fn read_register(self, offset: u64, width: u8) -> u64
        ensures { result ≡ read_of self.config self.registers offset width (register_at offset) }
    {
        let register = access::register_at(offset);
        let value = self.register_value(register);
        if access::is_wide(register) {
            return words::read_wide_register(value, offset, width);
        }
        value
    }

    #[tactic(auto, unfolding(model::specs::Entry::read_from))]
    pub fn read(self, offset: u64, width: u8) -> Result<u64, Refusal>
        ensures { result ≡ read_from self.config self.registers offset width }
    {
        self.check_read(offset, width)?;
        Ok(self.read_register(offset, width))
    }

    // What an access writes: a narrow one to a 64-bit register leaves the other half.
    fn merge_value(self, register: Register, offset: u64, width: u8, value: u64) -> u64
        ensures { result ≡ value_written self.config self.registers offset width value register }
    {
        if access::is_wide(register) {
            let current = self.register_value(register);
            return words::merge_wide_register(current, offset, width, value);
        }
        value
    }

    // Bit 63, Arm's Valid, is not looked at. What is stored clears Stalled in strict.
    #[tactic(auto, unfolding(model::specs::Writing::to_cbaser))]
    fn set_cbaser(self, value: u64) -> RegisterWrite
        ensures { result ≡ to_cbaser self.config self.registers value }
    {
        let registers = self.registers;
        if registers.enabled {
            return stored(registers);
        }
        if words::queue_base(value) == 0 {
            return refused(registers, 0, Refusal::BaseZero);
        }
        stored_anew(ItsRegisters {
            stalled: self.config.profile != 1 && registers.stalled,
            cbaser: value,
            creadr: 0,
            cwriter: 0,
            ..registers
        })
    }

    #[tactic(auto, unfolding(model::specs::Writing::to_cwriter))]
    fn set_cwriter(self, value: u64) -> RegisterWrite
        ensures { result ≡ to_cwriter self.config self.registers value }
    {
        let registers = self.registers;
        let writer = writer_taken(registers, without_retry(self.config, value));
        if !writer_accepted(registers, writer) {
            return refused(registers, writer, Refusal::WriterRefused);
        }
        stored_to_run(ItsRegisters {
            stalled: !is_retry(self.config, value) && registers.stalled,
            cwriter: writer,
            ..registers
        })
    }

    fn write_register(self, register: Register, value: u64) -> RegisterWrite
        ensures { result ≡ write_register self.config self.registers value register }
    {
        match register {
            Register::Ctlr => set_enabled(self.registers, value),
            Register::Cbaser => self.set_cbaser(value),
            Register::Cwriter => self.set_cwriter(value),
            Register::Baser(index) => set_baser(self.registers, index, value),
            Register::Iidr | Register::Typer | Register::Creadr | Register::Reserved => {
                stored(self.registers)
            }
        }
    }

    // A write that is taken.
    fn write_accepted(self, offset: u64, width: u8, value: u64) -> RegisterWrite
        ensures { result ≡ write_register self.config self.registers (value_written self.config self.registers offset width value (register_at offset)) (register_at offset) }
    {
        let register = access::register_at(offset);
        let merged = self.merge_value(register, offset, width, value);
        self.write_register(register, merged)
    }

    // A write up to its run; `room` is the length of the row that the host lends.
    #[tactic(auto, unfolding(model::specs::Writing::register_write))]
    pub fn write(self, room: usize, offset: u64, width: u8, value: u64) -> RegisterWrite
        ensures { result ≡ register_write self.config self.registers room offset width value }
    {
        match self.check_write(room, offset, width) {
            Ok(()) => self.write_accepted(offset, width, value),
            Err(why) => refused(self.registers, 0, why),
        }
    }
}
