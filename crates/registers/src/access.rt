// Which register an offset belongs to, and which accesses are taken.
ghost use Rattle.std.specs.Prelude.{◌≡◌, ◌||◌, eqb};
ghost use Rattle.model.specs.Arm.{is_identification};
ghost use Rattle.model.specs.Register.{register_at, is_wide, is_reserved, takes_width};
ghost use Rattle.model.specs.Access.{in_frame, check_access, check_read, check_write};

use crate::Frame;
use model::{ItsConfig, Refusal, Register};

#[tactic(auto, unfolding(model::specs::Register::register_at, words::specs::Offsets::wide_register_base, words::specs::Offsets::baser_index))]
pub fn register_at(offset: u64) -> Register
    ensures { result ≡ register_at offset }
{
    match offset {
        0 => Register::Ctlr,
        4 => Register::Iidr,
        _ => match words::wide_register_base(offset) {
            None => Register::Reserved,
            Some(0x8) => Register::Typer,
            Some(0x80) => Register::Cbaser,
            Some(0x88) => Register::Cwriter,
            Some(0x90) => Register::Creadr,
            Some(base) => match words::baser_index(base) {
                None => Register::Reserved,
                Some(index) => Register::Baser(index),
            },
        },
    }
}

// The 64-bit registers.
pub fn is_wide(register: Register) -> bool
    ensures { result ≡ is_wide register }
{
    matches!(
        register,
        Register::Typer
            | Register::Cbaser
            | Register::Cwriter
            | Register::Creadr
            | Register::Baser(_)
    )
}

// An offset that is no register's.
pub fn is_reserved(register: Register) -> bool
    ensures { result ≡ is_reserved register }
{
    matches!(register, Register::Reserved)
}

// Whether a register takes a width.
pub fn takes_width(register: Register, width: u8) -> bool
    ensures { result ≡ takes_width register width }
{
    is_reserved(register) || width == 4 || is_wide(register) && width == 8
}

pub fn is_access_width(width: u8) -> bool
    ensures { result ≡ (eqb width 1 || (eqb width 2 || (eqb width 4 || eqb width 8))) }
{
    matches!(width, 1 | 2 | 4 | 8)
}

// Whether a width is one of the four, and an access of it at an offset is aligned and within the frame. No sum is made that could wrap.
pub fn in_frame(config: ItsConfig, offset: u64, width: u8) -> bool
    ensures { result ≡ in_frame config offset width }
{
    let bytes = u64::from(width);
    let frame = u64::from(config.frame_size);
    is_access_width(width) && bytes <= frame && offset <= frame - bytes && offset % bytes == 0
}

pub fn is_identification(offset: u64) -> bool
    ensures { result ≡ is_identification offset }
{
    (0xffd0..=0xffff).contains(&offset)
}

// The checks of an access, in order.
#[tactic(auto, unfolding(model::specs::Access::check_access))]
pub fn validate_its_access(config: ItsConfig, offset: u64, width: u8) -> Result<(), Refusal>
    ensures { result ≡ check_access config offset width }
{
    if !in_frame(config, offset, width) {
        return Err(Refusal::InvalidAccess);
    }
    if is_identification(offset) {
        return Err(Refusal::Identification);
    }
    if !takes_width(register_at(offset), width) {
        return Err(Refusal::InvalidAccess);
    }
    Ok(())
}

impl Frame {
    #[tactic(auto, unfolding(model::specs::Access::check_read))]
    pub fn check_read(self, offset: u64, width: u8) -> Result<(), Refusal>
        ensures { result ≡ check_read self.config self.registers offset width }
    {
        if !self.is_sound() {
            return Err(Refusal::Unsound);
        }
        validate_its_access(self.config, offset, width)
    }

    // The order of a write's refusals; `room` is the length of the row that the host lends.
    #[tactic(auto, unfolding(model::specs::Access::check_write))]
    pub fn check_write(self, room: usize, offset: u64, width: u8) -> Result<(), Refusal>
        ensures { result ≡ check_write self.config self.registers room offset width }
    {
        if !self.is_sound() {
            return Err(Refusal::Unsound);
        }
        if room < self.config.command_budget as usize {
            return Err(Refusal::RowTooShort);
        }
        validate_its_access(self.config, offset, width)
    }
}
