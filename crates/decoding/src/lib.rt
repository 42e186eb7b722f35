// A command read from the guest's memory, which is lent as bytes with the guest address of the first, and decoded. All its 32 bytes are there, or none
// is read; and no sum is made that could wrap.
#![tactic(auto)]

ghost use Rattle.std.specs.Prelude.{◌≡◌, ◌-◌, None, Some, if◌then◌else◌};
ghost use Rattle.model.specs.Decode.{decode as decodeOf};
ghost use Rattle.model.specs.Queue.{command_at, in_window};
ghost use Rattle.decoding.specs.Reading.{lent, word_read};

use model::{Command, UnknownOpcode};

// The guest window: a lent run of bytes with the guest address of its first byte.
#[derive(Clone, Copy)]
pub struct GuestWindow<'a> {
    pub address: u64,
    pub bytes: &'a [u8],
}

impl<'a> GuestWindow<'a> {
    // Where in the window the command at a guest address begins, if it lies there whole. Guest addresses end at 2^64.
    fn place(self, wanted: u64) -> Option<usize>
        ensures { result ≡ (if in_window (lent self.entry.address self.entry.bytes.now) wanted then Some (wanted - self.entry.address) else None) }
    {
        if 0xffff_ffff_ffff_ffe0 < wanted {
            return None;
        }
        let offset = wanted.checked_sub(self.address)?;
        let last = self.bytes.len().checked_sub(32)?;
        if offset > last as u64 {
            return None;
        }
        Some(offset as usize)
    }

    // Word `index` of the command at a guest address; a command has four, and any further one is 0.
    #[tactic(auto, unfolding(model::specs::Queue::command_at), using(crate::proofs::Reading::no_word, crate::proofs::Reading::a_word))]
    pub fn word(self, wanted: u64, index: usize) -> Option<u64>
        ensures { result ≡ word_read (command_at (lent self.entry.address self.entry.bytes.now) wanted) index }
    {
        let offset = self.place(wanted)?;
        if 4 <= index {
            return Some(0);
        }
        Some(words::word_at(self.bytes, offset + index * 8))
    }

    // The command at a guest address.
    #[tactic(auto, unfolding(model::specs::Queue::command_at))]
    pub fn command(self, wanted: u64) -> Option<[u64; 4]>
        ensures { result ≡ command_at (lent self.entry.address self.entry.bytes.now) wanted }
    {
        let at = self.place(wanted)?;
        let words = words::decode_words(self.bytes, at);
        Some(words)
    }
}

// One of the kinds of commands, or the opcode of none of them.
#[tactic(auto, unfolding(model::specs::Decode::decode))]
pub fn decode(words: [u64; 4]) -> Result<Command, UnknownOpcode>
    ensures { result ≡ decodeOf words }
{
    let opcode = words::opcode(words);
    let device = words::device(words);
    let event = words::event(words);
    let event_bits = words::event_bits(words);
    let lpi = words::lpi(words);
    let collection = words::collection(words);
    let target = words::target(words);
    let valid = words::valid(words);
    match opcode {
        0x08 => Ok(Command::Mapd {
            device,
            event_bits,
            valid,
        }),
        0x09 => Ok(Command::Mapc {
            collection,
            target,
            valid,
        }),
        0x0a => Ok(Command::Mapti {
            device,
            event,
            lpi,
            collection,
        }),
        0x0b => Ok(Command::Mapi {
            device,
            event,
            collection,
        }),
        0x01 => Ok(Command::Movi {
            device,
            event,
            collection,
        }),
        0x03 => Ok(Command::Int { device, event }),
        0x04 => Ok(Command::Clear { device, event }),
        0x0f => Ok(Command::Discard { device, event }),
        0x0c => Ok(Command::Inv { device, event }),
        0x0d => Ok(Command::Invall { collection }),
        0x05 => Ok(Command::Sync),
        _ => Err(UnknownOpcode(opcode)),
    }
}
