// What a host lends for a write, as 01 names the forms: the guest window, carried together as one reader, and the row of actions. The functions here are
// the thin ones over them; each of the readers calls a method of the window, which goes by value.
#![tactic(auto)]

ghost use Rattle.std.specs.Prelude.{◌≡◌, ◌<◌, length, set};
ghost use Rattle.model.specs.Queue.{command_at};
ghost use Rattle.decoding.specs.Reading.{lent, word_read};

pub use decoding::GuestWindow;
use model::ItsAction;

// Word `index` of the command at a guest address, where all 32 bytes of the command lie in the window.
pub fn read_word(window: GuestWindow<'_>, wanted: u64, index: usize) -> Option<u64>
    ensures { result ≡ word_read (command_at (lent window.entry.address window.entry.bytes.now) wanted) index }
{
    window.word(wanted, index)
}

// The four words of the command at a guest address: all its bytes are in the window, or none is read.
// Stays: `GuestWindow::command` promises the same. By value a command goes through the reader word by word, a form of document 01 that is kept.
#[tactic(auto, unfolding(model::specs::Queue::command_at))]
pub fn read_command(window: GuestWindow<'_>, wanted: u64) -> Option<[u64; 4]>
    ensures { result ≡ command_at (lent window.entry.address window.entry.bytes.now) wanted }
{
    Some([
        read_word(window, wanted, 0)?,
        read_word(window, wanted, 1)?,
        read_word(window, wanted, 2)?,
        read_word(window, wanted, 3)?,
    ])
}

// The one store into the row that the host lends.
pub fn store_action(row: &mut [ItsAction], at: usize, action: ItsAction)
    requires { at < length row.old }
    ensures { row.new ≡ set row.old at action }
{
    row[at] = action;
}
