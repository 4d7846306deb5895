// What a read of each port answers by the unit alone, and what it does to the unit: no memory. Inner functions, not public calls.
// Answers: status_byte, palette_answer. The unit afterwards: read_status, read_data, fill_latch.
#![tactic(auto)]

ghost use Rattle.std.specs.Prelude.{◌≡◌, ◌+◌, ◌*◌, ◌/◌, ◌<◌};
ghost use Rattle.model.specs.Unit.{with_buffer, with_latch};
ghost use Rattle.model.specs.Ports.{stepped, greyed, status_byte, read_status};

use model::Ppu;

// The answer of port 2.
#[tactic(auto, unfolding(model::specs::Ports::status_byte))]
pub fn status_byte(u: Ppu) -> u8
    ensures { result ≡ status_byte u }
{
    u.status / 32 * 32 + u.latch % 32
}

// The answer of port 7 from $3F00: six palette bits, greyed by mask bit 0, and the latch's top two.
pub fn palette_answer(u: Ppu, entry: u8) -> u8
    requires { entry < 64 }
    ensures { result ≡ u.latch / 64 * 64 + greyed u.mask entry }
{
    let shown = if u.mask % 2 == 1 {
        entry / 16 * 16
    } else {
        entry
    };
    u.latch / 64 * 64 + shown
}

// The unit after a read whose answer only fills the latch.
pub fn fill_latch(u: Ppu, answer: u8) -> Ppu
    ensures { result ≡ with_latch u answer }
{
    Ppu { latch: answer, ..u }
}

// The unit after a read of port 2.
#[tactic(auto, unfolding(model::specs::Ports::read_status))]
pub fn read_status(u: Ppu, answer: u8) -> Ppu
    ensures { result ≡ read_status u answer }
{
    Ppu {
        status: u.status % 128,
        w: false, // a first write comes next
        latch: answer,
        ..u
    }
}

// The unit after a read of port 7, whose buffer takes a byte.
pub fn read_data(u: Ppu, answer: u8, buffer: u8) -> Ppu
    ensures { result ≡ with_latch (with_buffer (stepped u) buffer) answer }
{
    Ppu {
        buffer,
        latch: answer,
        ..unit::step(u)
    }
}
