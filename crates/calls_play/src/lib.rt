// The public call on a unit by value that plays the record at the front of a log: play. It has no `requires`: it refuses what it cannot take, 5 for a
// log at whose front no record stands, then as the record's call does, and a refused call leaves the unit and every lent memory as they were.
// Within: play_entry.
#![tactic(auto)]

ghost use Rattle.std.specs.Prelude.{◌≡◌};
ghost use Rattle.model.specs.Unit.{state, line_memory};
ghost use Rattle.model.specs.Calls.{line_outcome};
ghost use Rattle.model.specs.Log.{play_entry, play_call};

use model::{Access, Entry, Ppu, Refusal};

// An entry's call on a unit and all the memory that is lent.
#[tactic(auto, unfolding(model::specs::Log::play_entry), using(model::proofs::Calls::frame))]
pub fn play_entry(
    e: Entry,
    u: Ppu,
    left: &mut [u8],
    right: &mut [u8],
    nametables: &mut [u8],
    oam: &mut [u8],
    palette: &mut [u8],
    line: &mut [u8],
    colours: &mut [u16],
) -> Access
    ensures { line_outcome result left.new right.new nametables.new oam.new palette.new line.new colours.new ≡
        play_entry e (state u (line_memory left.old right.old nametables.old oam.old palette.old line.old colours.old)) }
{
    match e {
        Entry::Read(address) => accesses::read(u, address, left, right, nametables, oam, palette),
        Entry::Write(address, byte) => {
            accesses::write(u, address, byte, left, right, nametables, oam, palette)
        }
        Entry::Run(n) => runs::run(
            u, n, 0, left, right, nametables, oam, palette, line, colours,
        ),
        Entry::Refused => unit::refused(Refusal::Request as u8, u),
    }
}

// The record at the front of a log: a read, a write, or a run of just so many lines.
#[tactic(auto, using(model::proofs::Log::play_entry_lem))]
pub fn play(
    u: Ppu,
    log: &[u8],
    left: &mut [u8],
    right: &mut [u8],
    nametables: &mut [u8],
    oam: &mut [u8],
    palette: &mut [u8],
    line: &mut [u8],
    colours: &mut [u16],
) -> Access
    ensures { line_outcome result left.new right.new nametables.new oam.new palette.new line.new colours.new ≡
        play_call log.now (state u (line_memory left.old right.old nametables.old oam.old palette.old line.old colours.old)) }
{
    let e = reader::read_at(log, 0).found;
    play_entry(e, u, left, right, nametables, oam, palette, line, colours)
}
