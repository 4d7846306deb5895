// One of two units' calls, on the unit by value: read, write, dma, run. None has a `requires`: a call refuses what it cannot take, in the order 5, 3, 6, 2,
// 1, 4, and a refused call leaves the unit and every lent memory as they were.
// Within: barred, begins_shown, record_begins_shown, clears.
#![tactic(auto)]

ghost use Rattle.std.specs.Prelude.{◌≡◌, cond, length};
ghost use Rattle.model.specs.Unit.{state, access_memory, dma_memory, line_memory, is_well_formed};
ghost use Rattle.model.specs.Calls.{
  access_outcome,
  dma_outcome,
  line_outcome,
  refused_access,
  read_call,
  write_call,
  dma_call,
  run_call,
  own,
};
ghost use Rattle.model_shared.specs.Shared.{unit_call};
ghost use Rattle.calls_shared_unit.specs.Cleared.{begins_shown, record_begins_shown, clears};

use lent::Lent;
use model::{Access, Ppu, Refusal};

// The refusal of a unit whose board has writable pattern memory: 3 where it is not well formed, then 6.
fn barred(u: Ppu) -> Access
    ensures { result ≡ refused_access (cond (is_well_formed u) 6 3) u }
{
    let r = if unit::well_formed(u) {
        Refusal::Writable
    } else {
        Refusal::Unit
    };
    unit::refused(r as u8, u)
}

// One unit's read.
#[tactic(auto, using(crate::proofs::Cases::barred, model_shared::proofs::Laws::unit_plain))]
pub fn read(
    u: Ppu,
    address: u16,
    left: &[u8],
    right: &[u8],
    nametables: &[u8],
    oam: &[u8],
    palette: &[u8],
) -> Access
    ensures { access_outcome result left.now right.now nametables.now oam.now palette.now ≡
        unit_call (read_call own address) (state u (access_memory left.now right.now nametables.now oam.now palette.now)) }
{
    if u.board.writable {
        return barred(u);
    }
    accesses::read(u, address, left, right, nametables, oam, palette)
}

// One unit's write: its board's pattern memory is not writable, so the tables are lent to be read.
#[tactic(auto, using(crate::proofs::Cases::barred, crate::proofs::Cases::write_plain, accesses::proofs::Cases::lent_long))]
pub fn write(
    u: Ppu,
    address: u16,
    byte: u8,
    left: &[u8],
    right: &[u8],
    nametables: &mut [u8],
    oam: &mut [u8],
    palette: &mut [u8],
) -> Access
    ensures { access_outcome result left.now right.now nametables.new oam.new palette.new ≡
        unit_call (write_call own address byte) (state u (access_memory left.now right.now nametables.old oam.old palette.old)) }
{
    if u.board.writable {
        return barred(u);
    }
    let fits = Lent::new(u.board, left, right, nametables, oam, palette).map(|_| ());
    let port = address % 8;
    match refusals::access(fits, u, address, port == 7) {
        Ok(()) => ports::write_kept(u, port, byte, left, right, nametables, oam, palette),
        Err(r) => unit::refused(r as u8, u),
    }
}

// One unit's sprite DMA.
#[tactic(auto, using(crate::proofs::Cases::barred, model_shared::proofs::Laws::unit_plain))]
pub fn dma(u: Ppu, oam: &mut [u8], page: &[u8]) -> Access
    ensures { dma_outcome result oam.new ≡ unit_call (dma_call own page.now) (state u (dma_memory oam.old)) }
{
    if u.board.writable {
        return barred(u);
    }
    accesses::dma(u, oam, page)
}

// The run begins with one of lines 0 to 239.
#[tactic(auto, unfolding(crate::specs::Cleared::begins_shown))]
fn begins_shown(u: Ppu, lines: u16) -> bool
    ensures { result ≡ begins_shown u lines }
{
    u.scanline < 240 && lines != 0
}

// The same of a record's unit, its board not writable; whether the record is well formed is not asked.
#[tactic(auto, unfolding(crate::specs::Cleared::record_begins_shown))]
pub fn record_begins_shown(unit: &[u8], lines: u16) -> bool
    ensures { result ≡ record_begins_shown unit.now lines }
{
    unit.len() == 16 && unit[15] < 8 && unit[13] == 0 && unit[12] < 240 && lines != 0
}

// Both line buffers are to become zeros before the run: unless it begins with one of lines 0 to 239, which writes them whole, or is refused, which leaves
// them. `colours`: the length of its colours in bytes.
#[tactic(auto, unfolding(crate::specs::Cleared::clears, model::specs::Calls::plain_refusal, model::specs::Calls::order))]
pub fn clears(
    u: Ppu,
    lines: u16,
    left: &[u8],
    right: &[u8],
    nametables: &[u8],
    oam: &[u8],
    palette: &[u8],
    line: usize,
    colours: usize,
) -> bool
    ensures { result ≡
        clears u lines (length left.now) (length right.now) (length nametables.now) (length oam.now) (length palette.now) line colours }
{
    !begins_shown(u, lines)
        && unit::well_formed(u)
        && Lent::new(u.board, left, right, nametables, oam, palette).is_some()
        && line == 256
        && colours == 512
}

// One unit's run. Its line buffers are cleared first where it may write none.
#[tactic(auto, using(crate::proofs::Cases::numbers_cases))]
pub fn run(
    u: Ppu,
    lines: u16,
    reason: u8,
    left: &[u8],
    right: &[u8],
    nametables: &[u8],
    oam: &[u8],
    palette: &[u8],
    line: &mut [u8],
    colours: &mut [u16],
) -> Access
    ensures { line_outcome result left.now right.now nametables.now oam.now palette.now line.new colours.new ≡
        unit_call (run_call own reason lines) (state u (line_memory left.now right.now nametables.now oam.now palette.now line.old colours.old)) }
{
    if 2 < reason {
        return unit::refused(Refusal::Request as u8, u);
    }
    if u.board.writable {
        return barred(u);
    }
    if clears(
        u,
        lines,
        left,
        right,
        nametables,
        oam,
        palette,
        line.len(),
        2 * colours.len(),
    ) {
        line.fill(0);
        colours.fill(0);
    }
    runs::run(
        u, lines, reason, left, right, nametables, oam, palette, line, colours,
    )
}
