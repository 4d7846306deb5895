// One of two units' calls by the unit of a record, which the exports by number share for both. Inner functions.
// read_record, write_record, dma_record, run_record.
#![tactic(auto)]

ghost use Rattle.std.specs.Prelude.{◌≡◌};
ghost use Rattle.model.specs.Unit.{access_memory, dma_memory, line_memory};
ghost use Rattle.model.specs.Colours.{numbers_of};
ghost use Rattle.model.specs.Calls.{exported, read_call, write_call, dma_call, run_call, own};
ghost use Rattle.model_shared.specs.Shared.{unit_export};

use model::Refusal;

// One unit's read, by the unit of a record.
#[tactic(auto, unfolding(model_shared::specs::Shared::unit_export, model_shared::specs::Shared::unit_on_record), using(calls_records::proofs::Cases::refused))]
pub fn read_record(
    unit: &mut [u8],
    address: u16,
    left: &[u8],
    right: &[u8],
    nametables: &[u8],
    oam: &[u8],
    palette: &[u8],
) -> u64
    ensures { exported result unit.new (access_memory left.now right.now nametables.now oam.now palette.now) ≡
        unit_export (read_call own address) unit.old (access_memory left.now right.now nametables.now oam.now palette.now) }
{
    match refusals::record(unit) {
        Ok(u) => {
            let a = calls_shared_unit::read(u, address, left, right, nametables, oam, palette);
            refusals::finish(a, unit)
        }
        Err(r) => r as u64,
    }
}

// One unit's write, by the unit of a record.
#[tactic(auto, unfolding(model_shared::specs::Shared::unit_export, model_shared::specs::Shared::unit_on_record), using(calls_records::proofs::Cases::refused))]
pub fn write_record(
    unit: &mut [u8],
    address: u16,
    byte: u8,
    left: &[u8],
    right: &[u8],
    nametables: &mut [u8],
    oam: &mut [u8],
    palette: &mut [u8],
) -> u64
    ensures { exported result unit.new (access_memory left.now right.now nametables.new oam.new palette.new) ≡
        unit_export (write_call own address byte) unit.old (access_memory left.now right.now nametables.old oam.old palette.old) }
{
    match refusals::record(unit) {
        Ok(u) => {
            let a = calls_shared_unit::write(
                u, address, byte, left, right, nametables, oam, palette,
            );
            refusals::finish(a, unit)
        }
        Err(r) => r as u64,
    }
}

// One unit's sprite DMA, by the unit of a record.
#[tactic(auto, unfolding(model_shared::specs::Shared::unit_export, model_shared::specs::Shared::unit_on_record), using(calls_records::proofs::Cases::refused))]
pub fn dma_record(unit: &mut [u8], oam: &mut [u8], page: &[u8]) -> u64
    ensures { exported result unit.new (dma_memory oam.new) ≡
        unit_export (dma_call own page.now) unit.old (dma_memory oam.old) }
{
    match refusals::record(unit) {
        Ok(u) => {
            let a = calls_shared_unit::dma(u, oam, page);
            refusals::finish(a, unit)
        }
        Err(r) => r as u64,
    }
}

// One unit's run, by the unit of a record: the plain run, on buffers that are cleared where it may write none.
#[tactic(auto, unfolding(model_shared::specs::Shared::unit_export, model_shared::specs::Shared::unit_on_record), using(crate::proofs::Cases::run_cases))]
pub fn run_record(
    unit: &mut [u8],
    lines: u16,
    reason: u8,
    left: &[u8],
    right: &[u8],
    nametables: &[u8],
    oam: &[u8],
    palette: &[u8],
    line: &mut [u8],
    colours: &mut [u8],
) -> u64
    ensures { exported result unit.new (line_memory left.now right.now nametables.now oam.now palette.now line.new (numbers_of colours.new)) ≡
        unit_export (run_call own reason lines) unit.old (line_memory left.now right.now nametables.now oam.now palette.now line.old (numbers_of colours.old)) }
{
    if 2 < reason {
        return Refusal::Request as u64;
    }
    let u = match refusals::record(unit) {
        Ok(u) => u,
        Err(r) => return r as u64,
    };
    if u.board.writable {
        return Refusal::Writable as u64;
    }
    if calls_shared_unit::clears(
        u,
        lines,
        left,
        right,
        nametables,
        oam,
        palette,
        line.len(),
        colours.len(),
    ) {
        line.fill(0);
        colours.fill(0);
    }
    calls_records::run(
        unit, lines, reason, left, right, nametables, oam, palette, line, colours,
    )
}
