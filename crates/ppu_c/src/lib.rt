// The exports for C of the picture unit, include/ppu.h: each is the call of its name in crates/ppu, with the same promise.
#![tactic(auto)]

ghost use Rattle.std.specs.Prelude.{◌≡◌};
ghost use Rattle.model.specs.Unit.{access_memory, dma_memory, line_memory};
ghost use Rattle.model.specs.Colours.{numbers_of};
ghost use Rattle.model.specs.Calls.{packed, exported, saved_bytes, fresh_on_record, exported_call, read_call, write_call, dma_call, search_call, run_call, own};
ghost use Rattle.model.specs.Log.{exported_play};
ghost use Rattle.model_shared.specs.Shared.{turn, shared_export, access_machine, dma_machine, run_machine};

// For C: a fresh unit's record, written over 16 bytes.
#[unsafe(no_mangle)]
pub extern "C" fn ppu_fresh(unit: &mut [u8], board: u8) -> u64
    ensures { (result ≡ packed (fresh_on_record unit.old board).answer) ×
        (unit.new ≡ saved_bytes (fresh_on_record unit.old board) unit.old) }
{
    ppu::ppu_fresh(unit, board)
}

// For C: a read, by the unit of a record.
#[unsafe(no_mangle)]
pub extern "C" fn ppu_read(
    unit: &mut [u8],
    address: u16,
    left: &[u8],
    right: &[u8],
    nametables: &[u8],
    oam: &[u8],
    palette: &[u8],
) -> u64
    ensures { exported result unit.new (access_memory left.now right.now nametables.now oam.now palette.now) ≡
        exported_call (read_call own address) unit.old (access_memory left.now right.now nametables.now oam.now palette.now) }
{
    ppu::ppu_read(unit, address, left, right, nametables, oam, palette)
}

// For C: a write, by the unit of a record.
#[unsafe(no_mangle)]
pub extern "C" fn ppu_write(
    unit: &mut [u8],
    address: u16,
    byte: u8,
    left: &mut [u8],
    right: &mut [u8],
    nametables: &mut [u8],
    oam: &mut [u8],
    palette: &mut [u8],
) -> u64
    ensures { exported result unit.new (access_memory left.new right.new nametables.new oam.new palette.new) ≡
        exported_call (write_call own address byte) unit.old (access_memory left.old right.old nametables.old oam.old palette.old) }
{
    ppu::ppu_write(unit, address, byte, left, right, nametables, oam, palette)
}

// For C: sprite DMA, by the unit of a record.
#[unsafe(no_mangle)]
pub extern "C" fn ppu_dma(unit: &mut [u8], oam: &mut [u8], page: &[u8]) -> u64
    ensures { exported result unit.new (dma_memory oam.new) ≡
        exported_call (dma_call own page.now) unit.old (dma_memory oam.old) }
{
    ppu::ppu_dma(unit, oam, page)
}

// For C: the search for overflow on a line, by the unit of a record. It writes nothing.
#[unsafe(no_mangle)]
pub extern "C" fn ppu_search(unit: &[u8], line: u16, oam: &[u8]) -> u64
    ensures { exported result unit.now (dma_memory oam.now) ≡
        exported_call (search_call own line) unit.now (dma_memory oam.now) }
{
    ppu::ppu_search(unit, line, oam)
}

// For C: a run, by the unit of a record.
#[unsafe(no_mangle)]
pub extern "C" fn ppu_run(
    unit: &mut [u8],
    lines: u16,
    reason: u8,
    left: &[u8],
    right: &[u8],
    nametables: &[u8],
    oam: &[u8],
    palette: &[u8],
    line: &mut [u8],
    colours: &mut [u8],
) -> u64
    ensures { exported result unit.new (line_memory left.now right.now nametables.now oam.now palette.now line.new (numbers_of colours.new)) ≡
        exported_call (run_call own reason lines) unit.old (line_memory left.now right.now nametables.now oam.now palette.now line.old (numbers_of colours.old)) }
{
    ppu::ppu_run(
        unit, lines, reason, left, right, nametables, oam, palette, line, colours,
    )
}

// For C: the record at the front of a log, by the unit of a record.
#[unsafe(no_mangle)]
pub extern "C" fn ppu_play(
    unit: &mut [u8],
    log: &[u8],
    left: &mut [u8],
    right: &mut [u8],
    nametables: &mut [u8],
    oam: &mut [u8],
    palette: &mut [u8],
    line: &mut [u8],
    colours: &mut [u8],
) -> u64
    ensures { exported result unit.new (line_memory left.new right.new nametables.new oam.new palette.new line.new (numbers_of colours.new)) ≡
        exported_play log.now unit.old (line_memory left.old right.old nametables.old oam.old palette.old line.old (numbers_of colours.old)) }
{
    ppu::ppu_play(
        unit, log, left, right, nametables, oam, palette, line, colours,
    )
}

// For C: a read by unit 0 or 1.
#[unsafe(no_mangle)]
pub extern "C" fn ppu_shared_read(
    which: u8,
    unit0: &mut [u8],
    unit1: &mut [u8],
    address: u16,
    left: &[u8],
    right: &[u8],
    nametables0: &[u8],
    nametables1: &[u8],
    oam0: &[u8],
    oam1: &[u8],
    palette0: &[u8],
    palette1: &[u8],
) -> u64
    ensures { turn result (access_machine unit0.new unit1.new left.now right.now nametables0.now nametables1.now oam0.now oam1.now palette0.now palette1.now) ≡
        shared_export which (read_call own address) (access_machine unit0.old unit1.old left.now right.now nametables0.now nametables1.now oam0.now oam1.now palette0.now palette1.now) }
{
    ppu::ppu_shared_read(
        which,
        unit0,
        unit1,
        address,
        left,
        right,
        nametables0,
        nametables1,
        oam0,
        oam1,
        palette0,
        palette1,
    )
}

// For C: a write by unit 0 or 1.
#[unsafe(no_mangle)]
pub extern "C" fn ppu_shared_write(
    which: u8,
    unit0: &mut [u8],
    unit1: &mut [u8],
    address: u16,
    byte: u8,
    left: &[u8],
    right: &[u8],
    nametables0: &mut [u8],
    nametables1: &mut [u8],
    oam0: &mut [u8],
    oam1: &mut [u8],
    palette0: &mut [u8],
    palette1: &mut [u8],
) -> u64
    ensures { turn result (access_machine unit0.new unit1.new left.now right.now nametables0.new nametables1.new oam0.new oam1.new palette0.new palette1.new) ≡
        shared_export which (write_call own address byte) (access_machine unit0.old unit1.old left.now right.now nametables0.old nametables1.old oam0.old oam1.old palette0.old palette1.old) }
{
    ppu::ppu_shared_write(
        which,
        unit0,
        unit1,
        address,
        byte,
        left,
        right,
        nametables0,
        nametables1,
        oam0,
        oam1,
        palette0,
        palette1,
    )
}

// For C: sprite DMA by unit 0 or 1.
#[unsafe(no_mangle)]
pub extern "C" fn ppu_shared_dma(
    which: u8,
    unit0: &mut [u8],
    unit1: &mut [u8],
    oam0: &mut [u8],
    oam1: &mut [u8],
    page: &[u8],
) -> u64
    ensures { turn result (dma_machine unit0.new unit1.new oam0.new oam1.new) ≡
        shared_export which (dma_call own page.now) (dma_machine unit0.old unit1.old oam0.old oam1.old) }
{
    ppu::ppu_shared_dma(which, unit0, unit1, oam0, oam1, page)
}

// For C: a run by unit 0 or 1. One that begins with a line of the picture is the plain run.
#[unsafe(no_mangle)]
pub extern "C" fn ppu_shared_run(
    which: u8,
    unit0: &mut [u8],
    unit1: &mut [u8],
    lines: u16,
    reason: u8,
    left: &[u8],
    right: &[u8],
    nametables0: &[u8],
    nametables1: &[u8],
    oam0: &[u8],
    oam1: &[u8],
    palette0: &[u8],
    palette1: &[u8],
    line: &mut [u8],
    colours: &mut [u8],
) -> u64
    ensures { turn result (run_machine unit0.new unit1.new left.now right.now nametables0.now nametables1.now oam0.now oam1.now palette0.now palette1.now line.new (numbers_of colours.new)) ≡
        shared_export which (run_call own reason lines) (run_machine unit0.old unit1.old left.now right.now nametables0.now nametables1.now oam0.now oam1.now palette0.now palette1.now line.old (numbers_of colours.old)) }
{
    ppu::ppu_shared_run(
        which,
        unit0,
        unit1,
        lines,
        reason,
        left,
        right,
        nametables0,
        nametables1,
        oam0,
        oam1,
        palette0,
        palette1,
        line,
        colours,
    )
}
