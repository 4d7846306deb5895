// Two units, one cartridge: the public calls by a unit's number, on units by value: shared_read, shared_write, shared_dma, shared_run. None has a
// `requires`: a call refuses what it cannot take, in the order 7, 5, 3, 6, 2, 1, 4, and a refused call leaves both units and every lent memory as they
// were. Unit and memory of the unit that does not call are not looked at.
// Within, what they hand back: first, second, neither.
#![tactic(auto)]

ghost use Rattle.std.specs.Prelude.{◌≡◌};
ghost use Rattle.model.specs.Calls.{refusal, read_call, write_call, dma_call, run_call, own};
ghost use Rattle.model_shared.specs.Shared.{
  turn,
  shared_call,
  access_machine,
  dma_machine,
  run_machine,
};

use model::{Access, Answer, Ppu, Refusal};

// What a call by number hands back: its answer, and both units.
#[derive(Clone, Copy)]
pub struct Shared {
    pub answer: Answer,
    pub first: Ppu,
    pub second: Ppu,
}

// What unit 0's call hands back, unit 1's, and that of another number: 7.
fn first(a: Access, unit1: Ppu) -> Shared
    ensures { (result.answer ≡ a.answer) × (result.first ≡ a.unit) × (result.second ≡ unit1) }
{
    Shared {
        answer: a.answer,
        first: a.unit,
        second: unit1,
    }
}

fn second(unit0: Ppu, a: Access) -> Shared
    ensures { (result.answer ≡ a.answer) × (result.first ≡ unit0) × (result.second ≡ a.unit) }
{
    Shared {
        answer: a.answer,
        first: unit0,
        second: a.unit,
    }
}

fn neither(unit0: Ppu, unit1: Ppu) -> Shared
    ensures { (result.answer ≡ refusal 7) × (result.first ≡ unit0) × (result.second ≡ unit1) }
{
    first(unit::refused(Refusal::Which as u8, unit0), unit1)
}

// A read by unit 0 or 1.
#[tactic(auto, using(crate::proofs::Cases::number_cases))]
pub fn shared_read(
    which: u8,
    unit0: Ppu,
    unit1: Ppu,
    address: u16,
    left: &[u8],
    right: &[u8],
    nametables0: &[u8],
    nametables1: &[u8],
    oam0: &[u8],
    oam1: &[u8],
    palette0: &[u8],
    palette1: &[u8],
) -> Shared
    ensures { turn result.answer (access_machine result.first result.second left.now right.now nametables0.now nametables1.now oam0.now oam1.now palette0.now palette1.now) ≡
        shared_call which (read_call own address) (access_machine unit0 unit1 left.now right.now nametables0.now nametables1.now oam0.now oam1.now palette0.now palette1.now) }
{
    let (unit, nametables, oam, palette) = match which {
        0 => (unit0, nametables0, oam0, palette0),
        1 => (unit1, nametables1, oam1, palette1),
        _ => return neither(unit0, unit1),
    };
    let a = calls_shared_unit::read(unit, address, left, right, nametables, oam, palette);
    if which == 0 {
        first(a, unit1)
    } else {
        second(unit0, a)
    }
}

// A write by unit 0 or 1.
#[tactic(auto, using(crate::proofs::Cases::number_cases))]
pub fn shared_write(
    which: u8,
    unit0: Ppu,
    unit1: Ppu,
    address: u16,
    byte: u8,
    left: &[u8],
    right: &[u8],
    nametables0: &mut [u8],
    nametables1: &mut [u8],
    oam0: &mut [u8],
    oam1: &mut [u8],
    palette0: &mut [u8],
    palette1: &mut [u8],
) -> Shared
    ensures { turn result.answer (access_machine result.first result.second left.now right.now nametables0.new nametables1.new oam0.new oam1.new palette0.new palette1.new) ≡
        shared_call which (write_call own address byte) (access_machine unit0 unit1 left.now right.now nametables0.old nametables1.old oam0.old oam1.old palette0.old palette1.old) }
{
    // one call for each unit: the choice of one of two `&mut` is not covered by the proof of borrows
    match which {
        0 => {
            let a = calls_shared_unit::write(
                unit0,
                address,
                byte,
                left,
                right,
                nametables0,
                oam0,
                palette0,
            );
            first(a, unit1)
        }
        1 => {
            let a = calls_shared_unit::write(
                unit1,
                address,
                byte,
                left,
                right,
                nametables1,
                oam1,
                palette1,
            );
            second(unit0, a)
        }
        _ => neither(unit0, unit1),
    }
}

// Sprite DMA by unit 0 or 1.
#[tactic(auto, using(crate::proofs::Cases::number_cases))]
pub fn shared_dma(
    which: u8,
    unit0: Ppu,
    unit1: Ppu,
    oam0: &mut [u8],
    oam1: &mut [u8],
    page: &[u8],
) -> Shared
    ensures { turn result.answer (dma_machine result.first result.second oam0.new oam1.new) ≡
        shared_call which (dma_call own page.now) (dma_machine unit0 unit1 oam0.old oam1.old) }
{
    // one call for each unit, as in shared_write
    match which {
        0 => first(calls_shared_unit::dma(unit0, oam0, page), unit1),
        1 => second(unit0, calls_shared_unit::dma(unit1, oam1, page)),
        _ => neither(unit0, unit1),
    }
}

// A run by unit 0 or 1. One with none of lines 0 to 239 in it fills both line buffers with zeros.
#[tactic(auto, using(crate::proofs::Cases::number_cases))]
pub fn shared_run(
    which: u8,
    unit0: Ppu,
    unit1: Ppu,
    lines: u16,
    reason: u8,
    left: &[u8],
    right: &[u8],
    nametables0: &[u8],
    nametables1: &[u8],
    oam0: &[u8],
    oam1: &[u8],
    palette0: &[u8],
    palette1: &[u8],
    line: &mut [u8],
    colours: &mut [u16],
) -> Shared
    ensures { turn result.answer (run_machine result.first result.second left.now right.now nametables0.now nametables1.now oam0.now oam1.now palette0.now palette1.now line.new colours.new) ≡
        shared_call which (run_call own reason lines) (run_machine unit0 unit1 left.now right.now nametables0.now nametables1.now oam0.now oam1.now palette0.now palette1.now line.old colours.old) }
{
    let (unit, nametables, oam, palette) = match which {
        0 => (unit0, nametables0, oam0, palette0),
        1 => (unit1, nametables1, oam1, palette1),
        _ => return neither(unit0, unit1),
    };
    let a = calls_shared_unit::run(
        unit, lines, reason, left, right, nametables, oam, palette, line, colours,
    );
    if which == 0 {
        first(a, unit1)
    } else {
        second(unit0, a)
    }
}
