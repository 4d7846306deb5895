// The public call on a unit by value that runs lines: run. It has no `requires`: it refuses what it cannot take, 5 then 3 then 2, and a refused call
// leaves the unit and every lent memory as they were. Within, for a reason that is known, the same with the colours lent as bytes, for C: run_bytes,
// which does the work; for one line line_bytes, and undrawn_line for the unit alone of one that is not drawn.
// A reason stays the number that C gives: an enum would be made of it here and unmade for scanline.
#![tactic(auto)]

ghost use Rattle.std.specs.Prelude.{◌≡◌, true, false, ◌&&◌, List, ℕ, ◌≤◌, ltb};
ghost use Rattle.model.specs.Unit.{state, line_memory, is_rendering, is_well_formed};
ghost use Rattle.model.specs.Colours.{numbers_of};
ghost use Rattle.model.specs.Calls.{line_outcome, on_lent, run_call, own};
ghost use Rattle.runs.specs.After.{after_line};

use lent::Lent;
use model::{Access, Ppu, Refusal};

// A run of one line. It stands beside run_bytes, so that it compiles to no loop and no table.
#[tactic(auto, unfolding(model::specs::Calls::on_lent, model::specs::Calls::refusal_of, model::specs::Calls::plain_refusal, model::specs::Calls::order))]
pub fn line_bytes(
    u: Ppu,
    reason: u8,
    left: &[u8],
    right: &[u8],
    nametables: &[u8],
    oam: &[u8],
    palette: &[u8],
    line: &mut [u8],
    colours: &mut [u8],
) -> Access
    requires { reason ≤ 2 }
    ensures { line_outcome result left.now right.now nametables.now oam.now palette.now line.new (numbers_of colours.new) ≡
        on_lent (run_call own reason 1) (state u (line_memory left.now right.now nametables.now oam.now palette.now line.old (numbers_of colours.old))) }
{
    let m = match refusals::plain(Lent::new(u.board, left, right, nametables, oam, palette), u) {
        Ok(m) => m,
        Err(r) => return unit::refused(r as u8, u),
    };
    let Some(line) = line.as_mut_array() else {
        return unit::refused(Refusal::Length as u8, u);
    };
    let Some(colours) = colours.as_mut_array() else {
        return unit::refused(Refusal::Length as u8, u);
    };
    let one = scanline::one_line(u, reason, m, line, colours);
    unit::ran(one.lines, one.met, one.unit)
}

// The answer and the unit of one line that is not drawn, accepted.
pub fn undrawn_line(u: Ppu, reason: u8) -> Access
    requires { (is_well_formed u ≡ true) × (ltb u.scanline 240 && is_rendering u ≡ false) }
    ensures { (l r n o p b f : List ℕ) → result ≡ after_line reason (state u (line_memory l r n o p b f)) }
{
    let met = lines::meets_nmi(reason, u.control, u.scanline);
    unit::ran(1, met, scanline::undrawn_unit(u))
}

// At most `lines` lines, up to the one that meets the reason to stop: 0 none, 1 NMI, 2 status bit 6 from 0 to 1. It reports how many lines it
// ran, and whether the reason was met.
#[tactic(auto, unfolding(model::specs::Calls::on_lent, model::specs::Calls::refusal_of, model::specs::Calls::plain_refusal, model::specs::Calls::order), using(model::proofs::Colours::sized_bytes))]
pub fn run_bytes(
    u: Ppu,
    lines: u16,
    reason: u8,
    left: &[u8],
    right: &[u8],
    nametables: &[u8],
    oam: &[u8],
    palette: &[u8],
    line: &mut [u8],
    colours: &mut [u8],
) -> Access
    requires { reason ≤ 2 }
    ensures { line_outcome result left.now right.now nametables.now oam.now palette.now line.new (numbers_of colours.new) ≡
        on_lent (run_call own reason lines) (state u (line_memory left.now right.now nametables.now oam.now palette.now line.old (numbers_of colours.old))) }
{
    let m = match refusals::plain(Lent::new(u.board, left, right, nametables, oam, palette), u) {
        Ok(m) => m,
        Err(r) => return unit::refused(r as u8, u),
    };
    let Some(line) = line.as_mut_array::<256>() else {
        return unit::refused(Refusal::Length as u8, u);
    };
    let Some(colours) = colours.as_mut_array::<512>() else {
        return unit::refused(Refusal::Length as u8, u);
    };
    let r = scanline::run(u, lines, reason, m, line, colours);
    unit::ran(r.lines, r.met, r.unit)
}

// The same, the colours as numbers.
#[tactic(auto, unfolding(model::specs::Calls::on_lent, model::specs::Calls::refusal_of, model::specs::Calls::plain_refusal, model::specs::Calls::order))]
pub fn run(
    u: Ppu,
    lines: u16,
    reason: u8,
    left: &[u8],
    right: &[u8],
    nametables: &[u8],
    oam: &[u8],
    palette: &[u8],
    line: &mut [u8],
    colours: &mut [u16],
) -> Access
    ensures { line_outcome result left.now right.now nametables.now oam.now palette.now line.new colours.new ≡
        on_lent (run_call own reason lines) (state u (line_memory left.now right.now nametables.now oam.now palette.now line.old colours.old)) }
{
    if 2 < reason {
        return unit::refused(Refusal::Request as u8, u);
    }
    let Some(numbers) = colours.as_mut_array::<256>() else {
        let r = if unit::well_formed(u) {
            Refusal::Length
        } else {
            Refusal::Unit
        };
        return unit::refused(r as u8, u);
    };
    let mut bytes = [0u8; 512];
    memory_pairs::put(numbers, &mut bytes);
    let a = run_bytes(
        u, lines, reason, left, right, nametables, oam, palette, line, &mut bytes,
    );
    memory_pairs::take(&bytes, numbers);
    a
}
