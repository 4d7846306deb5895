// One line, and runs of lines. Inner functions, not public calls: they require the well-formed unit that a call has checked,
// and nametable RAM as long as its board says.
// A drawn line: background_shown, zero_hits, overlay, sprites_shown, draw. Of the mask: hidden.
// Any line: undrawn_unit, undrawn_buffers, undrawn, one_line. A run: line_by_table, run.
// That the unit is well formed is a clause and no type: a unit comes by value from users, and each function here reads its fields.
#![tactic(auto)]

ghost use Rattle.std.specs.Prelude.{◌≡◌, cond, true, false, ◌&&◌, List, [], ℕ, ◌+◌, ◌-◌, ◌<◌, ◌≤◌, eqb, ltb, length, take};
ghost use Rattle.model.specs.Unit.{state, line_memory, line_length, nametable_length, bit, is_rendering, is_well_formed};
ghost use Rattle.model.specs.Sprites.{covers, places_of, overflows};
ghost use Rattle.model.specs.Line.{tab, any_of, hit_of, picture, one_line};
ghost use Rattle.model.specs.Colours.{numbers_of};
ghost use Rattle.lent.specs.Cells.{drawn_on};
ghost use Rattle.draw_colours.specs.Table.{RunShades};
ghost use Rattle.scanline.specs.Shown.{IsLine, IsRun, back_of, over_line, hit_line, seen};

use lent::{Lent, Tables};
use model::{Board, Ppu};

// What drawing a line finds beside its pixels: sprite 0 hit, overflow.
#[derive(Clone, Copy)]
pub struct Flags {
    pub hit: bool,
    pub over: bool,
}

// What a run comes to: the unit after it, the lines it ran, and whether its reason to stop was met.
#[derive(Clone, Copy)]
pub struct Ran {
    pub unit: Ppu,
    pub lines: u16,
    pub met: bool,
}

// How many columns at the left edge are hidden, by the mask bit that shows them.
fn hidden(shown: bool) -> usize
    ensures { (result ≡ cond shown 0 8) × (result ≤ 8) }
{
    if shown { 0 } else { 8 }
}

// The background of a line as the mask shows it.
#[tactic(auto, using(crate::proofs::Cases::shown_cases))]
fn background_shown(u: Ppu, tables: Tables, nametables: &[u8], line: &mut [u8; 256])
    requires { (length nametables.now ≡ nametable_length u.board) × (u.v < 32768) × (u.x < 8) }
    ensures { line.new ≡ tab (back_of u tables.entry.left.now tables.entry.right.now nametables.now) line_length }
{
    if bits::bit(u.mask, 3) {
        let second = bits::bit(u.control, 4);
        background::background(u.board, second, u.v, u.x, tables, nametables, line);
        pixels::clear(line, hidden(bits::bit(u.mask, 1)));
    } else {
        line.fill(0);
    }
}

// Sprite 0 and the line's background are opaque in some column below 255, sprites hidden in the first `skip`.
#[tactic(auto, using(crate::proofs::Laws::hit_1))]
fn zero_hits(u: Ppu, n: u8, skip: usize, tables: Tables, oam: &[u8; 256], line: &[u8; 256]) -> bool
    requires { (n ≡ u.scanline) × (skip ≡ cond (bit 4 u.mask) 0 8) × (skip ≤ 8) × (bit 16 u.mask ≡ true) }
    ensures { result ≡ hit_line u tables.entry.left.now tables.entry.right.now oam.now line.now }
{
    sprites::zero_meets(u.control, n, skip, tables, oam, line)
}

// The chosen sprites over the line, hidden in the first `skip` columns.
fn overlay(
    u: Ppu,
    n: u8,
    skip: usize,
    tables: Tables,
    oam: &[u8; 256],
    shown: &[u8],
    line: &mut [u8; 256],
)
    requires { (n ≡ u.scanline) × (skip ≡ cond (bit 4 u.mask) 0 8) × (skip ≤ 8) × (bit 16 u.mask ≡ true)
        × (shown.now ≡ cond (eqb n 0) [] (take 8 (places_of (covers u.control oam.now (n - 1)) 64))) }
    ensures { line.new ≡ over_line u tables.entry.left.now tables.entry.right.now oam.now line.old }
{
    let mut row = [0u8; 264];
    sprites::sprite_row(u.control, n, tables, oam, shown, &mut row);
    pixels::clear(&mut row, skip);
    sprites::merge_row(line, &row, oam, shown);
}

// The sprites over the line's background, with mask bit 4, and the flags.
#[tactic(auto, using(crate::proofs::Laws::none_shown))]
fn sprites_shown(u: Ppu, tables: Tables, oam: &[u8; 256], line: &mut [u8; 256]) -> Flags
    requires { u.scanline < 240 }
    ensures { (line.new ≡ over_line u tables.entry.left.now tables.entry.right.now oam.now line.old)
        × (result.hit ≡ hit_line u tables.entry.left.now tables.entry.right.now oam.now line.old)
        × (result.over ≡ overflows u.control oam.now u.scanline) }
{
    let n = u.scanline as u8;
    let mut list = [0u8; 65];
    let chosen = choice::choose(u.control, n, oam, &mut list);
    let mut hit = false;
    if bits::bit(u.mask, 4) && 0 < chosen.count {
        let skip = hidden(bits::bit(u.mask, 2));
        hit = zero_hits(u, n, skip, tables, oam, line);
        overlay(u, n, skip, tables, oam, &list[..chosen.count], line);
    }
    Flags {
        hit,
        over: chosen.over,
    }
}

// The 256 pixel numbers of a line with mask bit 3 or 4, and the flags. It takes the parts that it needs, of the unit and of what is lent,
// and both its callers call it directly: so it is the one function of a line that stays a call, and the unit need not go through memory.
#[tactic(auto, using(crate::proofs::Laws::drawn_1, crate::proofs::Laws::drawn_2))]
fn draw(
    control: u8,
    mask: u8,
    v: u16,
    x: u8,
    scanline: u16,
    board: Board,
    tables: Tables,
    nametables: &[u8],
    oam: &[u8; 256],
    line: &mut [u8; 256],
) -> Flags
    requires { (length nametables.now ≡ nametable_length board) × (v < 32768) × (x < 8) × (scanline < 240)
        × (is_rendering (seen control mask v x scanline board) ≡ true) }
    ensures { (line.new ≡ picture (seen control mask v x scanline board) tables.entry.left.now tables.entry.right.now nametables.now oam.now)
        × (result.hit ≡ any_of (hit_of (seen control mask v x scanline board) tables.entry.left.now tables.entry.right.now nametables.now oam.now) line_length)
        × (result.over ≡ overflows control oam.now scanline) }
{
    let u = Ppu {
        control,
        mask,
        status: 0,
        oamaddr: 0,
        v,
        t: 0,
        x,
        w: false,
        buffer: 0,
        latch: 0,
        scanline,
        warm: false,
        board,
    };
    background_shown(u, tables, nametables, line);
    sprites_shown(u, tables, oam, line)
}

// The unit after a line that is not drawn.
#[tactic(auto, using(crate::proofs::Cases::unit_cases))]
pub fn undrawn_unit(u: Ppu) -> Ppu
    requires { (is_well_formed u ≡ true) × (ltb u.scanline 240 && is_rendering u ≡ false) }
    ensures { (l r n o p b f : List ℕ) → result ≡ (one_line (state u (line_memory l r n o p b f))).unit }
{
    if 239 < u.scanline {
        return lines::blank_line(u);
    }
    Ppu {
        scanline: u.scanline + 1,
        ..u
    }
}

// The buffers after it: all zero, in the backdrop's colour, from 0 to 239; untouched from 240 on.
#[tactic(auto, using(crate::proofs::Cases::buffers_cases))]
pub fn undrawn_buffers(u: Ppu, palette: &[u8; 32], line: &mut [u8; 256], colours: &mut [u8; 512])
    requires { ltb u.scanline 240 && is_rendering u ≡ false }
    ensures { (l r n o : List ℕ) → line_memory l r n o palette.now line.new (numbers_of colours.new) ≡ (one_line (state u (line_memory l r n o palette.now line.old (numbers_of colours.old)))).memory }
{
    if u.scanline < 240 {
        line.fill(0);
        draw_colours::backdrop(u, palette, colours);
    }
}

// Both.
#[tactic(auto, using(crate::proofs::Cases::undrawn_is))]
fn undrawn(u: Ppu, palette: &[u8; 32], line: &mut [u8; 256], colours: &mut [u8; 512]) -> Ppu
    requires { (is_well_formed u ≡ true) × (ltb u.scanline 240 && is_rendering u ≡ false) }
    ensures { (l r n o : List ℕ) → state result (line_memory l r n o palette.now line.new (numbers_of colours.new)) ≡ one_line (state u (line_memory l r n o palette.now line.old (numbers_of colours.old))) }
{
    undrawn_buffers(u, palette, line, colours);
    undrawn_unit(u)
}

// A run of one line: it needs no loop, and no table unless the line is drawn. So it is not line_by_table, with a table to make for each line.
#[tactic(auto, using(crate::proofs::Cases::line_cases))]
pub fn one_line(u: Ppu, reason: u8, m: Lent, line: &mut [u8; 256], colours: &mut [u8; 512]) -> Ran
    requires { (length m.nametables.now ≡ nametable_length u.board) × (is_well_formed u ≡ true) }
    ensures { IsRun reason 1 (state u (drawn_on m.entry line.old (numbers_of colours.old)))
        result.lines result.met (state result.unit (drawn_on m.entry line.new (numbers_of colours.new))) }
{
    if lines::draws(u) {
        let f = draw(
            u.control,
            u.mask,
            u.v,
            u.x,
            u.scanline,
            u.board,
            m.tables,
            m.nametables,
            m.oam,
            line,
        );
        draw_colours::show(u.mask, m.palette, line, colours);
        return Ran {
            unit: lines::drawn(u, f.hit, f.over),
            lines: 1,
            met: lines::meets_hit(reason, u.status, f.hit),
        };
    }
    Ran {
        unit: undrawn(u, m.palette, line, colours),
        lines: 1,
        met: lines::meets_nmi(reason, u.control, u.scanline),
    }
}

// A line of a run, its colours by the run's table: the unit after it, and whether it meets the reason to stop. run alone calls it, so that it is
// no call of its own.
#[tactic(auto, using(crate::proofs::Cases::line_cases))]
fn line_by_table(
    u: Ppu,
    reason: u8,
    table: &[u32; 32],
    m: Lent,
    line: &mut [u8; 256],
    colours: &mut [u8; 512],
) -> (Ppu, bool)
    requires { (length m.nametables.now ≡ nametable_length u.board) × (is_well_formed u ≡ true) × RunShades u m.palette.now table.now }
    ensures { IsLine reason (state u (drawn_on m.entry line.old (numbers_of colours.old)))
        (state result.0 (drawn_on m.entry line.new (numbers_of colours.new))) result.1 }
{
    if lines::draws(u) {
        let f = draw(
            u.control,
            u.mask,
            u.v,
            u.x,
            u.scanline,
            u.board,
            m.tables,
            m.nametables,
            m.oam,
            line,
        );
        draw_colours::look_up(table, line, colours);
        let met = lines::meets_hit(reason, u.status, f.hit);
        return (lines::drawn(u, f.hit, f.over), met);
    }
    let met = lines::meets_nmi(reason, u.control, u.scanline);
    (undrawn(u, m.palette, line, colours), met)
}

// At most n lines, up to the one that meets the reason to stop.
pub fn run(
    u: Ppu,
    n: u16,
    reason: u8,
    m: Lent,
    line: &mut [u8; 256],
    colours: &mut [u8; 512],
) -> Ran
    requires { (length m.nametables.now ≡ nametable_length u.board) × (is_well_formed u ≡ true) }
    ensures { IsRun reason n (state u (drawn_on m.entry line.old (numbers_of colours.old)))
        result.lines result.met (state result.unit (drawn_on m.entry line.new (numbers_of colours.new))) }
{
    let table = draw_colours::run_table(u, m.palette);
    let mut next = u;
    for i in 0..n {
        let (after, met) = line_by_table(next, reason, &table, m, line, colours);
        next = after;
        if met {
            return Ran {
                unit: next,
                lines: i + 1,
                met,
            };
        }
    }
    Ran {
        unit: next,
        lines: n,
        met: false,
    }
}
