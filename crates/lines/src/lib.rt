// What a line does to the unit alone: Ppu -> Ppu, no memory. Inner functions, not public calls.
// A line that draws nothing: blank_line, pre_render. One that is drawn: draws, drawn, marked. Where a run stops: meets_nmi, meets_hit.
#![tactic(auto)]

ghost use Rattle.std.specs.Prelude.{◌≡◌, true, not, ◌&&◌, List, ℕ, ◌^◌, ◌<◌, eqb, ltb};
ghost use Rattle.model.specs.Unit.{line_length, bit, is_rendering};
ghost use Rattle.model.specs.Sprites.{overflows};
ghost use Rattle.model.specs.Line.{pre_render_line, blank_unit, any_of, hit_of, marked, drawn_unit};

use model::Ppu;

// The unit after line 261. Stores and returns here, in blank_line and in meets_nmi, as unit's nests: with literals, a match and one boolean in all of them
// a blank line takes ten instructions more.
#[tactic(auto, unfolding(model::specs::Line::pre_render_line))]
fn pre_render(u: Ppu) -> Ppu
    ensures { result ≡ pre_render_line u }
{
    let mut n = u;
    n.status = 0;
    n.scanline = 0;
    n.warm = true;
    if unit::rendering(u) {
        n.oamaddr = 0;
        n.v = u.t;
        return n;
    }
    n
}

// The unit after a line from 240 on.
#[tactic(auto, unfolding(model::specs::Line::blank_unit, model::specs::Line::vblank_line, model::specs::Line::idle_line))]
pub fn blank_line(u: Ppu) -> Ppu
    requires { u.scanline < 262 }
    ensures { result ≡ blank_unit u }
{
    let mut n = u;
    n.scanline = u.scanline + 1;
    if u.scanline == 241 {
        n.status = (u.status & 127) + 128;
        return n;
    }
    if u.scanline == 261 {
        return pre_render(u);
    }
    n
}

// Status with bit k set by a flag.
#[tactic(auto, using(crate::proofs::Mark::set_bit), unfolding(model::specs::Line::marked))]
fn marked(status: u8, k: usize, flag: bool) -> u8
    requires { k < 8 }
    ensures { result ≡ marked (2 ^ k) flag status }
{
    if flag { status | 1 << k } else { status }
}

// The next line is 0 to 239, and mask bit 3 or 4 is set.
pub fn draws(u: Ppu) -> bool
    ensures { result ≡ (ltb u.scanline 240 && is_rendering u) }
{
    u.scanline < 240 && unit::rendering(u)
}

// The unit after a line that was drawn, from the flags that it found.
#[tactic(auto, using(model::proofs::Scroll::down_lt), unfolding(model::specs::Line::drawn_unit, model::specs::Line::status_of))]
pub fn drawn(u: Ppu, hit: bool, over: bool) -> Ppu
    requires { (u.v < 32768) × (u.scanline < 240) × (is_rendering u ≡ true) }
    ensures { (l r n o : List ℕ) → hit ≡ any_of (hit_of u l r n o) line_length → over ≡ overflows u.control o u.scanline → result ≡ drawn_unit u l r n o }
{
    Ppu {
        status: marked(marked(u.status, 6, hit), 5, over),
        oamaddr: 0,
        v: unit::copy_side(u.t, unit::row_down(u.v)),
        scanline: u.scanline + 1,
        ..u
    }
}

// A reason is a number here and in scanline: what docs/TRACE.md says of these functions holds for each.
// A line that is not drawn meets a run's reason to stop: 1, it is line 241 and control bit 7 is set.
pub fn meets_nmi(reason: u8, control: u8, scanline: u16) -> bool
    ensures { result ≡ (eqb reason 1 && (bit 128 control && eqb scanline 241)) }
{
    if scanline == 241 {
        if reason == 1 {
            return bits::bit(control, 7);
        }
        return false;
    }
    false
}

// A drawn line meets it: 2, status bit 6 is 0 before the line, and sprite 0 hits.
pub fn meets_hit(reason: u8, status: u8, hit: bool) -> bool
    ensures { result ≡ (eqb reason 2 && (not (bit 64 status) && hit)) }
{
    reason == 2 && !bits::bit(status, 6) && hit
}
