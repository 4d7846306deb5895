// The unit by itself: Ppu -> Ppu, no memory. Inner functions, not public calls.
// rendering, drawing, well_formed, nmi; v's steps: row_down, copy_side, and step after an access of port 7;
// what a call hands back: done, ran, looked, refused.
#![tactic(auto)]

ghost use Rattle.std.specs.Prelude.{◌≡◌, ◌<◌};
ghost use Rattle.model.specs.Unit.{is_rendering, is_drawing, is_well_formed, nmi_level};
ghost use Rattle.model.specs.Ports.{stepped};
ghost use Rattle.model.specs.Scroll.{row_down, copy_side};
ghost use Rattle.model.specs.Calls.{access, done_answer, ran_answer, looked_answer, refused_access};

use model::{Access, Answer, Ppu};

// Mask bit 3 or 4 is set.
#[tactic(auto, unfolding(model::specs::Unit::is_rendering))]
pub fn rendering(u: Ppu) -> bool
    ensures { result ≡ is_rendering u }
{
    bits::field(u.mask, 3, 2) != 0
}

// Mask bit 3 or 4 is set and next line is 0 to 239 or 261. Nested, as step is in two literals: with one boolean here, one pick there and guards
// in registers ppu_dma takes 139 ns and not 16, a write 5 to 9 % longer.
#[tactic(auto, unfolding(model::specs::Unit::is_drawing))]
pub fn drawing(u: Ppu) -> bool
    ensures { result ≡ is_drawing u }
{
    if rendering(u) {
        if u.scanline < 240 {
            return true;
        }
        return u.scanline == 261;
    }
    false
}

// The unit is within the limits of its record.
#[tactic(auto, unfolding(model::specs::Unit::is_well_formed))]
pub fn well_formed(u: Ppu) -> bool
    ensures { result ≡ is_well_formed u }
{
    u.status & 31 == 0 && u.v < 32768 && u.t < 32768 && u.x < 8 && u.scanline < 262
}

// Status bit 7 and control bit 7.
#[tactic(auto, unfolding(model::specs::Unit::nmi_level))]
pub fn nmi(u: Ppu) -> bool
    ensures { result ≡ nmi_level u }
{
    bits::bit(u.status, 7) && bits::bit(u.control, 7)
}

// v one row down.
#[tactic(auto, using(crate::proofs::Turn::turned_11), unfolding(model::specs::Scroll::row_down))]
pub fn row_down(v: u16) -> u16
    requires { v < 32768 }
    ensures { result ≡ row_down v }
{
    let row = v >> 5 & 31;
    let first = v & 4095;
    if v >> 12 < 7 {
        v + 4096
    } else if row == 29 {
        (first - 928) ^ 2048 // nametable bit 11 turns
    } else if row == 31 {
        first - 992
    } else {
        first + 32
    }
}

// v with bits 10 and 4-0 of t.
#[tactic(auto, unfolding(model::specs::Scroll::copy_side))]
pub fn copy_side(t: u16, v: u16) -> u16
    requires { v < 32768 }
    ensures { result ≡ copy_side t v }
{
    (v >> 11) * 2048 + (t >> 10 & 1) * 1024 + (v >> 5 & 31) * 32 + (t & 31)
}

// v after an access of port 7: up by 1, or 32 if control bit 2.
#[tactic(auto, unfolding(model::specs::Ports::stepped))]
pub fn step(u: Ppu) -> Ppu
    ensures { result ≡ stepped u }
{
    let v = u.v % 32768;
    if u.control / 4 % 2 == 1 {
        return Ppu {
            v: (v + 32) % 32768,
            ..u
        };
    }
    Ppu {
        v: (v + 1) % 32768,
        ..u
    }
}

// An answer with nothing in it.
const NOTHING: Answer = Answer {
    number: 0,
    byte: 0,
    lines: 0,
    nmi: false,
    met: false,
    looked: 0,
};

// A call that is done: its byte, and the NMI level after it.
pub fn done(byte: u8, u: Ppu) -> Access
    ensures { result ≡ access (done_answer byte u) u }
{
    Access {
        answer: Answer {
            byte,
            nmi: nmi(u),
            ..NOTHING
        },
        unit: u,
    }
}

// A run that is done: the lines it ran, and whether its reason to stop was met.
pub fn ran(lines: u16, met: bool, u: Ppu) -> Access
    ensures { result ≡ access (ran_answer lines met u) u }
{
    Access {
        answer: Answer {
            lines: u32::from(lines),
            nmi: nmi(u),
            met,
            ..NOTHING
        },
        unit: u,
    }
}

// A search that is done: the sprites it looked at.
pub fn looked(n: u8, u: Ppu) -> Access
    ensures { result ≡ access (looked_answer n u) u }
{
    Access {
        answer: Answer {
            nmi: nmi(u),
            looked: n,
            ..NOTHING
        },
        unit: u,
    }
}

// A refused call: the unit stays. By number: what docs/TRACE.md says of it holds for each.
pub fn refused(number: u8, u: Ppu) -> Access
    ensures { result ≡ refused_access number u }
{
    Access {
        answer: Answer { number, ..NOTHING },
        unit: u,
    }
}
