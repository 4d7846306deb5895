// Accepted accesses and sprite DMA: what they do to the unit and to lent memory. Inner functions, not public calls: they require what their types
// do not say of the lengths that a call has checked.
// read, write, write_kept, dma; below them read_byte, read_unit, wrote, copy_page.
#![tactic(auto)]

ghost use Rattle.std.specs.Prelude.{◌≡◌, false, [], length};
ghost use Rattle.model.specs.Unit.{
  state,
  video,
  access_cells,
  access_memory,
  dma_memory,
  VideoLengths,
  nametable_length,
  oam_length,
};
ghost use Rattle.model.specs.Ports.{read_byte, read_unit, wrote_unit, dma_unit, dma_oam};
ghost use Rattle.lent.specs.Cells.{cells_of, accessed};
ghost use Rattle.model.specs.Calls.{
  access,
  done_answer,
  outcome_on,
  access_outcome,
  dma_outcome,
  read_done,
  write_done,
  dma_done,
};

use lent::{Lent, Tables};
use model::{Access, Ppu};

// The answer of a read; only ports 4 and 7 see memory.
#[tactic(auto, unfolding(model::specs::Ports::read_byte, model::specs::Ports::data_byte))]
pub fn read_byte(u: Ppu, port: u16, oam: &[u8; 256], palette: &[u8; 32]) -> u8
    ensures { result ≡ read_byte port u (access_cells [] [] [] oam.now palette.now) }
{
    match port {
        2 => reads::status_byte(u),
        4 => memory::oam_byte(u.oamaddr, oam),
        7 if u.v % 16384 < 16128 => u.buffer,
        7 => reads::palette_answer(u, memory::palette_byte(u.v, palette)),
        _ => u.latch,
    }
}

// The unit after a read with this answer.
#[tactic(auto, unfolding(model::specs::Ports::read_unit, model::specs::Ports::read_data))]
pub fn read_unit(
    u: Ppu,
    port: u16,
    answer: u8,
    tables: Tables,
    nametables: &[u8],
    palette: &[u8; 32],
) -> Ppu
    requires { length nametables.now ≡ nametable_length u.board }
    ensures { result ≡ read_unit port u answer (video tables.entry.left.now tables.entry.right.now nametables.now palette.now) }
{
    match port {
        2 => reads::read_status(u, answer),
        7 => {
            let buffer = memory::buffer_byte(u.board, u.v, tables, nametables, palette);
            reads::read_data(u, answer, buffer)
        }
        _ => reads::fill_latch(u, answer),
    }
}

// An accepted read of a port. Inlined: several exports share it, and it would stay a call in each.
#[inline(always)]
#[tactic(auto, using(crate::proofs::Cases::unit_lent), unfolding(model::specs::Calls::read_done, model::specs::Ports::read_byte, model::specs::Ports::data_byte))]
pub fn read(u: Ppu, port: u16, m: Lent) -> Access
    requires { length m.nametables.now ≡ nametable_length u.board }
    ensures { outcome_on result (accessed m.entry) ≡ read_done port (state u (accessed m.entry)) }
{
    let byte = read_byte(u, port, m.oam, m.palette);
    let next = read_unit(u, port, byte, m.tables, m.nametables, m.palette);
    unit::done(byte, next)
}

// What an accepted write hands back. Inlined: shared by `write` and `write_kept`, it would stay a call in both.
#[inline(always)]
fn wrote(u: Ppu, port: u16, byte: u8) -> Access
    ensures { result ≡ access (done_answer 0 (wrote_unit port u byte)) (wrote_unit port u byte) }
{
    unit::done(0, registers::write_unit(u, port, byte))
}

// An accepted write of a port. Slices whose lengths are required: `&mut` memories do not travel as one Lent, and a caller would make each array alone.
pub fn write(
    u: Ppu,
    port: u16,
    byte: u8,
    left: &mut [u8],
    right: &mut [u8],
    nametables: &mut [u8],
    oam: &mut [u8],
    palette: &mut [u8],
) -> Access
    requires { VideoLengths u.board (video left.old right.old nametables.old palette.old) × (length oam.old ≡ oam_length) }
    ensures { access_outcome result left.new right.new nametables.new oam.new palette.new ≡
        write_done port byte (state u (access_memory left.old right.old nametables.old oam.old palette.old)) }
{
    memory::write_video(u, port, byte, left, right, nametables, palette);
    memory::write_oam(u, port, byte, oam);
    wrote(u, port, byte)
}

// An accepted write of a port, where pattern memory is not writable: the tables stay.
pub fn write_kept(
    u: Ppu,
    port: u16,
    byte: u8,
    left: &[u8],
    right: &[u8],
    nametables: &mut [u8],
    oam: &mut [u8],
    palette: &mut [u8],
) -> Access
    requires { VideoLengths u.board (video left.now right.now nametables.old palette.old) × (length oam.old ≡ oam_length) × (u.board.writable ≡ false) }
    ensures { access_outcome result left.now right.now nametables.new oam.new palette.new ≡
        write_done port byte (state u (access_memory left.now right.now nametables.old oam.old palette.old)) }
{
    memory::write_kept(u, port, byte, left, right, nametables, palette);
    memory::write_oam(u, port, byte, oam);
    wrote(u, port, byte)
}

// Writes of port 4 with the page's bytes in order.
#[tactic(auto, unfolding(model::specs::Ports::dma_unit, model::specs::Ports::dma_oam))]
fn copy_page(u: Ppu, oam: &mut [u8; 256], page: &[u8]) -> Ppu
    ensures { (result ≡ dma_unit page.now u) × (oam.new ≡ dma_oam page.now u oam.old) }
{
    let mut n = u;
    for &byte in page {
        memory::write_oam(n, 4, byte, oam);
        n = registers::write_unit(n, 4, byte);
    }
    n
}

// An accepted sprite DMA.
#[tactic(auto, unfolding(model::specs::Calls::dma_done))]
pub fn dma(u: Ppu, oam: &mut [u8; 256], page: &[u8; 256]) -> Access
    ensures { dma_outcome result oam.new ≡ dma_done page.now (state u (dma_memory oam.old)) }
{
    unit::done(0, copy_page(u, oam, page))
}
