// Public calls on a unit by value: fresh, load, save make and keep one; read, write, dma are its accesses; search reports the search for
// overflow. None has a `requires`: a call refuses what it cannot take, in the order 5, 2 for a record, 3, 2 for lent memory, 1, 4, and a refused
// call leaves the unit, the record and every lent memory as they were.
#![tactic(auto)]

ghost use Rattle.std.specs.Prelude.{◌≡◌};
ghost use Rattle.model.specs.Unit.{state, access_memory, dma_memory};
ghost use Rattle.model.specs.Calls.{
  fresh_call,
  load_call,
  saved as saved_of,
  save_call,
  access_outcome,
  dma_outcome,
  on_lent,
  read_call,
  write_call,
  dma_call,
  search_call,
  own,
};

use lent::Lent;
use model::{Access, Ppu, Refusal};

// A fresh unit of this board byte: 3 where the byte is not well formed.
#[tactic(auto, unfolding(model::specs::Calls::fresh_call))]
pub fn fresh(board: u8) -> Access
    ensures { result ≡ fresh_call board }
{
    if record::board_ok(board) {
        return unit::done(0, record::fresh(record::board_at(board)));
    }
    refusals::unmade(Refusal::Unit as u8)
}

// The unit of a saved unit's record: 2 for another length than 16, 3 where it is not well formed.
pub fn load(saved: &[u8]) -> Access
    ensures { result ≡ load_call saved.now }
{
    match refusals::record(saved) {
        Ok(u) => unit::done(0, u),
        Err(r) => refusals::unmade(r as u8),
    }
}

// The unit's record, written over 16 bytes: 2 for another length, 3 for a unit that is not well formed.
#[tactic(auto, unfolding(model::specs::Calls::save_call))]
pub fn save(u: Ppu, saved: &mut [u8]) -> Access
    ensures { saved_of result saved.new ≡ save_call u saved.old }
{
    let Some(saved) = saved.as_mut_array::<16>() else {
        return unit::refused(Refusal::Length as u8, u); // not 16 bytes
    };
    if !unit::well_formed(u) {
        return unit::refused(Refusal::Unit as u8, u);
    }
    record::put(u, saved);
    unit::done(0, u)
}

// A read of the port that an address names. Inlined: several exports share it, and it would stay a call in each.
#[inline(always)]
#[tactic(auto, unfolding(model::specs::Calls::on_lent, model::specs::Calls::refusal_of, model::specs::Calls::access_refusal, model::specs::Calls::done))]
pub fn read(
    u: Ppu,
    address: u16,
    left: &[u8],
    right: &[u8],
    nametables: &[u8],
    oam: &[u8],
    palette: &[u8],
) -> Access
    ensures { access_outcome result left.now right.now nametables.now oam.now palette.now ≡
        on_lent (read_call own address) (state u (access_memory left.now right.now nametables.now oam.now palette.now)) }
{
    let lent = Lent::new(u.board, left, right, nametables, oam, palette);
    match refusals::access(lent, u, address, refusals::blocked_read(address)) {
        Ok(m) => ports::read(u, address % 8, m),
        Err(r) => unit::refused(r as u8, u),
    }
}

// A write of the port that an address names.
#[tactic(auto, unfolding(model::specs::Calls::on_lent, model::specs::Calls::refusal_of, model::specs::Calls::access_refusal, model::specs::Calls::done))]
pub fn write(
    u: Ppu,
    address: u16,
    byte: u8,
    left: &mut [u8],
    right: &mut [u8],
    nametables: &mut [u8],
    oam: &mut [u8],
    palette: &mut [u8],
) -> Access
    ensures { access_outcome result left.new right.new nametables.new oam.new palette.new ≡
        on_lent (write_call own address byte) (state u (access_memory left.old right.old nametables.old oam.old palette.old)) }
{
    let fits = Lent::new(u.board, left, right, nametables, oam, palette).map(|_| ());
    let port = address % 8;
    match refusals::access(fits, u, address, port == 7) {
        Ok(()) => ports::write(u, port, byte, left, right, nametables, oam, palette),
        Err(r) => unit::refused(r as u8, u),
    }
}

// Sprite DMA: 256 writes of port 4 with the page's bytes in order.
#[tactic(auto, unfolding(model::specs::Calls::on_lent, model::specs::Calls::refusal_of, model::specs::Calls::plain_refusal, model::specs::Calls::order))]
pub fn dma(u: Ppu, oam: &mut [u8], page: &[u8]) -> Access
    ensures { dma_outcome result oam.new ≡ on_lent (dma_call own page.now) (state u (dma_memory oam.old)) }
{
    let page = match refusals::plain(page.as_array::<256>(), u) {
        Ok(page) => page,
        Err(r) => return unit::refused(r as u8, u),
    };
    let Some(oam) = oam.as_mut_array::<256>() else {
        return unit::refused(Refusal::Length as u8, u);
    };
    ports::dma(u, oam, page)
}

// The search for overflow on a line from 0 to 239, as the unit's control byte and OAM stand: how many sprites it looks at. 5 for another line, first.
#[tactic(auto, unfolding(model::specs::Calls::on_lent, model::specs::Calls::refusal_of, model::specs::Calls::plain_refusal, model::specs::Calls::order))]
pub fn search(u: Ppu, line: u16, oam: &[u8]) -> Access
    ensures { dma_outcome result oam.now ≡ on_lent (search_call own line) (state u (dma_memory oam.now)) }
{
    if 239 < line {
        return unit::refused(Refusal::Request as u8, u);
    }
    match refusals::plain(oam.as_array::<256>(), u) {
        Ok(oam) => unit::looked(choice::search(u.control, line as u8, oam).looked, u),
        Err(r) => unit::refused(r as u8, u),
    }
}
