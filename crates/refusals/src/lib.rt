// What the public calls share: their refusals, and what an exported call leaves of its answer. Inner functions.
// unmade; refusals: record, access, plain, blocked_read; the record and the packed answer: pack, finish.
#![tactic(auto)]

ghost use Rattle.std.specs.Prelude.{◌≡◌, ◌&&◌, ◌*◌, eqb, Some, is_some, IfOk};
ghost use Rattle.model.specs.Unit.{line_length, colours_length};
ghost use Rattle.model.specs.Calls.{unmade as unmade_of, load_call, packed, saved_bytes, access_sizes, access_refusal, plain_refusal, blocked_read};
ghost use Rattle.refusals.specs.Refused.{number_in, loaded};

use model::{Access, Answer, Board, Ppu, Refusal, Wiring};

// A refused making hands back the all-zero unit. By number, as unit::refused: what docs/TRACE.md says of both holds for each.
pub fn unmade(number: u8) -> Access
    ensures { result ≡ unmade_of number }
{
    let u = record::fresh(Board {
        wiring: Wiring::Horizontal,
        writable: false,
    });
    unit::refused(number, u)
}

// The unit of a record, or its refusal.
#[tactic(auto, unfolding(model::specs::Calls::load_call, model::specs::Record::record_ok))]
pub fn record(saved: &[u8]) -> Result<Ppu, Refusal>
    ensures { load_call saved.now ≡ loaded result }
{
    let Some(saved) = saved.as_array::<16>() else {
        return Err(Refusal::Length);
    };
    if record::bytes_ok(saved) {
        let u = record::read_unit(saved);
        if unit::well_formed(u) {
            return Ok(u);
        }
    }
    Err(Refusal::Unit)
}

// What an access is lent, None where a length is wrong, or its refusal. `blocked`: refused while drawing.
#[tactic(auto, unfolding(model::specs::Calls::access_refusal, model::specs::Calls::plain_refusal, model::specs::Calls::order))]
pub fn access<T: Copy>(lent: Option<T>, u: Ppu, address: u16, blocked: bool) -> Result<T, Refusal>
    ensures number { number_in result ≡ access_refusal (is_some lent) u address blocked }
    ensures value { IfOk result (λ m. lent ≡ Some m) }
{
    let m = plain(lent, u)?;
    if !(8192..16384).contains(&address) {
        return Err(Refusal::Address);
    }
    if unit::drawing(u) && blocked {
        return Err(Refusal::Drawing);
    }
    Ok(m)
}

// The same of a call that takes no address.
#[tactic(auto, unfolding(model::specs::Calls::plain_refusal, model::specs::Calls::order))]
pub fn plain<T: Copy>(lent: Option<T>, u: Ppu) -> Result<T, Refusal>
    ensures number { number_in result ≡ plain_refusal (is_some lent) u }
    ensures value { IfOk result (λ m. lent ≡ Some m) }
{
    if !unit::well_formed(u) {
        return Err(Refusal::Unit);
    }
    lent.ok_or(Refusal::Length)
}

// A read of this address's port is refused while drawing: port 4 or 7.
pub fn blocked_read(address: u16) -> bool
    ensures { result ≡ blocked_read address }
{
    let port = address % 8;
    port == 4 || port == 7
}

// Bits 0-7 number, 8-15 byte, 16 NMI level, 17 a run's reason met, 24-31 sprites looked at, 32-63 line count.
pub fn pack(a: Answer) -> u64
    ensures { result ≡ packed a }
{
    a.number as u64
        + a.byte as u64 * 256
        + a.nmi as u64 * 65536
        + a.met as u64 * 131072
        + a.looked as u64 * 16777216
        + a.lines as u64 * 4294967296
}

// What an exported call does last: the record is the next unit's where the call is done, and the answer packed.
#[tactic(auto, unfolding(model::specs::Calls::saved_bytes))]
pub fn finish(a: Access, saved: &mut [u8]) -> u64
    ensures { (result ≡ packed a.answer) × (saved.new ≡ saved_bytes a saved.old) }
{
    if a.answer.number == 0 {
        if let Some(saved) = saved.as_mut_array::<16>() {
            record::put(a.unit, saved);
        }
    }
    pack(a.answer)
}
