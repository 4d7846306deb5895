// The calls by the unit of a record, which the exports for C and their play share. Inner functions: what they take is checked as in the calls on a unit.
// fresh_record, read_record, write_record; run, and within it line_record and run_record; play_entry.
// Slices and numbers, as the exports for C have them. Each call says load, call and finish anew, here, in calls_shared_records and in ppu: what a closure
// that holds `&mut` slices leaves of them is not known where it is passed, so one function over a closure proves for slices that are read alone.
#![tactic(auto)]

ghost use Rattle.std.specs.Prelude.{◌≡◌, ◌≤◌};
ghost use Rattle.model.specs.Unit.{access_memory, line_memory};
ghost use Rattle.model.specs.Colours.{numbers_of};
ghost use Rattle.model.specs.Calls.{
  exported,
  fresh_on_record,
  exported_call,
  read_call,
  write_call,
  run_call,
  own,
};
ghost use Rattle.model.specs.Log.{exported_entry};

use lent::Lent;
use model::{Access, Entry, Refusal};

// A fresh unit for a record of this length.
#[tactic(auto, unfolding(model::specs::Calls::fresh_on_record))]
pub fn fresh_record(saved: &[u8], board: u8) -> Access
    ensures { result ≡ fresh_on_record saved.now board }
{
    if saved.len() != 16 {
        return refusals::unmade(Refusal::Length as u8);
    }
    accesses::fresh(board)
}

// A read, by the unit of a record. Inlined: shared by two exports, it would stay a call in both.
#[inline(always)]
#[tactic(auto, unfolding(model::specs::Calls::exported_call, model::specs::Calls::on_record), using(crate::proofs::Cases::refused))]
pub fn read_record(
    unit: &mut [u8],
    address: u16,
    left: &[u8],
    right: &[u8],
    nametables: &[u8],
    oam: &[u8],
    palette: &[u8],
) -> u64
    ensures { exported result unit.new (access_memory left.now right.now nametables.now oam.now palette.now) ≡
        exported_call (read_call own address) unit.old (access_memory left.now right.now nametables.now oam.now palette.now) }
{
    match refusals::record(unit) {
        Ok(u) => {
            let a = accesses::read(u, address, left, right, nametables, oam, palette);
            refusals::finish(a, unit)
        }
        Err(r) => r as u64,
    }
}

// A write, by the unit of a record.
#[tactic(auto, unfolding(model::specs::Calls::exported_call, model::specs::Calls::on_record), using(crate::proofs::Cases::refused))]
pub fn write_record(
    unit: &mut [u8],
    address: u16,
    byte: u8,
    left: &mut [u8],
    right: &mut [u8],
    nametables: &mut [u8],
    oam: &mut [u8],
    palette: &mut [u8],
) -> u64
    ensures { exported result unit.new (access_memory left.new right.new nametables.new oam.new palette.new) ≡
        exported_call (write_call own address byte) unit.old (access_memory left.old right.old nametables.old oam.old palette.old) }
{
    match refusals::record(unit) {
        Ok(u) => {
            let a = accesses::write(u, address, byte, left, right, nametables, oam, palette);
            refusals::finish(a, unit)
        }
        Err(r) => r as u64,
    }
}

// A run of one line by a reason that is known, by the unit of a record. Of one that is not drawn the record is written before the buffers: what stays
// of it is then not written anew.
#[tactic(auto, unfolding(model::specs::Calls::exported_call, model::specs::Calls::on_record), using(crate::proofs::Cases::line_cases))]
fn line_record(
    unit: &mut [u8],
    reason: u8,
    left: &[u8],
    right: &[u8],
    nametables: &[u8],
    oam: &[u8],
    palette: &[u8],
    line: &mut [u8],
    colours: &mut [u8],
) -> u64
    requires { reason ≤ 2 }
    ensures { exported result unit.new (line_memory left.now right.now nametables.now oam.now palette.now line.new (numbers_of colours.new)) ≡
        exported_call (run_call own reason 1) unit.old (line_memory left.now right.now nametables.now oam.now palette.now line.old (numbers_of colours.old)) }
{
    let u = match refusals::record(unit) {
        Ok(u) => u,
        Err(r) => return r as u64,
    };
    let Some(m) = Lent::new(u.board, left, right, nametables, oam, palette) else {
        return Refusal::Length as u64; // what is read
    };
    let Some(line) = line.as_mut_array::<256>() else {
        return Refusal::Length as u64; // the line
    };
    let Some(colours) = colours.as_mut_array::<512>() else {
        return Refusal::Length as u64; // its colours
    };
    if lines::draws(u) {
        let a = runs::line_bytes(
            u, reason, left, right, nametables, oam, palette, line, colours,
        );
        return refusals::finish(a, unit);
    }
    let a = runs::undrawn_line(u, reason);
    let packed = refusals::finish(a, unit);
    scanline::undrawn_buffers(u, m.palette, line, colours);
    packed
}

// A run by a reason that is known, by the unit of a record.
#[tactic(auto, unfolding(model::specs::Calls::exported_call, model::specs::Calls::on_record), using(crate::proofs::Cases::refused))]
fn run_record(
    unit: &mut [u8],
    lines: u16,
    reason: u8,
    left: &[u8],
    right: &[u8],
    nametables: &[u8],
    oam: &[u8],
    palette: &[u8],
    line: &mut [u8],
    colours: &mut [u8],
) -> u64
    requires { reason ≤ 2 }
    ensures { exported result unit.new (line_memory left.now right.now nametables.now oam.now palette.now line.new (numbers_of colours.new)) ≡
        exported_call (run_call own reason lines) unit.old (line_memory left.now right.now nametables.now oam.now palette.now line.old (numbers_of colours.old)) }
{
    match refusals::record(unit) {
        Ok(u) => {
            let a = runs::run_bytes(
                u, lines, reason, left, right, nametables, oam, palette, line, colours,
            );
            refusals::finish(a, unit)
        }
        Err(r) => r as u64,
    }
}

// A run, by the unit of a record.
#[tactic(auto, using(model::proofs::Accepted::exported_unasked))]
pub fn run(
    unit: &mut [u8],
    lines: u16,
    reason: u8,
    left: &[u8],
    right: &[u8],
    nametables: &[u8],
    oam: &[u8],
    palette: &[u8],
    line: &mut [u8],
    colours: &mut [u8],
) -> u64
    ensures { exported result unit.new (line_memory left.now right.now nametables.now oam.now palette.now line.new (numbers_of colours.new)) ≡
        exported_call (run_call own reason lines) unit.old (line_memory left.now right.now nametables.now oam.now palette.now line.old (numbers_of colours.old)) }
{
    if 2 < reason {
        return Refusal::Request as u64;
    }
    if lines == 1 {
        return line_record(
            unit, reason, left, right, nametables, oam, palette, line, colours,
        );
    }
    run_record(
        unit, lines, reason, left, right, nametables, oam, palette, line, colours,
    )
}

// An entry's call, by the unit of a record.
#[tactic(auto, unfolding(model::specs::Log::exported_entry), using(model::proofs::Calls::exported_frame))]
pub fn play_entry(
    e: Entry,
    unit: &mut [u8],
    left: &mut [u8],
    right: &mut [u8],
    nametables: &mut [u8],
    oam: &mut [u8],
    palette: &mut [u8],
    line: &mut [u8],
    colours: &mut [u8],
) -> u64
    ensures { exported result unit.new (line_memory left.new right.new nametables.new oam.new palette.new line.new (numbers_of colours.new)) ≡
        exported_entry e unit.old (line_memory left.old right.old nametables.old oam.old palette.old line.old (numbers_of colours.old)) }
{
    match e {
        Entry::Read(address) => read_record(unit, address, left, right, nametables, oam, palette),
        Entry::Write(address, byte) => {
            write_record(unit, address, byte, left, right, nametables, oam, palette)
        }
        Entry::Run(n) => run_record(
            unit, n, 0, left, right, nametables, oam, palette, line, colours,
        ),
        Entry::Refused => Refusal::Request as u64,
    }
}
