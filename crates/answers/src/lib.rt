// What the player prints of a record's answer, stored in an output. Inner functions, not public calls.
// put, hex_digit, put_read, digit, put_decimal, put_run, put_refused, put_text.
// The text is made by hand, since what std's `write!` and `Display` write is nothing that a proof can use, and put_text names each byte.
#![tactic(auto)]

ghost use Rattle.std.specs.Prelude.{◌≡◌, ◌+◌, ◌<◌, ◌≤◌, length};
ghost use Rattle.std.proofs.lemmas.List.Edits.{sets};
ghost use Rattle.model.specs.Log.{hex_digit, decimal, read_text, run_text, refused_text, entry_text};
ghost use Rattle.answers.specs.Printable.{Printable};

use model::{Access, Entry};

// Bytes stored in the output from place `at` on; the place behind them.
fn put(text: &[u8], out: &mut [u8], at: usize) -> usize
    requires { at + length text.now ≤ length out.old }
    ensures { (out.new ≡ sets out.old at text.now) × (result ≡ at + length text.now) }
{
    let end = at + text.len();
    out[at..end].copy_from_slice(text);
    end
}

// A capital hex digit.
#[tactic(auto, unfolding(model::specs::Log::hex_digit))]
fn hex_digit(n: u8) -> u8
    requires { n < 16 }
    ensures { result ≡ hex_digit n }
{
    if n < 10 { 48 + n } else { 55 + n }
}

// A read's two hex digits.
fn put_read(byte: u8, out: &mut [u8], at: usize) -> usize
    requires { at + 15 ≤ length out.old }
    ensures { (out.new ≡ sets out.old at (read_text byte)) × (result ≡ at + length (read_text byte)) }
{
    put(
        &[hex_digit(byte / 16), hex_digit(byte % 16), b'\n'],
        out,
        at,
    )
}

// A decimal digit.
fn digit(n: u16) -> u8
    requires { n < 10 }
    ensures { result ≡ 48 + n }
{
    48 + n as u8
}

// A number below 1000 in decimal.
fn put_decimal(n: u16, out: &mut [u8], at: usize) -> usize
    requires { (n < 1000) × (at + 3 ≤ length out.old) }
    ensures { (out.new ≡ sets out.old at (decimal n)) × (result ≡ at + length (decimal n)) × (result ≤ at + 3) }
{
    let digits = [digit(n / 100), digit(n / 10 % 10), digit(n % 10)];
    if n < 10 {
        put(&digits[2..], out, at)
    } else if n < 100 {
        put(&digits[1..], out, at)
    } else {
        put(&digits, out, at)
    }
}

// "line N nmi B"
fn put_run(line: u16, nmi: bool, out: &mut [u8], at: usize) -> usize
    requires { (line < 1000) × (at + 15 ≤ length out.old) }
    ensures { (out.new ≡ sets out.old at (run_text line nmi)) × (result ≡ at + length (run_text line nmi)) }
{
    let a = put(b"line ", out, at);
    let b = put_decimal(line, out, a);
    if nmi {
        put(b" nmi 1\n", out, b)
    } else {
        put(b" nmi 0\n", out, b)
    }
}

// "refused N"
fn put_refused(number: u8, out: &mut [u8], at: usize) -> usize
    requires { at + 15 ≤ length out.old }
    ensures { (out.new ≡ sets out.old at (refused_text number)) × (result ≡ at + length (refused_text number)) }
{
    let a = put(b"refused ", out, at);
    let b = put_decimal(number as u16, out, a);
    put(b"\n", out, b)
}

// The text of an entry's answer, stored in the output from place `at` on; the place behind it.
pub fn put_text(e: Entry, x: Access, out: &mut [u8], at: usize) -> usize
    requires { Printable e x × (at + 15 ≤ length out.old) }
    ensures { (out.new ≡ sets out.old at (entry_text e x.answer x.unit.scanline)) × (result ≡ at + length (entry_text e x.answer x.unit.scanline)) }
{
    if x.answer.number != 0 {
        return put_refused(x.answer.number, out, at);
    }
    match e {
        Entry::Read(_) => put_read(x.answer.byte, out, at),
        Entry::Run(_) => put_run(x.unit.scanline, x.answer.nmi, out, at),
        Entry::Write(..) | Entry::Refused => at,
    }
}
