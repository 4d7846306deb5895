// The reading of a log of accesses: records of 4 bytes. Inner functions, not public calls.
// whole_entry; by a cursor: Cursor, next; by a reader, which holds the lent log, over the cursor: Reader, new, at, read; read_at.
#![tactic(auto)]

ghost use Rattle.std.specs.Prelude.{◌≡◌, ◌+◌, min, length, drop};
ghost use Rattle.model.specs.Log.{whole as whole_record, records_of, record_entry, entry_of};

use model::Entry;

// A place in a log.
#[derive(Clone, Copy)]
pub struct Cursor {
    pub at: usize,
}

// What a cursor finds, and the cursor moved on behind it.
#[derive(Clone, Copy)]
pub struct Step {
    pub found: Entry,
    pub next: Cursor,
}

// The entry of a whole record, whose kind is the first of its bytes. That of a read and of a run must end in a zero byte.
#[tactic(auto, using(crate::proofs::Cases::entry_cases))]
fn whole_entry(kind: u8, high: u8, low: u8, last: u8) -> Entry
    ensures { result ≡ record_entry (whole_record kind high low last) }
{
    let address = u16::from_be_bytes([high, low]);
    match kind {
        0 if last == 0 => Entry::Read(address),
        1 => Entry::Write(address, last),
        2 if last == 0 => Entry::Run(address),
        _ => Entry::Refused,
    }
}

impl Cursor {
    // What stands at the cursor: a record's entry, or a refusal where the log is cut in it or ends there.
    pub fn next(self, log: &[u8]) -> Step
        ensures { (result.found ≡ entry_of (records_of (drop self.at log.now))) × (result.next.at ≡ min (self.at + 4) (length log.now)) }
    {
        let at = self.at;
        if log.len().saturating_sub(at) < 4 {
            return Step {
                found: Entry::Refused,
                next: Cursor { at: log.len() },
            };
        }
        Step {
            found: whole_entry(log[at], log[at + 1], log[at + 2], log[at + 3]),
            next: Cursor { at: at + 4 },
        }
    }
}

// A lent log, and a place in it.
#[derive(Clone, Copy)]
pub struct Reader<'a> {
    pub log: &'a [u8],
    pub at: usize,
}

impl<'a> Reader<'a> {
    // A reader at the start of a log.
    pub fn new(log: &'a [u8]) -> Reader<'a>
        ensures { (result.log ≡ log.entry) × (result.at ≡ 0) }
    {
        Reader { log, at: 0 }
    }

    // The reader moved to another place of its log.
    pub fn at(self, at: usize) -> Reader<'a>
        ensures { (result.log ≡ self.entry.log) × (result.at ≡ at) }
    {
        Reader { at, ..self }
    }

    // What stands at the reader's place, and the place behind it.
    pub fn read(self) -> Step
        ensures { (result.found ≡ entry_of (records_of (drop self.entry.at self.entry.log.now))) × (result.next.at ≡ min (self.entry.at + 4) (length self.entry.log.now)) }
    {
        Cursor { at: self.at }.next(self.log)
    }
}

// The same at a place of a log, by a reader: a caller names no reader, nor do its proofs.
pub fn read_at(log: &[u8], at: usize) -> Step
    ensures { (result.found ≡ entry_of (records_of (drop at log.now))) × (result.next.at ≡ min (at + 4) (length log.now)) }
{
    Reader::new(log).at(at).read()
}
