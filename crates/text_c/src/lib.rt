// The exports for C of the text layer, include/ppu.h: each is the call of its name in crates/text, with the same promise.
#![tactic(auto)]

ghost use Rattle.std.specs.Prelude.{◌≡◌};
ghost use Rattle.model.specs.Text.{text_call, page_call, written_for_c, exported_text};

// For C: the text of a page.
#[unsafe(no_mangle)]
pub extern "C" fn ppu_text(page: &[u8], table: &[u8], rows: &mut [u8]) -> u64
    ensures { written_for_c result rows.new ≡ exported_text (text_call page.now table.now rows.old) }
{
    text::ppu_text(page, table, rows)
}

// For C: the page of rows.
#[unsafe(no_mangle)]
pub extern "C" fn ppu_page(rows: &[u8], table: &[u8], page: &mut [u8]) -> u64
    ensures { written_for_c result page.new ≡ exported_text (page_call rows.now table.now page.old) }
{
    text::ppu_page(rows, table, page)
}
