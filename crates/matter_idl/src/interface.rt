// What is called from C, by way of matter_idl_c: byte buffers go in, and one number comes back, that of the refusal in its top 8 bits and its value below; 0 is acceptance, with the bytes written.
ghost use Rattle.std.specs.Prelude.{◌≡◌, length};
ghost use Rattle.lexing.specs.outcomes.{afterwards};
ghost use Rattle.items.specs.layout.{layout};
ghost use Rattle.matter_idl.specs.reading.{reading};
ghost use Rattle.matter_idl.specs.survey.{report_layout, for_catalogue, for_report, survey};
ghost use Rattle.matter_idl.specs.interface.{format, answer_of, unescaping};

use crate::bits::Bits;
use crate::reading::{verdict_on, write_items};
use crate::results::{VALUE_LIMIT, packed, refused};
use crate::survey::{ENTRY_SIZE, count_accepted, write_sections};
use crate::text::Text;
use items::layout::{TEXT_LIMIT, WORD};
use lexing::answers::Refusal;
use lexing::unescaping::{UnescapeError, unescape};

pub fn matter_idl_read(text: &[u8], catalogue: &mut [u8]) -> u64
    ensures answer_value { result ≡ answer_of (reading layout text.now (length catalogue.old)) }
    ensures catalogue_after { catalogue.new ≡ afterwards (reading layout text.now (length catalogue.old)) catalogue.old }
{
    match verdict_on(text) {
        Err(r) => refused(r.refusal, r.value),
        Ok(n) => {
            if catalogue.len() < WORD * n {
                return refused(Refusal::CatalogueTooShort, WORD * n);
            }
            let mut filter = Bits::new();
            write_items(Text { bytes: text }, text, 0, catalogue, &mut filter, 0);
            packed(0, WORD * n)
        }
    }
}

// The limit, the report's room, then that of the catalogue: no buffer is touched before all three are decided.
pub fn matter_idl_survey(text: &[u8], catalogue: &mut [u8], report: &mut [u8]) -> u64
    ensures answer_value { result ≡ answer_of (for_catalogue (survey layout report_layout text.now (length catalogue.old) (length report.old))) }
    ensures catalogue_after { catalogue.new ≡ afterwards (for_catalogue (survey layout report_layout text.now (length catalogue.old) (length report.old))) catalogue.old }
    ensures report_after { report.new ≡ afterwards (for_report (survey layout report_layout text.now (length catalogue.old) (length report.old))) report.old }
{
    if TEXT_LIMIT < text.len() {
        return refused(Refusal::TextTooLong, TEXT_LIMIT);
    }
    let whole = Text { bytes: text };
    let mut accepted_bits = Bits::new();
    let counted = count_accepted(whole, &mut accepted_bits);
    let sections = counted.sections;
    let words = counted.words;
    if report.len() < ENTRY_SIZE * sections {
        return refused(Refusal::ReportTooShort, ENTRY_SIZE * sections);
    }
    if catalogue.len() < WORD * words {
        return refused(Refusal::CatalogueTooShort, WORD * words);
    }
    let mut filter = Bits::new();
    write_sections(
        whole,
        sections,
        &accepted_bits,
        catalogue,
        &mut filter,
        report,
    );
    packed(0, WORD * words)
}

pub fn matter_idl_unescape(part: &[u8], output: &mut [u8]) -> u64
    ensures answer_value { result ≡ answer_of (unescaping part.now (length output.old)) }
    ensures output_after { output.new ≡ afterwards (unescaping part.now (length output.old)) output.old }
{
    if VALUE_LIMIT < part.len() {
        return refused(Refusal::TextTooLong, VALUE_LIMIT);
    }
    match unescape(part, output) {
        Ok(n) => packed(0, n),
        Err(UnescapeError::Fault(p)) => refused(Refusal::BadEscape, p),
        Err(UnescapeError::Short(n)) => refused(Refusal::OutputTooShort, n),
    }
}

// The format of catalogue and report.
const FORMAT: u64 = 2;

// The format, which the function's name says too: a program compiled with the header of another format does not link.
pub fn matter_idl_format_2() -> u64
    ensures { result ≡ format }
{
    FORMAT
}
