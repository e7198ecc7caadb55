// The C interface: each export calls the function of its name in matter_idl, whose clauses it has.
#![tactic(auto)]

ghost use Rattle.std.specs.Prelude.{◌≡◌, length};
ghost use Rattle.lexing.specs.outcomes.{afterwards};
ghost use Rattle.items.specs.layout.{layout};
ghost use Rattle.matter_idl.specs.reading.{reading};
ghost use Rattle.matter_idl.specs.survey.{report_layout, for_catalogue, for_report, survey};
ghost use Rattle.matter_idl.specs.interface.{format, answer_of, unescaping};

use matter_idl::interface;

#[unsafe(no_mangle)]
pub extern "C" fn matter_idl_read(text: &[u8], catalogue: &mut [u8]) -> u64
    ensures answer_value { result ≡ answer_of (reading layout text.now (length catalogue.old)) }
    ensures catalogue_after { catalogue.new ≡ afterwards (reading layout text.now (length catalogue.old)) catalogue.old }
{
    interface::matter_idl_read(text, catalogue)
}

#[unsafe(no_mangle)]
pub extern "C" fn matter_idl_survey(text: &[u8], catalogue: &mut [u8], report: &mut [u8]) -> u64
    ensures answer_value { result ≡ answer_of (for_catalogue (survey layout report_layout text.now (length catalogue.old) (length report.old))) }
    ensures catalogue_after { catalogue.new ≡ afterwards (for_catalogue (survey layout report_layout text.now (length catalogue.old) (length report.old))) catalogue.old }
    ensures report_after { report.new ≡ afterwards (for_report (survey layout report_layout text.now (length catalogue.old) (length report.old))) report.old }
{
    interface::matter_idl_survey(text, catalogue, report)
}

#[unsafe(no_mangle)]
pub extern "C" fn matter_idl_unescape(part: &[u8], output: &mut [u8]) -> u64
    ensures answer_value { result ≡ answer_of (unescaping part.now (length output.old)) }
    ensures output_after { output.new ≡ afterwards (unescaping part.now (length output.old)) output.old }
{
    interface::matter_idl_unescape(part, output)
}

// The format, which the function's name says too: a program compiled with the header of another format does not link.
#[unsafe(no_mangle)]
pub extern "C" fn matter_idl_format_2() -> u64
    ensures { result ≡ format }
{
    interface::matter_idl_format_2()
}
