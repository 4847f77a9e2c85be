ghost use Rattle.std.specs.Prelude.{◌≡◌, [], ◌∷◌, decimal};
ghost use Rattle.report_text.specs.Line.{line_text};
ghost use Rattle.report_text.specs.Word.{word_text};
ghost use Rattle.varsvc.specs.FaultLines.{usage_line, play_line, script_line, memory_line, device_line, foreign_line, image_line, reason_word};

use crate::words::UsageFault;
use flash_dev::ImageFault;
use report_text::{Part, Word, write_line};
use script_text::{LineReason, PlayFault, ScriptFault};
use var_types::Put;

/// Puts the line that there is no memory.
#[tactic(auto, unfolding(crate::specs::FaultLines::memory_line))]
pub fn write_memory_line<P: Put>(out: &mut P)
    ensures { P.Puts out.old out.new memory_line }
{
    write_line(&[Part::Word(Word::No), Part::Word(Word::Memory)], out)
}

/// Puts the line for a failed call of the flash.
#[tactic(auto, unfolding(crate::specs::FaultLines::device_line))]
pub fn write_device_line<P: Put>(out: &mut P)
    ensures { P.Puts out.old out.new device_line }
{
    write_line(&[Part::Word(Word::Device), Part::Word(Word::Fault)], out)
}

// Puts the word of a refused image, that of what refuses it, and its number.
fn write_image_number<P: Put>(word: Word, number: u64, out: &mut P)
    ensures { P.Puts out.old out.new (line_text (word_text Word.Image ∷ word_text word ∷ decimal number ∷ [])) }
{
    write_line(
        &[
            Part::Word(Word::Image),
            Part::Word(word),
            Part::Number(number),
        ],
        out,
    )
}

/// Puts the line for a refused image.
#[tactic(auto, unfolding(crate::specs::FaultLines::image_line))]
pub fn write_image_line<P: Put>(fault: ImageFault, out: &mut P)
    ensures { P.Puts out.old out.new (image_line fault) }
{
    match fault {
        ImageFault::ImageSize { have, want } => {
            let image = Part::Word(Word::Image);
            let size = Part::Word(Word::Size);
            write_line(&[image, size, Part::Number(have), Part::Number(want)], out)
        }
        ImageFault::NotAVolume { at } => write_image_number(Word::Volume, u64::from(at), out),
        ImageFault::BlockSize { value } => write_image_number(Word::Block, u64::from(value), out),
        ImageFault::BadSum { sum } => write_image_number(Word::Sum, u64::from(sum), out),
        ImageFault::NotAStore { at } => write_image_number(Word::Store, u64::from(at), out),
        ImageFault::Device => write_device_line(out),
    }
}

/// Puts the line for an image of foreign work.
#[tactic(auto, unfolding(crate::specs::FaultLines::foreign_line))]
pub fn write_foreign_line<P: Put>(out: &mut P)
    ensures { P.Puts out.old out.new foreign_line }
{
    write_line(
        &[Part::Word(Word::Image), Part::Word(Word::ForeignWork)],
        out,
    )
}

/// Puts the line for refused words.
#[tactic(auto, unfolding(crate::specs::FaultLines::usage_line))]
pub fn write_usage_line<P: Put>(fault: UsageFault, out: &mut P)
    ensures { P.Puts out.old out.new (usage_line fault) }
{
    let usage = Part::Word(Word::Usage);
    match fault {
        UsageFault::NoVerb => write_line(&[usage, Part::Word(Word::NoVerb)], out),
        UsageFault::UnknownVerb => write_line(&[usage, Part::Word(Word::UnknownVerb)], out),
        UsageFault::Dash { at } => {
            write_line(&[usage, Part::Word(Word::Dash), Part::Number(at)], out)
        }
        UsageFault::Missing { want, have } => {
            let want = Part::Number(u64::from(want));
            let have = Part::Number(u64::from(have));
            write_line(&[usage, Part::Word(Word::Missing), want, have], out)
        }
        UsageFault::Extra { at } => {
            write_line(&[usage, Part::Word(Word::Extra), Part::Number(at)], out)
        }
        UsageFault::Number => write_line(&[usage, Part::Word(Word::Number)], out),
        UsageFault::OutOfMemory => write_memory_line(out),
    }
}

fn reason_word(reason: LineReason) -> Word
    ensures { result ≡ reason_word reason }
{
    match reason {
        LineReason::Text => Word::Text,
        LineReason::Processor => Word::Processor,
        LineReason::Verb => Word::Verb,
        LineReason::Words => Word::Words,
        LineReason::Guid => Word::Guid,
        LineReason::Name => Word::Name,
        LineReason::Number => Word::Number,
        LineReason::Hex => Word::Hex,
        LineReason::Verdict => Word::Verdict,
        LineReason::Schedule => Word::Schedule,
    }
}

/// Puts the line for a refused script.
#[tactic(auto, unfolding(crate::specs::FaultLines::script_line))]
pub fn write_script_line<P: Put>(fault: ScriptFault, out: &mut P)
    ensures { P.Puts out.old out.new (script_line fault) }
{
    let script = Part::Word(Word::Script);
    match fault {
        ScriptFault::Line { number, reason } => {
            let number = Part::Number(u64::from(number));
            let reason = Part::Word(reason_word(reason));
            write_line(&[script, Part::Word(Word::Line), number, reason], out)
        }
        ScriptFault::TooLong { bytes } => {
            let bytes = Part::Number(u64::from(bytes));
            write_line(&[script, Part::Word(Word::Bytes), bytes], out)
        }
        ScriptFault::TooManyCalls { processor, limit } => {
            let processor = Part::Number(u64::from(processor));
            let limit = Part::Number(u64::from(limit));
            write_line(&[script, Part::Word(Word::Calls), processor, limit], out)
        }
        ScriptFault::OutOfMemory => write_memory_line(out),
    }
}

/// Puts the line for a refused script with a schedule.
#[tactic(auto, unfolding(crate::specs::FaultLines::play_line))]
pub fn write_play_line<P: Put>(fault: PlayFault, out: &mut P)
    ensures { P.Puts out.old out.new (play_line fault) }
{
    match fault {
        PlayFault::Line { number, reason } => {
            write_script_line(ScriptFault::Line { number, reason }, out)
        }
        PlayFault::TooLong { bytes } => write_script_line(ScriptFault::TooLong { bytes }, out),
        PlayFault::TooManyCalls { processor, limit } => {
            write_script_line(ScriptFault::TooManyCalls { processor, limit }, out)
        }
        PlayFault::OutOfMemory => write_script_line(ScriptFault::OutOfMemory, out),
        PlayFault::Actor { line } => {
            let script = Part::Word(Word::Script);
            let number = Part::Number(u64::from(line));
            let actor = Part::Word(Word::Actor);
            write_line(&[script, Part::Word(Word::Line), number, actor], out)
        }
    }
}
