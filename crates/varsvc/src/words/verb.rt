ghost use Rattle.std.specs.Prelude.{◌≡◌, string_bytes};
ghost use Rattle.varsvc.specs.Cli.{operand_word};
ghost use Rattle.varsvc.specs.Order.{takes_word, verb_of};

/// A verb of the command line.
#[derive(Clone, Copy, Debug, PartialEq, Eq)]
pub enum Verb {
    Run,
    Play,
    List,
    Check,
    Format,
    Make,
    Work,
    Entries,
    Audit,
}

/// The verb of a word.
pub fn verb_of(word: &String) -> Option<Verb>
    ensures { result ≡ verb_of (string_bytes word.now) }
{
    match word.as_str() {
        "run" => Some(Verb::Run),
        "play" => Some(Verb::Play),
        "list" => Some(Verb::List),
        "check" => Some(Verb::Check),
        "format" => Some(Verb::Format),
        "make" => Some(Verb::Make),
        "work" => Some(Verb::Work),
        "entries" => Some(Verb::Entries),
        "audit" => Some(Verb::Audit),
        _ => None,
    }
}

/// What the word behind a verb is called, if it takes one.
pub fn operand_word(verb: Verb) -> &'static str
    ensures { result.now ≡ operand_word verb }
{
    match verb {
        Verb::Run | Verb::List | Verb::Check | Verb::Format | Verb::Audit => "image",
        Verb::Make | Verb::Work => "number",
        Verb::Play | Verb::Entries => "",
    }
}

/// Whether a verb takes a word.
pub fn takes_word(verb: Verb) -> bool
    ensures { result ≡ takes_word verb }
{
    match verb {
        Verb::Play | Verb::Entries => false,
        Verb::Run | Verb::List | Verb::Check | Verb::Format => true,
        Verb::Make | Verb::Work | Verb::Audit => true,
    }
}
