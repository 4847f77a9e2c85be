ghost use Rattle.std.specs.Prelude.{◌≡◌, true, ◌==◌, ◌<◌, ℕ, List, ◌∷◌, length, map, position, string_bytes, None, Some, IfSome, MatchResult};
ghost use Rattle.clap.specs.Words.{subcommand_rows_of};
ghost use Rattle.varsvc.specs.Cli.{operand_in, operand_word, verb_word};
ghost use Rattle.varsvc.specs.Order.{order_of, verb_order, operand_order, one_operand, no_operand, bare_order, takes_word, is_dashed, order_with, wanted_number, GivesOrder, IsUsage};

use crate::words::{
    ImageName, Order, UsageFault, Verb, number_of, operand_in, operand_word, parse, refusal_of,
    takes_word, verb_of,
};
use clap::ArgMatches;
use clap::error::ErrorKind;
use std::alloc::Global;

/// How many words are parsed at most.
const MOST_WORDS: usize = 3;

fn is_dashed(word: &String) -> bool
    ensures { result ≡ is_dashed (string_bytes word.now) }
{
    word.as_str().as_bytes().first() == Some(&b'-')
}

fn first_dashed(words: &[String]) -> Option<usize>
    ensures position { result ≡ position (λ word. is_dashed (string_bytes word)) words.now }
    ensures within { IfSome result (λ at. at < length words.now) }
{
    words.iter().position(|word| is_dashed(word))
}

fn name_of(alloc: Global, word: &str) -> Result<ImageName, UsageFault>
    ensures { MatchResult result (λ image. image ≡ word.now) (λ e. e ≡ UsageFault.OutOfMemory) }
{
    match String::from_str(alloc, word) {
        Ok(text) => Ok(ImageName::new(text)),
        Err(_) => Err(UsageFault::OutOfMemory),
    }
}

fn wanted_number(word: &str) -> Result<u32, UsageFault>
    ensures { result ≡ wanted_number word.now }
{
    match number_of(word.as_bytes()) {
        Some(number) => Ok(number),
        None => Err(UsageFault::Number),
    }
}

// The order of a verb with the word behind it.
fn order_with(alloc: Global, verb: Verb, word: &str) -> Result<Order, UsageFault>
    ensures { GivesOrder result (order_with verb word.now) }
{
    match verb {
        Verb::Run => Ok(Order::Run {
            image: name_of(alloc, word)?,
        }),
        Verb::Play | Verb::Entries => Err(UsageFault::Extra { at: 1 }),
        Verb::List => Ok(Order::List {
            image: name_of(alloc, word)?,
        }),
        Verb::Check => Ok(Order::Check {
            image: name_of(alloc, word)?,
        }),
        Verb::Format => Ok(Order::Format {
            image: name_of(alloc, word)?,
        }),
        Verb::Make => Ok(Order::Make {
            number: wanted_number(word)?,
        }),
        Verb::Work => Ok(Order::Work {
            number: wanted_number(word)?,
        }),
        Verb::Audit => Ok(Order::Audit {
            image: name_of(alloc, word)?,
        }),
    }
}

// Why the word behind a verb is refused, where the parsing of it is out of memory.
fn refused_operand(verb: Verb, word: &String) -> UsageFault
    ensures { IsUsage result (order_with verb (string_bytes word.now)) }
{
    match verb {
        Verb::Run | Verb::List | Verb::Check | Verb::Format | Verb::Audit => {
            UsageFault::OutOfMemory
        }
        Verb::Play | Verb::Entries => UsageFault::Extra { at: 1 },
        Verb::Make | Verb::Work => match wanted_number(word.as_str()) {
            Ok(_) => UsageFault::OutOfMemory,
            Err(fault) => fault,
        },
    }
}

// Why the words behind a verb are refused, where the parsing of them is out of memory: their number decides.
fn refusal_by_number(verb: Verb, rest: &[String]) -> UsageFault
    ensures { IsUsage result (one_operand verb (map string_bytes rest.now)) }
{
    match rest {
        [] => UsageFault::Missing { want: 1, have: 0 },
        [word] => refused_operand(verb, word),
        _ => UsageFault::Extra { at: 2 },
    }
}

fn parsed_order(alloc: Global, verb: Verb, matches: &ArgMatches<'_>) -> Result<Order, UsageFault>
    ensures { (word : List ℕ) → operand_in (operand_word verb) (subcommand_rows_of matches.now) ≡ Some word → GivesOrder result (order_with verb word) }
{
    match operand_in(matches, operand_word(verb)) {
        Some(word) => order_with(alloc, verb, word),
        None => Err(UsageFault::OutOfMemory),
    }
}

// What a verb and the one word behind it ask for, by the parse of at most three of them: a fourth changes nothing.
fn one_operand(
    alloc: Global,
    verb: Verb,
    words: &[String],
    rest: &[String],
) -> Result<Order, UsageFault>
    requires other { takes_word verb ≡ true }
    requires words { map string_bytes words.now ≡ verb_word verb ∷ map string_bytes rest.now }
    requires undashed { position is_dashed (map string_bytes rest.now) ≡ None }
    ensures { GivesOrder result (one_operand verb (map string_bytes rest.now)) }
{
    match parse(alloc, &words[..MOST_WORDS.min(words.len())]) {
        Ok(matches) => parsed_order(alloc, verb, &matches),
        Err(error) => match error.kind() {
            ErrorKind::OutOfMemory => Err(refusal_by_number(verb, rest)),
            kind => Err(refusal_of(kind)),
        },
    }
}

// The order of a verb that takes no word.
fn bare_order(verb: Verb) -> Order
    ensures { result ≡ bare_order verb }
{
    match verb {
        Verb::Entries => Order::Entries,
        _ => Order::Play,
    }
}

// What the words behind a verb that takes none ask for.
fn no_operand(verb: Verb, rest: &[String]) -> Result<Order, UsageFault>
    ensures { GivesOrder result (no_operand verb (map string_bytes rest.now)) }
{
    if rest.is_empty() {
        Ok(bare_order(verb))
    } else {
        Err(UsageFault::Extra { at: 1 })
    }
}

// What a verb and the words behind it ask for, of which none begins with a dash.
fn operand_order(
    alloc: Global,
    verb: Verb,
    words: &[String],
    rest: &[String],
) -> Result<Order, UsageFault>
    requires words { map string_bytes words.now ≡ verb_word verb ∷ map string_bytes rest.now }
    requires undashed { position is_dashed (map string_bytes rest.now) ≡ None }
    ensures { GivesOrder result (operand_order verb (map string_bytes rest.now)) }
{
    if takes_word(verb) {
        return one_operand(alloc, verb, words, rest);
    }
    no_operand(verb, rest)
}

#[tactic(auto, unfolding(crate::specs::Order::verb_order))]
fn verb_order(
    alloc: Global,
    verb: Verb,
    words: &[String],
    rest: &[String],
) -> Result<Order, UsageFault>
    requires { map string_bytes words.now ≡ verb_word verb ∷ map string_bytes rest.now }
    ensures { GivesOrder result (verb_order verb (map string_bytes rest.now)) }
{
    match first_dashed(rest) {
        Some(at) => Err(UsageFault::Dash { at: at as u64 + 1 }),
        None => operand_order(alloc, verb, words, rest),
    }
}

/// What the words of the command line, without the program's name, ask for.
#[tactic(auto, unfolding(crate::specs::Order::order_of))]
pub fn read_words(alloc: Global, words: &[String]) -> Result<Order, UsageFault>
    ensures { GivesOrder result (order_of (map string_bytes words.now)) }
{
    let Some((first, rest)) = words.split_first() else {
        return Err(UsageFault::NoVerb);
    };
    match verb_of(first) {
        Some(verb) => verb_order(alloc, verb, words, rest),
        None => Err(UsageFault::UnknownVerb),
    }
}
