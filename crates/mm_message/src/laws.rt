//! Laws of messages and of streams of them: each is the contract of a function that does nothing.
ghost use Rattle.mm_message.specs.Streams.{InboxKeepsAll, LongestIsOne, MessagesReadBack, NoSpellingBeginsAnother, PiecesDontMatter, TakenAreSpelled};

/// Each message that bytes can spell is taken from its spelling, whatever follows, and what is taken stood there as its spelling. So a
/// message has one spelling, and no spelling begins another.
pub fn messages_have_one_spelling()
    ensures read { MessagesReadBack }
    ensures spelled { TakenAreSpelled }
    ensures prefix { NoSpellingBeginsAnother }
{}

/// After any list of feeds and takes the bytes fed are the spellings of the requests taken, in order, and the bytes left. How they were cut
/// doesn't matter.
pub fn inbox_keeps_all()
    ensures kept { InboxKeepsAll }
    ensures pieces { PiecesDontMatter }
{}

/// Bytes begin with one longest list of messages.
pub fn the_longest_list_is_one()
    ensures { LongestIsOne }
{}
