//! A law of the texts: it is the contract of a function that does nothing.
ghost use Rattle.script_text.specs.ReadBack.{CallsReadBack, EndedCallsReadBack};

/// The line of a call reads back as the call, for each processor from 0 to 7.
pub fn calls_read_back()
    ensures line { CallsReadBack }
    ensures ended { EndedCallsReadBack }
{}
