//! Laws of generated scripts: each is the contract of a function that does nothing.
ghost use Rattle.image_make.specs.Laws.{GeneratedScriptsAreRead, GeneratedScriptsHaveTheirCalls, ScriptsAreOfNumbersModulo256};

/// Each generated script reads back as exactly its 4,000 calls.
pub fn generated_scripts_are_read()
    ensures read { GeneratedScriptsAreRead }
    ensures count { GeneratedScriptsHaveTheirCalls }
{}

/// Two numbers have one script exactly where they are equal modulo 256.
pub fn numbers_modulo_256()
    ensures { ScriptsAreOfNumbersModulo256 }
{}
