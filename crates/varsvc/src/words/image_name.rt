ghost use Rattle.std.specs.Prelude.{◌≡◌};

use std::marker::Model;

/// The path of an image, as a word of the command line gives it.
#[derive(Debug, Drop)]
pub struct ImageName {
    text: String,
}

impl Model for ImageName {
    ghost use Rattle.std.specs.Prelude.{ℕ, List, string_bytes};

    ghost Value = { List ℕ };

    ghost view = { λ name. string_bytes name.text };
}

impl ImageName {
    ghost use Rattle.std.specs.Prelude.{string_bytes};

    pub fn new(text: String) -> Self
        ensures { result ≡ string_bytes text }
    {
        ImageName { text }
    }

    pub fn text(&self) -> &str
        ensures { result.now ≡ self.now }
    {
        self.text.as_str()
    }
}
