ghost use Rattle.std.specs.Prelude.{◌≡◌, length, vec_len};
ghost use Rattle.var_types.specs.Layout.{volume_size};

use std::marker::Model;

/// The content of an image: a volume of bytes.
#[derive(Debug, Drop)]
pub struct Content {
    bytes: Vec<u8>,
}

impl Model for Content {
    ghost use Rattle.std.specs.Prelude.{◌≡◌, ℕ, List, vec_len};
    ghost use Rattle.var_types.specs.Layout.{volume_size};

    ghost Value = { List ℕ };

    ghost view = { λ c. c.bytes.items };

    ghost invariant = { λ c. vec_len c.bytes ≡ volume_size };
}

impl Content {
    pub fn new(bytes: Vec<u8>) -> Self
        requires { vec_len bytes ≡ volume_size }
        ensures { result ≡ bytes.items }
    {
        Content { bytes }
    }

    pub fn as_slice(&self) -> &[u8]
        ensures bytes { result.now ≡ self.now }
        ensures whole { length result.now ≡ volume_size }
    {
        self.bytes.as_slice()
    }
}
