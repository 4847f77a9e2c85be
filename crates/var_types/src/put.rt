ghost use Rattle.std.specs.Prelude.{ℕ, List, [], ◌++◌};
ghost use Rattle.hex.specs.Hex.{encode_lower};

/// What texts are put to, one behind the other. It remembers a failure, and from then on nothing is put.
pub trait Put {
    /// From the one state to the other this text was put, or a front of it where that failed.
    ghost Puts: { Self → Self → List ℕ → Type 0 };

    /// Puts a text behind those that were put before.
    fn put(&mut self, bytes: &[u8])
        ensures { Puts self.old self.new bytes.now };

    /// Puts the lower-case hexadecimal digits of bytes.
    fn put_hex(&mut self, bytes: &[u8])
        ensures { Puts self.old self.new (encode_lower bytes.now) };

    /// Where no text is put, nothing changes.
    ghost none: { (a : Self) → Puts a a [] };

    /// Texts that are put one behind the other are one text.
    ghost joined: { (a b c : Self) (t u : List ℕ) → Puts a b t → Puts b c u → Puts a c (t ++ u) };
}
