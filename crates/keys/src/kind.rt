// A kind of key: which words are keys, and which of two keys comes first.
ghost use Rattle.std.specs.Prelude.{◌≡◌, ℕ, Bool};
ghost use Rattle.keys.specs.Order.{Lawful};

pub trait KeyKind {
    ghost key: { ℕ → Bool };

    ghost before: { ℕ → ℕ → Bool };

    // Whether a word is a key.
    fn is_key(w: u64) -> bool
        ensures { result ≡ key w };

    // Whether the key a comes before the key b.
    fn comes_before(a: u64, b: u64) -> bool
        ensures { result ≡ before a b };

    ghost lawful: { Lawful key before };
}
