// Tests of a word's bytes.
ghost use Rattle.std.specs.Prelude.{◌≡◌, ℕ, Bool};
ghost use Rattle.words.specs.Number.{Tests, is_all};

// The word has a byte, and each passes the test.
pub fn is_all<F: FnMut(&u8) -> bool>(word: &[u8], test: F) -> bool
    requires { F.IsAlwaysCallable test }
    ensures { (p : ℕ → Bool) → Tests F.FnMut p test → result ≡ is_all p word.now }
{
    !word.is_empty() && word.iter().all(test)
}
