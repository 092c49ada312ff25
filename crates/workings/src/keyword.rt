ghost use Rattle.std.specs.Prelude.{◌≡◌, ℕ, List};
ghost use Rattle.workings.specs.Keywords.{named_in, TellsApart};

// A value that a word of a script names. Each type has a `Display` of its own: Rust allows none for every `Keyword` at once.
pub trait Keyword: Copy + 'static {
    ghost all: { List Self };

    ghost word: { Self → List ℕ };

    fn all() -> &'static [Self]
        ensures { result.now ≡ all };

    fn word(self) -> &'static str
        ensures { result.now ≡ word self };

    // A word names what it is the word of.
    ghost apart: { TellsApart word all };
}

// The value that a word names, if it names one.
pub fn named<K: Keyword>(text: &str) -> Option<K>
    ensures { result ≡ named_in K.word K.all text.now }
{
    K::all().iter().find(|k| text == k.word()).copied()
}
