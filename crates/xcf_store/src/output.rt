// An output that is written forward.
ghost use Rattle.std.specs.Prelude.{[], ◌∷◌, ◌≡◌, ◌+◌, ◌*◌, ◌≤◌, ◌<◌, length};
ghost use Rattle.xcf_store.specs.Output.{Stores};
ghost use Rattle.xcf_store.specs.Word.{word_bytes, words, when};

// Lent bytes, and the place that the next ones go to.
#[derive(Drop)]
pub struct Output<'a> {
    pub bytes: &'a mut [u8],
    pub at: usize,
}

impl<'a> Output<'a> {
    pub fn byte(&mut self, b: u8)
        requires { self.old.at < length self.old.bytes.now }
        ensures stores { Stores self.old (b ∷ []) self.new }
        ensures same { self.new.bytes.ghost_name ≡ self.old.bytes.ghost_name }
    {
        self.bytes[self.at] = b;
        self.at += 1;
    }

    pub fn word(&mut self, n: u32)
        requires { self.old.at + 4 ≤ length self.old.bytes.now }
        ensures stores { Stores self.old (word_bytes n) self.new }
        ensures same { self.new.bytes.ghost_name ≡ self.old.bytes.ghost_name }
    {
        self.bytes(&n.to_be_bytes());
    }

    pub fn words(&mut self, numbers: &[u32])
        requires { self.old.at + 4 * length numbers.now ≤ length self.old.bytes.now }
        ensures stores { Stores self.old (words numbers.now) self.new }
        ensures same { self.new.bytes.ghost_name ≡ self.old.bytes.ghost_name }
    {
        for n in numbers {
            self.word(*n);
        }
    }

    // The words, where the test holds.
    pub fn words_when(&mut self, test: bool, numbers: &[u32])
        requires { self.old.at + length (words (when test numbers.now)) ≤ length self.old.bytes.now }
        ensures stores { Stores self.old (words (when test numbers.now)) self.new }
        ensures same { self.new.bytes.ghost_name ≡ self.old.bytes.ghost_name }
    {
        if test {
            self.words(numbers);
        }
    }

    pub fn bytes(&mut self, content: &[u8])
        requires { self.old.at + length content.now ≤ length self.old.bytes.now }
        ensures stores { Stores self.old content.now self.new }
        ensures same { self.new.bytes.ghost_name ≡ self.old.bytes.ghost_name }
    {
        let end = self.at + content.len();
        self.bytes[self.at..end].copy_from_slice(content);
        self.at = end;
    }
}
