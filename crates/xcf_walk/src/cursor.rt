// A cursor: each of its methods reads a field and moves on behind it, or is refused.
ghost use Rattle.std.specs.Prelude.{◌≡◌, length, true, false, IfOk, OnOk, MatchOption};
ghost use Rattle.xcf_numbers.specs.Reason.{number_of};
ghost use Rattle.xcf_store.specs.Width.{bytes_of};
ghost use Rattle.xcf_walk.specs.Walk.{bytes, must};
ghost use Rattle.xcf_walk.specs.Fields.{number, word, string};
ghost use Rattle.xcf_walk.specs.Cursor.{WalksBy, Walks, Gives};
ghost use Rattle.xcf_walk.specs.Parts.{ends_in_zero, before_last};

use xcf_numbers::reason::{Reason, Refusal};
use xcf_store::pointer::{Width, number_at};
use xcf_store::word::word_at;
use xcf_utf8::well_formed;

// A place in a file. How wide pointers are stands beside it: a file's first fields are read before that is known.
#[derive(Clone, Copy)]
pub struct Cursor<'a> {
    pub file: &'a [u8],
    pub at: usize,
}

// The place of a name's bytes, their number, and whether they are well-formed UTF-8.
#[derive(Clone, Copy)]
pub struct Name {
    pub place: usize,
    pub length: usize,
    pub utf8: bool,
}

// Refused with this reason and place unless the test holds.
#[tactic(auto, unfolding(crate::specs::Walk::run, crate::specs::Walk::must))]
pub fn require(test: bool, reason: Reason, place: usize) -> Result<(), Refusal>
    ensures gives { Gives (must test (number_of reason) place) result }
    ensures holds { OnOk result (test ≡ true) }
{
    if test {
        Ok(())
    } else {
        Err(Refusal { reason, place })
    }
}

// The bytes before the zero that is the last of them; of no bytes the last counts as zero.
fn before_zero(bytes: &[u8]) -> Option<&[u8]>
    ensures { MatchOption result (ends_in_zero bytes.now ≡ false) (λ b. (ends_in_zero bytes.now ≡ true) × (b.now ≡ before_last bytes.now)) }
{
    match bytes {
        [] => Some(bytes),
        [name @ .., 0] => Some(name),
        _ => None,
    }
}

impl<'a> Cursor<'a> {
    // Moves to another place of the file.
    pub fn jump(&mut self, to: usize)
        ensures { self.new ≡ record { file = self.old.file; at = to } }
    {
        self.at = to;
    }

    // Goes on where the test holds, and else is refused at the place.
    #[tactic(auto, unfolding(crate::specs::Walk::run, crate::specs::Walk::must))]
    pub fn check(&mut self, test: bool, reason: Reason, place: usize) -> Result<(), Refusal>
        ensures walks { Walks (must test (number_of reason) place) self.old result self.new }
        ensures holds { OnOk result (test ≡ true) }
    {
        match require(test, reason, place) {
            Ok(()) => Ok(()),
            Err(refusal) => {
                self.at = refusal.place;
                Err(refusal)
            }
        }
    }

    // Passes over n bytes, and hands them out.
    #[tactic(auto, unfolding(crate::specs::Walk::run, crate::specs::Walk::bytes))]
    pub fn bytes(&mut self, n: usize) -> Result<&'a [u8], Refusal>
        ensures walks { WalksBy (λ b. b.now) (bytes n) self.old result self.new }
        ensures length { IfOk result (λ b. length b.now ≡ n) }
    {
        let at = self.at;
        if self.file.len() < at || self.file.len() - at < n {
            return Err(Refusal {
                reason: Reason::PastEnd,
                place: at,
            });
        }
        self.at = at + n;
        Ok(&self.file[at..at + n])
    }

    #[tactic(auto, using(crate::proofs::Walks::steps), unfolding(crate::specs::Fields::word, crate::specs::Fields::number))]
    pub fn word(&mut self) -> Result<u32, Refusal>
        ensures { Walks word self.old result self.new }
    {
        let bytes = self.bytes(4)?;
        Ok(word_at(bytes, 0))
    }

    #[tactic(auto, using(crate::proofs::Walks::steps), unfolding(crate::specs::Fields::number))]
    pub fn pointer(&mut self, width: Width) -> Result<usize, Refusal>
        ensures { Walks (number (bytes_of width)) self.old result self.new }
    {
        let size = width.bytes();
        let bytes = self.bytes(size)?;
        Ok(number_at(bytes, 0, width))
    }

    // A length word and a name with the zero that ends it; the bytes of the name are taken well-formed or not.
    #[tactic(auto, using(crate::proofs::Walks::steps), unfolding(crate::specs::Fields::string))]
    pub fn string(&mut self) -> Result<Name, Refusal>
        ensures { Walks string self.old result self.new }
    {
        let start = self.at;
        let size = self.word()? as usize;
        let place = self.at;
        let bytes = self.bytes(size)?;
        let Some(name) = before_zero(bytes) else {
            self.jump(start);
            return Err(Refusal {
                reason: Reason::UnendedString,
                place: start,
            });
        };
        Ok(Name {
            place,
            length: name.len(),
            utf8: well_formed(name),
        })
    }
}
