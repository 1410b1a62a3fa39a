// Lists of pointers: those of an image, closed by 0, and those of tiles, which rise.
ghost use Rattle.std.specs.Prelude.{◌≡◌, ◌<◌, ◌≤◌, length, IfOk, IfSome};
ghost use Rattle.xcf_store.specs.Width.{bytes_of};
ghost use Rattle.xcf_walk.specs.Cursor.{WalksBy, Walks};
ghost use Rattle.xcf_walk.specs.Pointers.{pointers, tiles};
ghost use Rattle.xcf_walk.specs.Parts.{next_pointer};

use crate::cursor::Cursor;
use arrayvec::ArrayVec;
use xcf_numbers::limit::{CHANNEL_LIMIT, LAYER_LIMIT};
use xcf_numbers::reason::{Reason, Refusal};
use xcf_store::pointer::Width;
use xcf_store::rising::rising_pointers;

// The most pointers of the layers' list and of the channels'.
pub const LAYERS: usize = LAYER_LIMIT as usize;

pub const CHANNELS: usize = CHANNEL_LIMIT as usize;

impl<'a> Cursor<'a> {
    // The next of a list's pointers, where so many more are allowed, or none at the 0 that closes the list.
    #[tactic(auto, using(crate::proofs::Walks::steps), unfolding(crate::specs::Parts::next_pointer))]
    fn next_pointer(&mut self, width: Width, left: usize) -> Result<Option<usize>, Refusal>
        ensures walks { Walks (next_pointer (bytes_of width) left) self.old result self.new }
        ensures room { IfOk result (λ p. IfSome p (λ _. 0 < left)) }
    {
        let at = self.at;
        let p = self.pointer(width)?;
        if p == 0 {
            return Ok(None);
        }
        self.check(0 < left, Reason::TooMany, at)?;
        Ok(Some(p))
    }

    // Pointers closed by 0, as many as the list holds at most.
    pub fn pointers<const MOST: usize>(
        &mut self,
        width: Width,
    ) -> Result<ArrayVec<usize, MOST>, Refusal>
        ensures { WalksBy (λ l. l.items) (pointers (bytes_of width) MOST) self.old result self.new }
    {
        self.pointers_up_to(width, MOST)
    }

    // Pointers closed by 0, at most so many of those that the list holds.
    pub fn pointers_up_to<const MOST: usize>(
        &mut self,
        width: Width,
        most: usize,
    ) -> Result<ArrayVec<usize, MOST>, Refusal>
        requires { most ≤ MOST }
        ensures walks { WalksBy (λ l. l.items) (pointers (bytes_of width) most) self.old result self.new }
        ensures few { IfOk result (λ l. length l.items ≤ most) }
    {
        let mut list = ArrayVec::new();
        while let Some(p) = self.next_pointer(width, most - list.len())? {
            list.push(p);
        }
        Ok(list)
    }

    // The pointers of n tiles and the closing 0.
    pub fn tiles(&mut self, width: Width, n: u32) -> Result<(), Refusal>
        ensures { Walks (tiles (bytes_of width) n 0) self.old result self.new }
    {
        let right = rising_pointers(self.file, self.at, n, width);
        let size = width.bytes();
        let at = self.at + size * right.count as usize;
        self.jump(at);
        let p = self.pointer(width)?;
        // By `&`, since the walk asks for both as one test.
        self.check((right.count == n) & (p == 0), Reason::BadTilePointer, at)
    }
}
