// An open book: making it, its counts, and sealing. None of them refuses.
ghost use Rattle.std.specs.Prelude.{◌≡◌, length, Ok};
ghost use Rattle.books.specs.Held.{open_book, sealed_book, lent, open_space, sealed_space, open_through, sealed_through};
ghost use Rattle.histories.specs.Runs.{Step, seal, making};
ghost use Rattle.histories.specs.Sound.{Sound};

use super::contents::Contents;
use super::{OpenBook, SealedBook};
use parts::PartCount;
use products::ProductKind;

impl<'a, K: ProductKind> OpenBook<'a, K> {
    // A book without a path, over the slots lent.
    pub fn new(parts: PartCount, slots: &'a mut [K]) -> OpenBook<'a, K>
        ensures made { open_book K.meaning result ≡ making parts.count (length slots.old) }
        ensures sound { Sound K.cut (open_book K.meaning result) }
        ensures space { open_space result ≡ lent slots.old }
        ensures through { open_through result ≡ slots.entry.ghost_name }
    {
        OpenBook {
            contents: Contents::new(parts, slots),
        }
    }

    // The number of entered paths and the number of products.
    pub fn counts(&self) -> (usize, usize)
        ensures paths { result.0 ≡ length (open_book K.meaning self.now).paths }
        ensures products { result.1 ≡ length (open_book K.meaning self.now).products }
    {
        self.contents.counts()
    }

    pub fn seal(self) -> SealedBook<'a, K>
        ensures step { Step K.cut (open_book K.meaning self.entry) seal (Ok tt) (sealed_book K.meaning result) }
        ensures sound { Sound K.cut (sealed_book K.meaning result) }
        ensures space { sealed_space result ≡ open_space self.entry }
        ensures through { sealed_through result ≡ open_through self.entry }
    {
        SealedBook {
            contents: self.contents,
        }
    }
}
