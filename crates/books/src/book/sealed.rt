// A sealed book: its counts, its part count, its products, and reopening. None of them refuses.
ghost use Rattle.std.specs.Prelude.{◌≡◌, length, Ok};
ghost use Rattle.books.specs.Held.{open_book, sealed_book, open_space, sealed_space, open_through, sealed_through, sealed_parts, sealed_products};
ghost use Rattle.histories.specs.Runs.{Step, reopen};
ghost use Rattle.histories.specs.Sound.{Sound};

use super::{OpenBook, SealedBook};
use parts::PartCount;
use products::ProductKind;

impl<'a, K: ProductKind> SealedBook<'a, K> {
    // The number of entered paths and the number of products.
    pub fn counts(&self) -> (usize, usize)
        ensures paths { result.0 ≡ length (sealed_book K.meaning self.now).paths }
        ensures products { result.1 ≡ length (sealed_book K.meaning self.now).products }
    {
        self.contents.counts()
    }

    // How many parts its machine has.
    pub fn parts(&self) -> PartCount
        ensures { result ≡ sealed_parts self.now }
    {
        self.contents.parts
    }

    // The products, in the order in which they were filed.
    pub fn products(&self) -> &[K]
        ensures { result.now ≡ sealed_products self.now }
    {
        self.contents.products()
    }

    pub fn reopen(self) -> OpenBook<'a, K>
        ensures step { Step K.cut (sealed_book K.meaning self.entry) reopen (Ok tt) (open_book K.meaning result) }
        ensures sound { Sound K.cut (open_book K.meaning result) }
        ensures space { open_space result ≡ sealed_space self.entry }
        ensures through { open_through result ≡ sealed_through self.entry }
    {
        OpenBook {
            contents: self.contents,
        }
    }
}
