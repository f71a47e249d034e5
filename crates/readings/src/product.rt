// Product k of a sealed book, counted from 0: its must set and its lack groups.
ghost use Rattle.std.specs.Prelude.{◌≡◌};
ghost use Rattle.books.specs.Held.{sealed_book, sealed_products};
ghost use Rattle.readings.specs.Products.{Found, must_read, group_count_read, group_read, bits_read};

use books::SealedBook;
use parts::PartSet;
use products::ProductKind;
use refusals::Refusal;

pub(crate) fn product_at<'b, K: ProductKind>(
    book: &'b SealedBook<K>,
    k: usize,
) -> Result<&'b K, Refusal>
    ensures { Found (sealed_products book.now) k result }
{
    book.products().get(k).ok_or(Refusal::NoSuchProduct)
}

pub fn read_must<K: ProductKind>(book: &SealedBook<K>, k: usize) -> Result<PartSet, Refusal>
    ensures { bits_read result ≡ must_read (sealed_book K.meaning book.now).products k }
{
    let product = product_at(book, k)?;
    Ok(product.must())
}

pub fn read_group_count<K: ProductKind>(book: &SealedBook<K>, k: usize) -> Result<usize, Refusal>
    ensures { result ≡ group_count_read (sealed_book K.meaning book.now).products k }
{
    let product = product_at(book, k)?;
    Ok(product.group_count())
}

// Group `j` of the product, counted from 0.
pub fn read_group<K: ProductKind>(
    book: &SealedBook<K>,
    k: usize,
    j: usize,
) -> Result<PartSet, Refusal>
    ensures { bits_read result ≡ group_read (sealed_book K.meaning book.now).products k j }
{
    let product = product_at(book, k)?;
    if j >= product.group_count() {
        return Err(Refusal::NoSuchGroup);
    }
    Ok(product.group(j))
}
