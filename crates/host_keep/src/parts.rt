//! A book as the image of its snapshot.
ghost use Rattle.std.specs.Prelude.{◌≡◌, [], IfOk, drop};
ghost use Rattle.host_codec.specs.Books.{book as book_codec};
ghost use Rattle.host_model.specs.Lawful.{Lawful};

use host_book::book::HostBook;
use host_codec::book::{BookParts, law_writable_book, write_book};
use host_journal::image::SnapshotImage;
use ps_time::memory::Memory;
use std::alloc::Global;

/// The image with the snapshot of a book, in its own buffer.
pub(crate) fn write_snapshot(
    alloc: Global,
    book: &HostBook,
    image: SnapshotImage,
) -> Result<SnapshotImage, Memory>
    requires { image.bytes ≡ [] }
    ensures code { IfOk result (λ made. made.bytes ≡ book_codec.code book.now.book) }
    ensures fits { IfOk result (λ made. book_codec.Fits book.now.book) }
    ensures lawful { IfOk result (λ made. Lawful book.now.number book.now.book) }
{
    law_writable_book();
    let parts = BookParts {
        moment: book.moment(),
        epochs: book.epochs(),
        pairs: book.pairs(),
        tasks: book.tasks(),
        rows: book.rows().in_order(),
    };
    let mut buffer = image.into_buffer();
    match write_book(alloc, parts, &mut buffer) {
        Ok(()) => Ok(SnapshotImage::of_buffer(buffer)),
        Err(fault) => {
            drop(buffer);
            Err(fault)
        }
    }
}
