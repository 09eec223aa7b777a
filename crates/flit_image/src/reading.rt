ghost use Rattle.std.specs.Prelude.{IfOk, IfErr};
ghost use Rattle.flit_image.specs.Images.{layout_of, IsWhole};
ghost use Rattle.flit_image.specs.ImageTexts.{IsImageText, IsErrorOf};

use crate::bodies::read_words;
use crate::faults::ImageError;
use crate::headers::header_of;
use flit_model::Image;
use std::alloc::Global;

/// The image whose text these bytes are. An error other than `NoMemory` says what the first fault of the text is.
pub fn read_image(alloc: Global, bytes: &[u8]) -> Result<Image, ImageError>
    ensures whole { IfOk result IsWhole }
    ensures is { IfOk result (λ image. IsImageText bytes.now (layout_of image) image.words.items) }
    ensures err { IfErr result (IsErrorOf bytes.now) }
{
    let Some((layout, body)) = header_of(bytes) else {
        return Err(ImageError::BadHeader);
    };
    let words = read_words(alloc, &layout, body)?;
    Ok(Image {
        kind: layout.kind,
        buckets: layout.buckets,
        rows: layout.rows,
        values: layout.values,
        words,
    })
}
