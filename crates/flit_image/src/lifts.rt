ghost use Rattle.std.specs.Prelude.{◌≡◌, ◌++◌, false, replicate, IfOk};
ghost use Rattle.flit_image.specs.Images.{IsWhole, IsLifted};

use flit_model::Image;
use flit_words::NoMemory;
use std::alloc::Global;

/// These words, and a 0 for each row behind them.
fn with_zeros(alloc: Global, words: &[u64], rows: u64) -> Result<Vec<u64>, NoMemory>
    ensures { IfOk result (λ all. all.items ≡ words.now ++ replicate rows 0) }
{
    let mut all = Vec::from_slice(alloc, words)?;
    all.reserve(rows as usize)?;
    for _row in 0..rows {
        all.push(0)?;
    }
    Ok(all)
}

/// The image with a value of 0 for each row; of a whole image it is a whole one.
pub fn lift(alloc: Global, image: &Image) -> Result<Image, NoMemory>
    requires { image.now.values ≡ false }
    ensures whole { IsWhole image.now → IfOk result IsWhole }
    ensures is { IfOk result (IsLifted image.now) }
{
    let last = u64::from(image.rows) + u64::from(image.layout().first_row() - 1);
    let words = with_zeros(alloc, image.words.as_slice(), last)?;
    Ok(Image {
        kind: image.kind,
        buckets: image.buckets,
        rows: image.rows,
        values: true,
        words,
    })
}
