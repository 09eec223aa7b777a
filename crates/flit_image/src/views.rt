ghost use Rattle.std.specs.Prelude.{◌≡◌, ◌≢◌, ◌<◌, length, slice_index, IfOk, IfErr, IfSome, IfNone};
ghost use Rattle.flit_words.specs.Layouts.{Accepted, words_of, initial_of};
ghost use Rattle.flit_image.specs.ImageTexts.{word_line, IsImageText, IsErrorOf};
ghost use Rattle.flit_image.specs.Views.{IsImageLayout};

use crate::faults::ImageError;
use crate::headers::header_of;
use crate::viewed_words::view_words;
use flit_words::Layout;
use std::alloc::Global;
use std::marker::Model;

/// An image that is seen in its text: the words, and for each word that has a line the line itself.
#[derive(Drop)]
pub struct ImageView<'a> {
    layout: Layout,
    words: Vec<u64>,
    lines: Vec<&'a [u8]>,
}

impl<'a> Model for ImageView<'a> {
    ghost use Rattle.flit_image.specs.Views.{ViewedImage, IsView};

    ghost Value = { ViewedImage };

    ghost view = { λ v. record { layout = v.layout; words = v.words.items } };

    ghost invariant = { λ v. IsView v.layout v.words.items v.lines.items };
}

/// The view of the image whose text these bytes are. An error other than `NoMemory` says what the first fault of
/// the text is, as reading does.
pub fn view_image<'a>(alloc: Global, bytes: &'a [u8]) -> Result<ImageView<'a>, ImageError>
    ensures accepted { IfOk result (λ view. Accepted view.layout) }
    ensures plain { IfOk result (λ view. IsImageLayout view.layout) }
    ensures is { IfOk result (λ view. IsImageText bytes.now view.layout view.words) }
    ensures err { IfErr result (IsErrorOf bytes.now) }
{
    let Some((layout, body)) = header_of(bytes) else {
        return Err(ImageError::BadHeader);
    };
    let (words, lines) = view_words(alloc, &layout, body)?;
    Ok(ImageView {
        layout,
        words,
        lines,
    })
}

impl<'a> ImageView<'a> {
    /// The layout of the words, without slots.
    pub fn layout(&self) -> Layout
        ensures is { result ≡ self.now.layout }
        ensures accepted { Accepted result }
    {
        self.layout
    }

    /// The raw words.
    pub fn words(&self) -> &[u64]
        ensures is { result.now ≡ self.now.words }
        ensures whole { length result.now ≡ words_of self.now.layout }
    {
        self.words.as_slice()
    }

    /// A raw word.
    pub fn word(&self, word: u32) -> u64
        requires { word < length self.now.words }
        ensures { result ≡ slice_index self.now.words word }
    {
        self.words[word as usize]
    }

    /// The line of a word, without its LF. None comes where the word has its fresh value, and so has no line.
    pub fn line(&self, word: u32) -> Option<&'a [u8]>
        requires { word < length self.now.words }
        ensures none { IfNone result (slice_index self.now.words word ≡ initial_of
            self.now.layout.kind word) }
        ensures some { IfSome result (λ line. slice_index self.now.words word ≢ initial_of
            self.now.layout.kind word) }
        ensures is { IfSome result (λ line. line.now ≡ word_line word
            (slice_index self.now.words word)) }
    {
        if self.words[word as usize] == u64::from(self.layout.initial(word)) {
            return None;
        }
        Some(self.lines[word as usize])
    }
}
