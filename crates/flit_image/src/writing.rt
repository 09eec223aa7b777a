ghost use Rattle.std.specs.Prelude.{◌≡◌, [], ◌∷◌, ◌++◌, codes, length, IfOk, OnOk, string_bytes};
ghost use Rattle.std.specs.Fmt.{decimal};
ghost use Rattle.flit_words.specs.Layouts.{Accepted, words_of};
ghost use Rattle.flit_image.specs.Images.{layout_of, IsWhole};
ghost use Rattle.flit_image.specs.ImageTexts.{version_number, structure_line, word_line, word_lines, header_lines, image_text};
ghost use Rattle.flit_image.specs.Readings.{line_of, with_ends};

use flit_model::Image;
use flit_words::{Kind, Layout, NoMemory, Word};
use std::alloc::{AllocError, Global};

/// Writes the line of the version.
fn write_version(text: &mut String, values: bool) -> Result<(), AllocError>
    ensures { OnOk result (string_bytes text.new ≡ string_bytes text.old
        ++ (codes "image " ++ decimal (version_number values) ++ 10 ∷ [])) }
{
    let version = if values { 2 } else { 1 };
    writeln!(text, "image {version}")
}

/// Writes the structure line.
fn write_structure(text: &mut String, kind: Kind, buckets: u32) -> Result<(), AllocError>
    ensures { OnOk result (string_bytes text.new ≡ string_bytes text.old
        ++ (structure_line kind buckets ++ 10 ∷ [])) }
{
    match kind {
        Kind::List => writeln!(text, "structure list"),
        Kind::Hash => writeln!(text, "structure hash {buckets}"),
        Kind::Tree => writeln!(text, "structure tree"),
    }
}

/// Writes the line of the rows.
fn write_rows(text: &mut String, rows: u32) -> Result<(), AllocError>
    ensures { OnOk result (string_bytes text.new ≡ string_bytes text.old
        ++ (codes "rows " ++ decimal rows ++ 10 ∷ [])) }
{
    writeln!(text, "rows {rows}")
}

/// Writes the first three lines.
fn write_header(text: &mut String, layout: &Layout) -> Result<(), AllocError>
    ensures { OnOk result (string_bytes text.new ≡ string_bytes text.old
        ++ with_ends (header_lines layout.now)) }
{
    write_version(text, layout.values)?;
    write_structure(text, layout.kind, layout.buckets)?;
    write_rows(text, layout.rows)?;
    Ok(())
}

/// Writes a word's line.
fn write_line(text: &mut String, word: u32, raw: u64) -> Result<(), AllocError>
    ensures { OnOk result (string_bytes text.new ≡ string_bytes text.old
        ++ with_ends (word_line word raw ∷ [])) }
{
    let Word {
        version,
        value,
        tagged,
    } = Word::unpack(raw);
    let tag = if tagged { "t" } else { "" };
    writeln!(text, "word {word} {version}:{value}{tag}")
}

/// Writes a word's line, where it has one.
fn write_word(text: &mut String, layout: &Layout, word: u32, raw: u64) -> Result<(), AllocError>
    ensures { OnOk result (string_bytes text.new ≡ string_bytes text.old
        ++ with_ends (line_of layout.now word raw)) }
{
    if raw == u64::from(layout.initial(word)) {
        return Ok(());
    }
    write_line(text, word, raw)
}

/// Writes the lines of the words.
fn write_words(text: &mut String, layout: &Layout, words: &[u64]) -> Result<(), AllocError>
    requires accepted { Accepted layout.now }
    requires whole { length words.now ≡ words_of layout.now }
    ensures { OnOk result (string_bytes text.new ≡ string_bytes text.old
        ++ with_ends (word_lines layout.now words.now)) }
{
    for (word, raw) in words.iter().enumerate() {
        write_word(text, layout, word as u32, *raw)?;
    }
    Ok(())
}

/// The text of an image, each line with its LF.
pub fn write_image(alloc: Global, image: &Image) -> Result<Vec<u8>, NoMemory>
    requires { IsWhole image.now }
    ensures { IfOk result (λ text. text.items
        ≡ image_text (layout_of image.now) image.now.words.items) }
{
    let layout = image.layout();
    let mut text = String::new(alloc);
    write_header(&mut text, &layout)?;
    write_words(&mut text, &layout, image.words.as_slice())?;
    text.push_str("end\n")?;
    Ok(text.into_bytes())
}
