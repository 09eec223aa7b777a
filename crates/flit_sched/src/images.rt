ghost use Rattle.std.specs.Prelude.{◌≡◌, ℕ, ◌^◌, ◌<◌, ◌==◌, List, true, false, IfOk, map, length, slice_index};
ghost use Rattle.std.specs.List.{list_any, range_with_len};
ghost use Rattle.flit_model.specs.States.{word_at, shadow_at, is_ahead};
ghost use Rattle.flit_model.specs.CrashImages.{crash_word, crash_image};
ghost use Rattle.flit_sched.specs.Kept.{AllRaw};
ghost use Rattle.flit_sched.specs.Views.{picks_of};

use flit_model::{Ahead, Machine};
use flit_words::{NoMemory, Word};
use std::alloc::Global;

/// The shadow of a word, or its value ahead where it has one and that is taken.
fn kept_word(machine: &Machine, word: u32, takes: bool) -> u64
    requires within { word < length machine.now.words }
    requires raw { (word_at machine.now word < 2 ^ 64) × (shadow_at machine.now word < 2 ^ 64) }
    ensures { result ≡ crash_word (λ w. takes) machine.now word }
{
    let cell = machine.cell(word);
    match cell.ahead {
        Some(value) if takes => {
            let version = cell.kept.version + 1;
            let tagged = false;
            Word {
                version,
                value,
                tagged,
            }
            .pack()
        }
        _ => cell.kept.pack(),
    }
}

/// The crash image that takes all values ahead, or none.
fn all_or_none(
    alloc: Global,
    machine: &Machine,
    words: u32,
    takes: bool,
) -> Result<Vec<u64>, NoMemory>
    requires size { length machine.now.words ≡ words }
    requires words_raw { AllRaw machine.now.words }
    requires shadows_raw { AllRaw machine.now.shadows }
    ensures { IfOk result (λ image. image.items ≡ map (crash_word (λ w. takes) machine.now)
        (range_with_len 0 words)) }
{
    let mut image = Vec::with_capacity(alloc, words as usize)?;
    for word in 0..words {
        image.push(kept_word(machine, word, takes))?;
    }
    Ok(image)
}

/// Takes the values ahead of some words into an image that takes none.
fn take_ahead(machine: &Machine, words: u32, image: &mut Vec<u64>, chosen: &[u32])
    requires size { length machine.now.words ≡ words }
    requires words_raw { AllRaw machine.now.words }
    requires shadows_raw { AllRaw machine.now.shadows }
    requires none { image.old.items ≡ map (crash_word (λ w. false) machine.now)
        (range_with_len 0 words) }
    ensures { image.new.items ≡ map (crash_word (λ w. list_any (λ v. v == w) chosen.now)
        machine.now) (range_with_len 0 words) }
{
    for word in chosen {
        if *word < words {
            image[*word as usize] = kept_word(machine, *word, true);
        }
    }
}

/// The crash image of a machine that takes the values ahead of the chosen words.
pub(crate) fn crash_words(
    alloc: Global,
    machine: &Machine,
    words: u32,
    ahead: &Ahead,
) -> Result<Vec<u64>, NoMemory>
    requires size { length machine.now.words ≡ words }
    requires shadows { length machine.now.shadows ≡ words }
    requires words_raw { AllRaw machine.now.words }
    requires shadows_raw { AllRaw machine.now.shadows }
    ensures { IfOk result (λ image. image.items ≡ crash_image (picks_of ahead.now) machine.now) }
{
    match ahead {
        Ahead::None => all_or_none(alloc, machine, words, false),
        Ahead::All => all_or_none(alloc, machine, words, true),
        Ahead::Words(chosen) => {
            let mut image = all_or_none(alloc, machine, words, false)?;
            take_ahead(machine, words, &mut image, chosen);
            Ok(image)
        }
    }
}
