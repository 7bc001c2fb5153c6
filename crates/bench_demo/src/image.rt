//! The image that is made from a number.
ghost use Rattle.std.specs.Prelude.{◌≡◌, ◌++◌, IfOk, OnOk};
ghost use Rattle.bench_demo.specs.Demo.{bytes_of_words, demo_image, generated_words, next_word, payload, program};
ghost use Rattle.image_tool.specs.Image.{bytes_of};

use chip_base::NoMemory;
use image_tool::wrap;
use std::alloc::{AllocError, Global};

/// The number of words of the payload.
const PAYLOAD_WORDS: usize = 2_048;

/// The number of words that the generator gives.
const GENERATED: u32 = 2_032;

/// The bytes of IMEM.
const ROOM: u32 = 65_536;

/// The program, and the zeros up to the first generated word.
fn program() -> [u32; 16]
    ensures { result ≡ program }
{
    [
        0x8000_00b7,
        0x0400_0113,
        0x0000_21b7,
        0x0000_0213,
        0x0001_2283,
        0x0052_0233,
        0x0041_0113,
        0xfe31_1ae3,
        0x0040_a023,
        0x0000_006f,
        0,
        0,
        0,
        0,
        0,
        0,
    ]
}

/// The generator's word after this one.
fn next_word(word: u32) -> u32
    ensures { result ≡ next_word word }
{
    word.wrapping_mul(1_664_525).wrapping_add(1_013_904_223)
}

/// Appends the bytes of a word, low byte first.
fn push_word(bytes: &mut Vec<u8>, word: u32) -> Result<(), AllocError>
    ensures { OnOk result (bytes.new.items ≡ bytes.old.items ++ bytes_of word) }
{
    bytes.extend_from_slice(&word.to_le_bytes())
}

/// Appends the bytes of words.
fn push_words(bytes: &mut Vec<u8>, words: &[u32]) -> Result<(), AllocError>
    ensures { OnOk result (bytes.new.items ≡ bytes.old.items ++ bytes_of_words words.now) }
{
    for word in words {
        push_word(bytes, *word)?;
    }
    Ok(())
}

/// Appends the bytes of the first words that the generator gives after the seed.
fn push_generated(bytes: &mut Vec<u8>, seed: u32, count: u32) -> Result<(), AllocError>
    ensures { OnOk result (bytes.new.items ≡ bytes.old.items ++ bytes_of_words (generated_words seed count)) }
{
    let mut word = seed;
    for _ in 0..count {
        word = next_word(word);
        push_word(bytes, word)?;
    }
    Ok(())
}

/// The program, and behind it the generated words.
fn payload(alloc: Global, seed: u32) -> Result<Vec<u8>, AllocError>
    ensures { IfOk result (λ bytes. bytes.items ≡ payload seed) }
{
    let mut bytes = Vec::with_capacity(alloc, 4 * PAYLOAD_WORDS)?;
    push_words(&mut bytes, &program())?;
    push_generated(&mut bytes, seed, GENERATED)?;
    Ok(bytes)
}

/// The image that is made from a number.
pub fn demo_image(alloc: Global, seed: u32) -> Result<Vec<u8>, NoMemory>
    ensures { IfOk result (λ image. image.items ≡ demo_image seed) }
{
    let Ok(payload) = payload(alloc, seed) else {
        return Err(NoMemory);
    };
    match wrap(alloc, &payload, ROOM) {
        Ok(image) => Ok(image),
        Err(_) => Err(NoMemory),
    }
}
