//! How it is printed which worker took which lemmas.

ghost use Rattle.std.specs.Prelude.{◌≡◌, ◌<◌, ◌++◌, ◌^◌, IfOk, OnOk, decimal, length, map};
ghost use Rattle.text_words.specs.Spelling.{line_text, spaced};
ghost use Rattle.match_report.specs.TallyText.{worker_words, tally_text};

use std::alloc::{AllocError, Global};
use std::marker::Model;
use text_words::put_number;

/// The numbers that a worker took, in the order of taking.
#[derive(Drop)]
pub struct Taken {
    numbers: Vec<u32>,
}

impl Model for Taken {
    ghost use Rattle.std.specs.Prelude.{ℕ, List};

    ghost Value = { List ℕ };

    ghost view = { λ taken. taken.numbers.items };
}

impl Taken {
    /// The share of a worker that took these numbers.
    pub fn new(numbers: Vec<u32>) -> Taken
        ensures { result ≡ numbers.items }
    {
        Taken { numbers }
    }

    /// Returns the numbers, the first taken first.
    pub fn numbers(&self) -> &[u32]
        ensures { result.now ≡ self.now }
    {
        &self.numbers
    }
}

// Writes the numbers, each after a space.
#[tactic(auto, unfolding(text_words::specs::Spelling::spaced))]
fn put_numbers(text: &mut Vec<u8>, numbers: &[u32]) -> Result<(), AllocError>
    ensures { OnOk result (text.new.items ≡ text.old.items ++ spaced (map decimal numbers.now)) }
{
    for number in numbers {
        text.push(b' ')?;
        put_number(text, u64::from(*number))?;
    }
    Ok(())
}

fn put_worker(text: &mut Vec<u8>, worker: u32, taken: &Taken) -> Result<(), AllocError>
    ensures { OnOk result (text.new.items ≡ text.old.items ++ line_text (worker_words (worker, taken.now))) }
{
    text.extend_from_slice(b"worker ")?;
    put_number(text, u64::from(worker))?;
    text.extend_from_slice(b" took")?;
    put_numbers(text, taken.numbers())?;
    text.push(b'\n')?;
    Ok(())
}

/// Writes a line `worker W took` for each worker W, from 0, followed by the numbers that it took, each after a space.
///
/// An `Err` comes only where memory is refused.
pub fn write_tally(alloc: Global, tally: &[Taken]) -> Result<Vec<u8>, AllocError>
    requires { length tally.now < 2 ^ 32 }
    ensures { IfOk result (λ text. text.items ≡ tally_text tally.now) }
{
    let mut text = Vec::new(alloc);
    for (worker, taken) in tally.iter().enumerate() {
        put_worker(&mut text, worker as u32, taken)?;
    }
    Ok(text)
}
