//! The grammar of a line: a letter and its fields, each of them one space and a number.
ghost use Rattle.std.specs.Prelude.{◌≡◌, ℕ, ◌≤◌, List, ◌∷◌, length, take, drop, MatchResult, All};
ghost use Rattle.book.specs.Grammar.{Digit, Field, Fields, NoDigit, OneCommand, Says, listed, value};

use crate::command::{Command, Unusable};

// The most digits that a number may have, zeros in front among them.
const MOST_DIGITS: usize = 5;

// The most marks that a draw may ask for.
const MOST_DRAWN: u16 = 256;

/// The command that a line says. A line that says none is refused, and no line says two.
#[tactic(auto, using(crate::proofs::Commands::one_command))]
pub fn parse(line: &[u8]) -> Result<Command, Unusable>
    ensures once { OneCommand }
    ensures cases { MatchResult result (λ c. Says line.now c) (λ _. (c : Command) → Says line.now c → ⊥) }
{
    let [letter, rest @ ..] = line else {
        return Err(Unusable);
    };
    command(*letter, rest)
}

// The command that the line of a first letter and the rest after it says.
fn command(letter: u8, rest: &[u8]) -> Result<Command, Unusable>
    ensures { MatchResult result (λ c. Says (letter ∷ rest.now) c) (λ _. (c : Command) → Says (letter ∷ rest.now) c → ⊥) }
{
    match letter as char {
        'N' => {
            let [h] = fields::<1>(rest)?;
            Ok(Command::New { h })
        }
        'E' => {
            let [row, col, grade] = fields::<3>(rest)?;
            Ok(Command::Enter { row, col, grade })
        }
        'G' => {
            let [row, col, grade] = fields::<3>(rest)?;
            Ok(Command::Regrade { row, col, grade })
        }
        'S' => {
            let [row, col] = fields::<2>(rest)?;
            Ok(Command::Strike { row, col })
        }
        'L' => {
            let [row, col] = fields::<2>(rest)?;
            Ok(Command::Look { row, col })
        }
        'D' => {
            let [top, left, bottom, right, k] = fields::<5>(rest)?;
            if k > MOST_DRAWN {
                return Err(Unusable);
            }
            Ok(Command::Draw {
                top,
                left,
                bottom,
                right,
                k,
            })
        }
        _ => Err(Unusable),
    }
}

// The numbers of a text that is `N` fields and nothing else.
fn fields<const N: usize>(text: &[u8]) -> Result<[u16; N], Unusable>
    ensures { MatchResult result (λ ns. Fields text.now (listed N ns)) (λ _. (ns : List ℕ) → length ns ≡ N → Fields text.now ns → ⊥) }
{
    let mut numbers = [0; N];
    let mut rest = text;
    for number in numbers.iter_mut() {
        let (value, after) = field(rest)?;
        *number = value;
        rest = after;
    }
    if rest.is_empty() {
        Ok(numbers)
    } else {
        Err(Unusable)
    }
}

// The number of the field that a text begins with, and the text after that field.
fn field(text: &[u8]) -> Result<(u16, &[u8]), Unusable>
    ensures { MatchResult result (λ p. Field text.now p.0 p.1.now) (λ _. (n : ℕ) (rest : List ℕ) → Field text.now n rest → ⊥) }
{
    let [b' ', text @ ..] = text else {
        return Err(Unusable);
    };
    let count = digits(text);
    if count == 0 || count > MOST_DIGITS {
        return Err(Unusable);
    }
    let Ok(number) = u16::try_from(decimal(&text[0..count])) else {
        return Err(Unusable);
    };
    Ok((number, &text[count..]))
}

// How many digits a text begins with.
fn digits(text: &[u8]) -> usize
    ensures bound { result ≤ length text.now }
    ensures front { All Digit (take result text.now) }
    ensures rest { NoDigit (drop result text.now) }
{
    text.iter()
        .position(|byte| !byte.is_ascii_digit())
        .unwrap_or(text.len())
}

// The number that five digits or fewer write.
fn decimal(digits: &[u8]) -> u32
    requires few { length digits.now ≤ 5 }
    requires all { All Digit digits.now }
    ensures { result ≡ value digits.now }
{
    let mut number = 0;
    for digit in digits {
        number = 10 * number + u32::from(*digit - b'0');
    }
    number
}
