ghost use Rattle.std.specs.Prelude.{◌≡◌, ◌≤◌, [], ◌∷◌, Ok, IfOk, OnOk};
ghost use Rattle.std.specs.Str.Iter.{split_whitespace_rest};
ghost use Rattle.std.specs.Str.Parse.{IsNumeral};
ghost use Rattle.quantity.specs.Written.{Writes};
ghost use Rattle.script.specs.Words.{HasWords, Takes, before_comment};

use crate::malformed::Malformed;
use quantity::reading::is_number;
use std::str::{FromStr, SplitWhitespace};

/// A number written in digits alone; one that is too large for its type is told as it is given here.
pub fn number<N: FromStr>(word: &str, too_large: Malformed) -> Result<N, Malformed>
where
    N: Drop,
    N::Err: Drop,
    ensures value { IfOk result (λ n. N.from_str_gives word.now (Ok n)) }
    ensures digits { OnOk result (IsNumeral 10 word.now) }
{
    if !is_number(word) {
        return Err(Malformed::NotANumber);
    }
    word.parse().or(Err(too_large))
}

/// A number written in digits alone, at most `most`; a larger one is told as it is given here.
pub fn number_up_to(word: &str, most: u64, too_large: Malformed) -> Result<u64, Malformed>
    ensures bound { IfOk result (λ n. n ≤ most) }
    ensures value { IfOk result (λ n. Writes word.now n) }
{
    let n: u64 = number(word, too_large)?;
    if n > most {
        return Err(too_large);
    }
    Ok(n)
}

/// A line up to its comment.
pub fn without_comment(line: &str) -> &str
    ensures { result.now ≡ before_comment line.now }
{
    line.split_once('#').map_or(line, |(call, _)| call)
}

/// The next word of a line.
pub fn next_word<'a>(words: &mut SplitWhitespace<'a>) -> Result<&'a str, Malformed>
    ensures { IfOk result (λ word. Takes words.old words.new (word.now ∷ [])) }
{
    words.next().ok_or(Malformed::WordMissing)
}

/// Refuses a word that is left.
pub fn no_more(words: &mut SplitWhitespace<'_>) -> Result<(), Malformed>
    ensures { OnOk result (HasWords (split_whitespace_rest words.old) []) }
{
    match words.next() {
        None => Ok(()),
        Some(_) => Err(Malformed::WordTooMany),
    }
}
