ghost use Rattle.std.specs.Prelude.{◌≡◌, ◌∷◌, codes, IfOk};
ghost use Rattle.script.specs.Lines.{NumberWords, PassageWords, SettingWords, ChangeWords, CallWords, TellsCall, TellsLine, call_word, setting_word};
ghost use Rattle.script.specs.Words.{Takes};

use crate::calls::{Call, HoldingChange};
use crate::malformed::Malformed;
use crate::quantities::Written;
use crate::settings::{Bottom, Line, Setting};
use crate::words::{next_word, no_more, number, without_comment};
use quantity::direction::Direction;
use refusals::passage::Passage;
use std::str::{FromStr, SplitWhitespace};

// The next word, as a provider or a quarter.
fn read_u8(words: &mut SplitWhitespace<'_>) -> Result<u8, Malformed>
    ensures { IfOk result (NumberWords (Takes words.old words.new)) }
{
    number(next_word(words)?, Malformed::NumberTooLarge)
}

fn read_service(words: &mut SplitWhitespace<'_>) -> Result<Setting, Malformed>
    ensures { IfOk result (λ setting. (setting_word setting ≡ codes "service") × SettingWords (Takes words.old words.new) setting) }
{
    Ok(Setting::Service(next_word(words)?.parse()?))
}

fn read_books(words: &mut SplitWhitespace<'_>) -> Result<Setting, Malformed>
    ensures { IfOk result (λ setting. (setting_word setting ≡ codes "books") × SettingWords (Takes words.old words.new) setting) }
{
    match next_word(words)? {
        "full" => Ok(Setting::Books(Bottom::Full)),
        "sparse" => {
            let places = number(next_word(words)?, Malformed::PlacesTooMany)?;
            Ok(Setting::Books(Bottom::Sparse(places)))
        }
        _ => Err(Malformed::UnknownBooks),
    }
}

fn read_limits(words: &mut SplitWhitespace<'_>) -> Result<Setting, Malformed>
    ensures { IfOk result (λ setting. (setting_word setting ≡ codes "limits") × SettingWords (Takes words.old words.new) setting) }
{
    Ok(Setting::Limits(next_word(words)?.parse()?))
}

fn read_limit(words: &mut SplitWhitespace<'_>) -> Result<Setting, Malformed>
    ensures { IfOk result (λ setting. (setting_word setting ≡ codes "limit") × SettingWords (Takes words.old words.new) setting) }
{
    let provider = read_u8(words)?;
    let direction: Direction = next_word(words)?.parse()?;
    let tenths = number(next_word(words)?, Malformed::LimitTooLarge)?;
    Ok(Setting::Limit {
        provider,
        direction,
        tenths,
    })
}

// The setting whose first word this is.
fn read_setting(first: &str, words: &mut SplitWhitespace<'_>) -> Result<Setting, Malformed>
    ensures { IfOk result (λ setting. (setting_word setting ≡ first.now) × SettingWords (Takes words.old words.new) setting) }
{
    match first {
        "service" => read_service(words),
        "books" => read_books(words),
        "limits" => read_limits(words),
        "limit" => read_limit(words),
        _ => Err(Malformed::UnknownWord),
    }
}

/// What a line is, or what is wrong with it; a call is not read yet.
impl FromStr for Line {
    type Err = Malformed;

    ghost from_str_gives = { λ line r. IfOk r (TellsLine line) };

    fn from_str(line: &str) -> Result<Line, Malformed> {
        let mut words = without_comment(line).split_whitespace();
        match words.next() {
            None => Ok(Line::Blank),
            // These words stand here and where a call is read: an unknown one is told as such before a service is chosen.
            Some("raise" | "lower" | "move" | "holding" | "free") => Ok(Line::Call),
            Some(first) => {
                let setting = read_setting(first, &mut words)?;
                no_more(&mut words)?;
                Ok(Line::Setting(setting))
            }
        }
    }
}

fn read_change<Q: Written>(words: &mut SplitWhitespace<'_>) -> Result<HoldingChange<Q>, Malformed>
    ensures { IfOk result (ChangeWords Q.from_str_gives (Takes words.old words.new)) }
{
    let provider = read_u8(words)?;
    let quarter = read_u8(words)?;
    let quantity = next_word(words)?.parse()?;
    Ok(HoldingChange {
        provider,
        quarter,
        quantity,
    })
}

fn read_passage(words: &mut SplitWhitespace<'_>) -> Result<Passage, Malformed>
    ensures { IfOk result (PassageWords (Takes words.old words.new)) }
{
    let giver = read_u8(words)?;
    let taker = read_u8(words)?;
    let first = read_u8(words)?;
    let last = read_u8(words)?;
    Ok(Passage {
        giver,
        taker,
        first,
        last,
    })
}

fn read_move<Q: Written>(words: &mut SplitWhitespace<'_>) -> Result<Call<Q>, Malformed>
    ensures { IfOk result (λ call. (call_word call ≡ codes "move") × CallWords Q.from_str_gives (Takes words.old words.new) call) }
{
    let passage = read_passage(words)?;
    let quantity = next_word(words)?.parse()?;
    Ok(Call::Move { passage, quantity })
}

fn read_holding<Q: Written>(words: &mut SplitWhitespace<'_>) -> Result<Call<Q>, Malformed>
    ensures { IfOk result (λ call. (call_word call ≡ codes "holding") × CallWords Q.from_str_gives (Takes words.old words.new) call) }
{
    let provider = read_u8(words)?;
    let quarter = read_u8(words)?;
    Ok(Call::Holding { provider, quarter })
}

fn read_words<Q: Written>(words: &mut SplitWhitespace<'_>) -> Result<Call<Q>, Malformed>
    ensures { IfOk result (λ call. CallWords Q.from_str_gives (λ later. Takes words.old words.new (call_word call ∷ later)) call) }
{
    match next_word(words)? {
        "raise" => Ok(Call::Raise(read_change(words)?)),
        "lower" => Ok(Call::Lower(read_change(words)?)),
        "move" => read_move(words),
        "holding" => read_holding(words),
        "free" => Ok(Call::Free),
        _ => Err(Malformed::UnknownWord),
    }
}

/// The call of a line, or what is wrong with it.
impl<Q: Written> FromStr for Call<Q> {
    type Err = Malformed;

    ghost from_str_gives = { λ line r. IfOk r (TellsCall Q.from_str_gives line) };

    fn from_str(line: &str) -> Result<Call<Q>, Malformed> {
        let mut words = without_comment(line).split_whitespace();
        let call = read_words(&mut words)?;
        no_more(&mut words)?;
        Ok(call)
    }
}
