// The words of a line, where they have to be so many.
ghost use Rattle.std.specs.Prelude.{◌≡◌, ◌≢◌, ◌<◌, ◌∷◌, [], length, MatchOption, IfOk, IfErr};

use super::fault::LineFault;
use super::words::Words;

/// The next word.
pub fn word<'a>(words: &mut Words<'a>) -> Result<&'a [u8], LineFault>
    ensures word { IfOk result (λ word. words.old ≡ word.now ∷ words.new) }
    ensures none { IfErr result (λ e. (e ≡ LineFault.Syntax) × (words.old ≡ [])) }
{
    words.next().ok_or(LineFault::Syntax)
}

/// That no word is left.
pub fn end(mut words: Words<'_>) -> Result<(), LineFault>
    ensures end { IfOk result (λ _. words.entry ≡ []) }
    ensures more { IfErr result (λ e. (e ≡ LineFault.Syntax) × (0 < length words.entry)) }
{
    match words.next() {
        None => Ok(()),
        Some(_) => Err(LineFault::Syntax),
    }
}

/// The words, which are one.
pub fn one_word<'a>(mut words: Words<'a>) -> Result<&'a [u8], LineFault>
    ensures one { IfOk result (λ word. words.entry ≡ word.now ∷ []) }
    ensures not_one { IfErr result (λ e. (e ≡ LineFault.Syntax) × (length words.entry ≢ 1)) }
{
    let only = word(&mut words)?;
    end(words)?;
    Ok(only)
}

/// The words, which are two.
pub fn two_words<'a>(mut words: Words<'a>) -> Result<(&'a [u8], &'a [u8]), LineFault>
    ensures two { IfOk result (λ two. words.entry ≡ two.0.now ∷ two.1.now ∷ []) }
    ensures not_two { IfErr result (λ e. (e ≡ LineFault.Syntax) × (length words.entry ≢ 2)) }
{
    let first = word(&mut words)?;
    Ok((first, one_word(words)?))
}

/// The words, which are three.
pub fn three_words<'a>(mut words: Words<'a>) -> Result<(&'a [u8], &'a [u8], &'a [u8]), LineFault>
    ensures three { IfOk result
        (λ three. words.entry ≡ three.0.now ∷ three.1.now ∷ three.2.now ∷ []) }
    ensures not_three { IfErr result (λ e. (e ≡ LineFault.Syntax) × (length words.entry ≢ 3)) }
{
    let first = word(&mut words)?;
    let (second, third) = two_words(words)?;
    Ok((first, second, third))
}

// The words, which are one or two.
fn one_or_two_words<'a>(mut words: Words<'a>) -> Result<(&'a [u8], Option<&'a [u8]>), LineFault>
    ensures words { IfOk result (λ all. MatchOption all.1 (words.entry ≡ all.0.now ∷ [])
        (λ last. words.entry ≡ all.0.now ∷ last.now ∷ [])) }
    ensures others { IfErr result
        (λ e. (e ≡ LineFault.Syntax) × (length words.entry ≢ 1) × (length words.entry ≢ 2)) }
{
    let first = word(&mut words)?;
    let last = words.next();
    end(words)?;
    Ok((first, last))
}

/// The words, which are three or four.
pub fn three_or_four_words<'a>(
    mut words: Words<'a>,
) -> Result<(&'a [u8], &'a [u8], &'a [u8], Option<&'a [u8]>), LineFault>
    ensures words { IfOk result (λ all. MatchOption all.3
        (words.entry ≡ all.0.now ∷ all.1.now ∷ all.2.now ∷ [])
        (λ last. words.entry ≡ all.0.now ∷ all.1.now ∷ all.2.now ∷ last.now ∷ [])) }
    ensures others { IfErr result
        (λ e. (e ≡ LineFault.Syntax) × (length words.entry ≢ 3) × (length words.entry ≢ 4)) }
{
    let first = word(&mut words)?;
    let second = word(&mut words)?;
    let (third, last) = one_or_two_words(words)?;
    Ok((first, second, third, last))
}
