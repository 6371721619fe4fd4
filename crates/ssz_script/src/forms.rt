ghost use Rattle.std.specs.Prelude.{◌≡◌, ◌∷◌, []};
ghost use Rattle.ssz_line.specs.Single.{name, file, literal, selector};
ghost use Rattle.ssz_line.specs.Paths.{path, index, read_all};
ghost use Rattle.ssz_line.specs.Reading.{Reads};
ghost use Rattle.ssz_line.proofs.ReadAll.{after_read};
ghost use Rattle.ssz_script.specs.Grammar.{alone, one, two, three, three_or_four, one_and_more};
ghost use Rattle.ssz_script.specs.declared.statement.Statement.TheVariants.{New, Lit, Load, Fork, Drop, List as ListNames, Set, Append, Pop, Choose, Root, Bytes, Len, Save, Gindex, Prove, Hashes, Upgrade, Json, LoadJson, Compact};

use super::indices::Indices;
use super::statement::Statement;
use ssz_bytes::ByteRun;
use ssz_line::{
    FileName, Identifier, Index, LineFault, Steps, Words, end, one_word, read_file, read_index,
    read_literal, read_name, read_path, read_selector, three_or_four_words, three_words, two_words,
    word,
};
use std::alloc::Global;

// Two names.
#[tactic(auto, using(crate::proofs::Shapes::not_two), unfolding(crate::specs::Grammar::two))]
fn two_names(alloc: Global, words: Words<'_>) -> Result<(Identifier, Identifier), LineFault>
    ensures { Reads result (two (λ v w. (v, w)) name name words.entry) }
{
    let (first, second) = two_words(words)?;
    let first = read_name(alloc, first)?;
    Ok((first, read_name(alloc, second)?))
}

// A name and a path.
#[tactic(auto, using(crate::proofs::Shapes::not_two), unfolding(crate::specs::Grammar::two))]
fn name_and_path(alloc: Global, words: Words<'_>) -> Result<(Identifier, Steps), LineFault>
    ensures { Reads result (two (λ v place. (v, place)) name path words.entry) }
{
    let (first, place) = two_words(words)?;
    let first = read_name(alloc, first)?;
    Ok((first, read_path(alloc, place)?))
}

// Two names and the name of a file.
#[tactic(auto, using(crate::proofs::Shapes::not_three), unfolding(crate::specs::Grammar::three))]
fn names_and_file(
    alloc: Global,
    words: Words<'_>,
) -> Result<(Identifier, Identifier, FileName), LineFault>
    ensures { Reads result (three (λ v t from. (v, t, from)) name name file words.entry) }
{
    let (v, t, from) = three_words(words)?;
    let v = read_name(alloc, v)?;
    let t = read_name(alloc, t)?;
    Ok((v, t, read_file(alloc, from)?))
}

// A name, a path and a literal.
#[tactic(auto, using(crate::proofs::Shapes::not_three), unfolding(crate::specs::Grammar::three))]
fn place_and_literal(
    alloc: Global,
    words: Words<'_>,
) -> Result<(Identifier, Steps, ByteRun), LineFault>
    ensures { Reads result (three (λ v place run. (v, place, run)) name path literal words.entry) }
{
    let (v, place, value) = three_words(words)?;
    let v = read_name(alloc, v)?;
    let place = read_path(alloc, place)?;
    Ok((v, place, read_literal(alloc, value)?))
}

#[tactic(auto, using(crate::proofs::Shapes::two_is))]
pub fn read_new(alloc: Global, words: Words<'_>) -> Result<Statement, LineFault>
    ensures { Reads result (two New name name words.entry) }
{
    let (v, t) = two_names(alloc, words)?;
    Ok(Statement::New(v, t))
}

#[tactic(auto, using(crate::proofs::Shapes::not_three), unfolding(crate::specs::Grammar::three))]
pub fn read_lit(alloc: Global, words: Words<'_>) -> Result<Statement, LineFault>
    ensures { Reads result (three Lit name name literal words.entry) }
{
    let (v, t, value) = three_words(words)?;
    let v = read_name(alloc, v)?;
    let t = read_name(alloc, t)?;
    Ok(Statement::Lit(v, t, read_literal(alloc, value)?))
}

#[tactic(auto, using(crate::proofs::Shapes::three_is))]
pub fn read_load(alloc: Global, words: Words<'_>) -> Result<Statement, LineFault>
    ensures { Reads result (three Load name name file words.entry) }
{
    let (v, t, from) = names_and_file(alloc, words)?;
    Ok(Statement::Load(v, t, from))
}

#[tactic(auto, using(crate::proofs::Shapes::two_is))]
pub fn read_fork(alloc: Global, words: Words<'_>) -> Result<Statement, LineFault>
    ensures { Reads result (two Fork name name words.entry) }
{
    let (v, w) = two_names(alloc, words)?;
    Ok(Statement::Fork(v, w))
}

#[tactic(auto, using(crate::proofs::Shapes::not_one), unfolding(crate::specs::Grammar::one))]
pub fn read_drop(alloc: Global, words: Words<'_>) -> Result<Statement, LineFault>
    ensures { Reads result (one Drop name words.entry) }
{
    let v = one_word(words)?;
    Ok(Statement::Drop(read_name(alloc, v)?))
}

#[tactic(auto, unfolding(crate::specs::Grammar::alone))]
pub fn read_list(words: Words<'_>) -> Result<Statement, LineFault>
    ensures { Reads result (alone ListNames words.entry) }
{
    end(words)?;
    Ok(Statement::List)
}

#[tactic(auto, using(crate::proofs::Shapes::three_is))]
pub fn read_set(alloc: Global, words: Words<'_>) -> Result<Statement, LineFault>
    ensures { Reads result (three Set name path literal words.entry) }
{
    let (v, place, value) = place_and_literal(alloc, words)?;
    Ok(Statement::Set(v, place, value))
}

#[tactic(auto, using(crate::proofs::Shapes::three_is))]
pub fn read_append(alloc: Global, words: Words<'_>) -> Result<Statement, LineFault>
    ensures { Reads result (three Append name path literal words.entry) }
{
    let (v, place, value) = place_and_literal(alloc, words)?;
    Ok(Statement::Append(v, place, value))
}

#[tactic(auto, using(crate::proofs::Shapes::two_is))]
pub fn read_pop(alloc: Global, words: Words<'_>) -> Result<Statement, LineFault>
    ensures { Reads result (two Pop name path words.entry) }
{
    let (v, place) = name_and_path(alloc, words)?;
    Ok(Statement::Pop(v, place))
}

#[tactic(auto, using(crate::proofs::Shapes::not_one), unfolding(crate::specs::Grammar::one))]
pub fn read_root(alloc: Global, words: Words<'_>) -> Result<Statement, LineFault>
    ensures { Reads result (one Root name words.entry) }
{
    let v = one_word(words)?;
    Ok(Statement::Root(read_name(alloc, v)?))
}

#[tactic(auto, using(crate::proofs::Shapes::two_is))]
pub fn read_bytes(alloc: Global, words: Words<'_>) -> Result<Statement, LineFault>
    ensures { Reads result (two Bytes name path words.entry) }
{
    let (v, place) = name_and_path(alloc, words)?;
    Ok(Statement::Bytes(v, place))
}

#[tactic(auto, using(crate::proofs::Shapes::two_is))]
pub fn read_len(alloc: Global, words: Words<'_>) -> Result<Statement, LineFault>
    ensures { Reads result (two Len name path words.entry) }
{
    let (v, place) = name_and_path(alloc, words)?;
    Ok(Statement::Len(v, place))
}

#[tactic(auto, using(crate::proofs::Shapes::not_two), unfolding(crate::specs::Grammar::two))]
pub fn read_save(alloc: Global, words: Words<'_>) -> Result<Statement, LineFault>
    ensures { Reads result (two Save name file words.entry) }
{
    let (v, to) = two_words(words)?;
    let v = read_name(alloc, v)?;
    Ok(Statement::Save(v, read_file(alloc, to)?))
}

#[tactic(auto, using(crate::proofs::Shapes::two_is))]
pub fn read_gindex(alloc: Global, words: Words<'_>) -> Result<Statement, LineFault>
    ensures { Reads result (two Gindex name path words.entry) }
{
    let (t, place) = name_and_path(alloc, words)?;
    Ok(Statement::Gindex(t, place))
}

#[tactic(auto, unfolding(crate::specs::Grammar::alone))]
pub fn read_hashes(words: Words<'_>) -> Result<Statement, LineFault>
    ensures { Reads result (alone Hashes words.entry) }
{
    end(words)?;
    Ok(Statement::Hashes)
}

#[tactic(auto, using(crate::proofs::Shapes::not_three), unfolding(crate::specs::Grammar::three))]
pub fn read_upgrade(alloc: Global, words: Words<'_>) -> Result<Statement, LineFault>
    ensures { Reads result (three Upgrade name name name words.entry) }
{
    let (v, w, t) = three_words(words)?;
    let v = read_name(alloc, v)?;
    let w = read_name(alloc, w)?;
    Ok(Statement::Upgrade(v, w, read_name(alloc, t)?))
}

#[tactic(auto, using(crate::proofs::Shapes::two_is))]
pub fn read_json(alloc: Global, words: Words<'_>) -> Result<Statement, LineFault>
    ensures { Reads result (two Json name path words.entry) }
{
    let (v, place) = name_and_path(alloc, words)?;
    Ok(Statement::Json(v, place))
}

#[tactic(auto, using(crate::proofs::Shapes::three_is))]
pub fn read_loadjson(alloc: Global, words: Words<'_>) -> Result<Statement, LineFault>
    ensures { Reads result (three LoadJson name name file words.entry) }
{
    let (v, t, from) = names_and_file(alloc, words)?;
    Ok(Statement::LoadJson(v, t, from))
}

#[tactic(auto, using(crate::proofs::Shapes::not_three_or_four), unfolding(crate::specs::Grammar::three_or_four))]
pub fn read_choose(alloc: Global, words: Words<'_>) -> Result<Statement, LineFault>
    ensures { Reads result (three_or_four Choose name path selector literal words.entry) }
{
    let (version, place, number, last) = three_or_four_words(words)?;
    let version = read_name(alloc, version)?;
    let place = read_path(alloc, place)?;
    let number = read_selector(number).ok_or(LineFault::Syntax)?;
    let value = match last {
        None => None,
        Some(last) => Some(read_literal(alloc, last)?),
    };
    Ok(Statement::Choose(version, place, number, value))
}

// This index, and those that the words are.
fn indices(alloc: Global, first: Index, mut words: Words<'_>) -> Result<Indices, LineFault>
    ensures { Reads result (after_read (first ∷ []) (read_all index words.entry)) }
{
    let mut indices = Vec::new(alloc);
    indices.push(first)?;
    while let Some(word) = words.next() {
        indices.push(read_index(alloc, word)?)?;
    }
    Ok(Indices::new(indices))
}

#[tactic(auto, unfolding(crate::specs::Grammar::one_and_more))]
pub fn read_prove(alloc: Global, mut words: Words<'_>) -> Result<Statement, LineFault>
    ensures { Reads result (one_and_more Prove name index words.entry) }
{
    let version = word(&mut words)?;
    let first = read_index(alloc, word(&mut words)?)?;
    let indices = indices(alloc, first, words)?;
    Ok(Statement::Prove(read_name(alloc, version)?, indices))
}

#[tactic(auto, unfolding(crate::specs::Grammar::alone))]
pub fn read_compact(words: Words<'_>) -> Result<Statement, LineFault>
    ensures { Reads result (alone Compact words.entry) }
{
    end(words)?;
    Ok(Statement::Compact)
}
