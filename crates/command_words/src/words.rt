//! Reading the words of a command line: operands, and options with their values in any order.
ghost use Rattle.std.specs.Prelude.{◌≡◌, ◌||◌, [], map, Ok, Err, IfOk, MatchResult};
ghost use Rattle.std.specs.Option.{option_map};
ghost use Rattle.command_words.specs.Arguments.{IsStep, attached, free, got, is_given, may_be, mode_of, name_in, named, pair, read, seen, step, step_of_option, value_in, valued};

use crate::given::first_value;
use crate::table::Opt;
use std::alloc::{AllocError, Global};

/// A word of a command line.
#[derive(Clone, Copy)]
pub struct Word<'a> {
    /// Its place among the arguments, from 1 on.
    pub place: usize,
    /// Its text.
    pub text: &'a str,
}

/// An option that is given.
#[derive(Clone, Copy)]
pub struct GivenOption<'a> {
    /// The option.
    pub option: &'static Opt,
    /// Its value, with an empty text for a flag.
    pub value: Word<'a>,
}

/// Why a word breaks the table.
#[derive(Clone, Copy)]
pub enum Why {
    /// No option has this name.
    Unknown,
    /// The option is given twice.
    Twice,
    /// The option has a value, and none follows.
    NoValue,
    /// The option is a flag, which has no value.
    Flag,
    /// The option may not have this value, but one of these.
    Choice(&'static [&'static str]),
}

/// A word that breaks the table.
#[derive(Clone, Copy)]
pub struct Wrong<'a> {
    /// The word, or the value behind its `=`.
    pub word: Word<'a>,
    /// Why it does.
    pub why: Why,
}

/// The operands and the options of a command line.
#[derive(Drop)]
pub struct Arguments<'a> {
    /// The operands, in their order.
    pub operands: Vec<Word<'a>>,
    /// The options, in the order in which they are given.
    pub options: Vec<GivenOption<'a>>,
}

// How the next word is read.
#[derive(Clone, Copy)]
pub(crate) enum Mode<'a> {
    // As an option where it begins with `--`.
    Free,
    // As the value of the option that this word begins.
    Begun(&'static Opt, Word<'a>),
    // As an operand.
    Ended,
}

// How the next word is read, or the word that breaks the table; or memory is short.
type Step<'a> = Result<Result<Mode<'a>, Wrong<'a>>, AllocError>;

/// Reads words by a table of options.
///
/// An option begins with `--`. Its value stands behind `=` or in the next word. Behind `--` all words are operands.
/// A word with one hyphen is an operand too, since numbers may be negative.
///
/// Returns the first word that breaks the table as an error.
#[tactic(auto, using(crate::proofs::ReadLemmas::read_wrong, crate::proofs::ReadLemmas::read_more, crate::proofs::ReadLemmas::read_end))]
pub fn read_words<'a>(
    alloc: Global,
    table: &'static [Opt],
    words: &[Word<'a>],
) -> Result<Result<Arguments<'a>, Wrong<'a>>, AllocError>
    ensures { IfOk result (λ r. MatchResult r
        (λ f. read table.now ([], []) free (map seen words.now) ≡ Ok (got f.operands.items f.options.items))
        (λ w. read table.now ([], []) free (map seen words.now) ≡ Err (seen w.word, w.why))) }
{
    let mut found = Arguments {
        operands: Vec::new(alloc.clone()?),
        options: Vec::new(alloc),
    };
    let mut mode = Mode::Free;
    let mut rest = words;
    while let [word, others @ ..] = rest {
        match read_word(table, &mut found, mode, *word)? {
            Ok(next) => mode = next,
            Err(wrong) => return Ok(Err(wrong)),
        }
        rest = others;
    }
    let why = Why::NoValue;
    match mode {
        Mode::Begun(_, word) => Ok(Err(Wrong { word, why })),
        _ => Ok(Ok(found)),
    }
}

// Reads a word behind others.
fn read_word<'a>(
    table: &'static [Opt],
    found: &mut Arguments<'a>,
    mode: Mode<'a>,
    word: Word<'a>,
) -> Step<'a>
    ensures { IfOk result (λ r. IsStep (step table.now (got found.old.operands.items found.old.options.items) (mode_of mode.entry) (seen word.entry)) r (got found.new.operands.items found.new.options.items)) }
{
    match mode {
        Mode::Begun(option, _) => put_value(found, option, word),
        Mode::Free if word.text.as_bytes().starts_with(b"--") => read_option(table, found, word),
        _ => {
            found.operands.push(word)?;
            Ok(Ok(mode))
        }
    }
}

// Reads a word that begins with `--`.
fn read_option<'a>(table: &'static [Opt], found: &mut Arguments<'a>, word: Word<'a>) -> Step<'a>
    ensures { IfOk result (λ r. IsStep (step_of_option table.now (got found.old.operands.items found.old.options.items) (seen word.entry)) r (got found.new.operands.items found.new.options.items)) }
{
    if word.text == "--" {
        return Ok(Ok(Mode::Ended));
    }
    let (name, value) = cut(word.text);
    let why = Why::Unknown;
    match option_named(table, name) {
        Some(option) => put_option(found, option, word, value),
        None => Ok(Err(Wrong { word, why })),
    }
}

// Puts an option behind the others, with what stands behind its `=`, or begins it.
fn put_option<'a>(
    found: &mut Arguments<'a>,
    option: &'static Opt,
    word: Word<'a>,
    value: Option<&'a str>,
) -> Step<'a>
    ensures { IfOk result (λ r. IsStep (attached option.now (got found.old.operands.items found.old.options.items) (seen word.entry) (option_map (λ v. v.now) value.entry)) r (got found.new.operands.items found.new.options.items)) }
{
    if !option.repeated && is_given(found.options.as_slice(), option.name) {
        let why = Why::Twice;
        return Ok(Err(Wrong { word, why }));
    }
    let place = word.place;
    let why = Why::Flag;
    match value {
        Some(_) if option.value.is_empty() => Ok(Err(Wrong { word, why })),
        Some(text) => put_value(found, option, Word { place, text }),
        None if option.value.is_empty() => put_value(found, option, Word { place, text: "" }),
        None => Ok(Ok(Mode::Begun(option, word))),
    }
}

// Puts an option behind the others with a value, if it may have that.
fn put_value<'a>(found: &mut Arguments<'a>, option: &'static Opt, value: Word<'a>) -> Step<'a>
    ensures { IfOk result (λ r. IsStep (valued option.now (got found.old.operands.items found.old.options.items) (seen value.entry)) r (got found.new.operands.items found.new.options.items)) }
{
    if may_be(option, value.text) {
        found.options.push(GivenOption { option, value })?;
        return Ok(Ok(Mode::Free));
    }
    let why = Why::Choice(option.values);
    Ok(Err(Wrong { word: value, why }))
}

// Whether an option may have a value.
fn may_be(option: &Opt, text: &str) -> bool
    ensures { result ≡ may_be option.now text.now }
{
    option.any || option.values.contains(&text)
}

// Whether an option with that name is given.
pub(crate) fn is_given(options: &[GivenOption<'_>], name: &str) -> bool
    ensures { result ≡ is_given name.now (map pair options.now) }
{
    first_value(options, name).is_some()
}

// The option with that name.
pub(crate) fn option_named(table: &'static [Opt], name: &str) -> Option<&'static Opt>
    ensures { option_map (λ o. o.now) result ≡ named name.now table.now }
{
    let [option, others @ ..] = table else {
        return None;
    };
    if name == option.name {
        return Some(option);
    }
    option_named(others, name)
}

// What stands in front of the first `=` of a text, and what stands behind it.
fn cut(text: &str) -> (&str, Option<&str>)
    ensures name { result.0.now ≡ name_in text.now }
    ensures value { option_map (λ v. v.now) result.1 ≡ value_in text.now }
{
    match text.split_once('=') {
        Some((name, value)) => (name, Some(value)),
        None => (text, None),
    }
}
