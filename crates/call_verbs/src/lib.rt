// What a line may ask for: a call on a store, an instance to encode or decode, the image, the row that matches, or an answer explained. The words in front
// name it.
#![tactic(auto)]

ghost use Rattle.std.specs.Prelude.{◌≡◌, suc, ◌≤◌, length};
ghost use Rattle.text_words.specs.Words.{words, words_from};
ghost use Rattle.line_fields.specs.Slots.{Lists};
ghost use Rattle.call_verbs.specs.Calls.{verbs, match_verbs, verb_named, match_phrase, phrase_of, kinds_of};
ghost use Rattle.call_verbs.specs.Phrases.{Names};

use line_fields::{Kind, MOST_FIELDS, REQUEST_FIELDS};

// What a line asks for.
#[derive(Clone, Copy)]
pub enum Verb {
    Decide,
    Owner,
    Principal,
    Encode,
    Decode,
    Image,
    MatchView,
    MatchAccess,
    Walk,
    Explain,
    Unknown,
}

// ---- the words that name it

// What a word names alone.
fn verb_named(word: &[u8]) -> Verb
    ensures { result ≡ verb_named verbs word.now }
{
    match text_words::place_of(
        word,
        b"decide owner principal encode decode image walk explain",
    ) {
        0 => Verb::Decide,
        1 => Verb::Owner,
        2 => Verb::Principal,
        3 => Verb::Encode,
        4 => Verb::Decode,
        5 => Verb::Image,
        6 => Verb::Walk,
        7 => Verb::Explain,
        _ => Verb::Unknown,
    }
}

// What a word names behind `match`.
fn match_named(word: &[u8]) -> Verb
    ensures { result ≡ verb_named match_verbs word.now }
{
    match text_words::place_of(word, b"view access") {
        0 => Verb::MatchView,
        1 => Verb::MatchAccess,
        _ => Verb::Unknown,
    }
}

// What the words in front name, and where the one behind them begins.
#[derive(Clone, Copy)]
pub struct Named {
    pub verb: Verb,
    pub next: usize,
}

// What the word that begins at `at` names behind `match`.
fn match_phrase(line: &[u8], at: usize) -> Named
    requires { at ≤ suc (length line.now) }
    ensures { Names result (match_phrase (words_from at line.now)) line.now }
{
    let Some(end) = text_words::word_at(line, at) else {
        return Named {
            verb: Verb::Unknown,
            next: at,
        };
    };
    let verb = match_named(&line[at..end]);
    let next = end + 1;
    Named { verb, next }
}

// What a line asks for, by one word or two.
pub fn phrase_of(line: &[u8]) -> Named
    ensures { Names result (phrase_of (words line.now)) line.now }
{
    let end = text_words::end_of(line, 0, b' ');
    let word = &line[0..end];
    let next = end + 1;
    if octets::are_same(word, b"match") {
        return match_phrase(line, next);
    }
    let verb = verb_named(word);
    Named { verb, next }
}

// ---- the fields behind them

// Their kinds, at the front of an array.
pub fn kinds_of(v: Verb) -> [Kind; MOST_FIELDS]
    ensures { Lists (kinds_of v) result }
{
    match v {
        Verb::Decide => line_fields::request_kinds(),
        Verb::Owner => [Kind::Edit; MOST_FIELDS],
        Verb::Principal => [
            Kind::Number,
            Kind::Name,
            Kind::Number,
            Kind::Edit,
            Kind::Number,
            Kind::Number,
        ],
        Verb::Encode => [
            Kind::Number,
            Kind::Key,
            Kind::Number,
            Kind::Number,
            Kind::Number,
            Kind::Number,
        ],
        Verb::Decode => [Kind::Identifier; MOST_FIELDS],
        Verb::Image => [Kind::Number; MOST_FIELDS],
        Verb::MatchView => [
            Kind::Name,
            Kind::Identifier,
            Kind::Number,
            Kind::Number,
            Kind::Number,
            Kind::Number,
        ],
        Verb::MatchAccess => [
            Kind::Name,
            Kind::Name,
            Kind::Number,
            Kind::Number,
            Kind::Number,
            Kind::Number,
        ],
        Verb::Walk => [
            Kind::Number,
            Kind::Name,
            Kind::Number,
            Kind::Identifier,
            Kind::Number,
            Kind::Number,
        ],
        Verb::Explain => line_fields::request_kinds(),
        Verb::Unknown => [Kind::Number; MOST_FIELDS],
    }
}

// How many there are.
pub fn field_count(v: Verb) -> usize
    ensures { result ≡ length (kinds_of v) }
{
    match v {
        Verb::Decide => REQUEST_FIELDS,
        Verb::Owner => 1,
        Verb::Principal => 4,
        Verb::Encode => 2,
        Verb::Decode => 1,
        Verb::Image => 0,
        Verb::MatchView => 2,
        Verb::MatchAccess => 4,
        Verb::Walk => 4,
        Verb::Explain => REQUEST_FIELDS,
        Verb::Unknown => 0,
    }
}
