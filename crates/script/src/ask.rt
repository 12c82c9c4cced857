// What a line asks for, by its first word and the number of its words.
ghost use Rattle.std.specs.Prelude.{◌≡◌, false, unwrap_or};
ghost use Rattle.script_words.specs.Number.{number_of};
ghost use Rattle.script.specs.Ask.{store_ask, byte_ask, failure_ask, ask_one, ask_two, ask_three, ask_six, is_silent, ask_of};
ghost use Rattle.script.specs.declared.ask.Ask.{Ask as AskOf};

use plant::GivenSettings;
use rules::Kind;
use script_words::{number_of, word, word_count};

// What is taken: a file by its name and body, or a whole response by its boundary and bytes.
#[derive(Clone, Copy, Debug, PartialEq, Eq)]
pub enum Taken {
    File,
    Response,
}

// A call with its numbers; the words that stand for bytes are still to be read. An ID and a MAC, a NAME and a body's digits, a BOUNDARY and a
// response's digits are words 1 and 2 of their lines, a SEGMENT is word 1.
#[derive(Clone, Copy)]
pub enum Ask {
    Nothing,
    Unknown,
    Install(GivenSettings),
    Store(usize, u8),
    Byte(u64, u8),
    Tick(u64),
    Lost,
    Take(Taken),
    Failure(Kind, u64),
    Ceiling(u64),
    Due,
    Command,
    Free,
    Request,
    State,
    Block(u64),
}

// 'at most 32768'.
const LONGEST_STORE: u64 = 32768;

const HIGHEST_BYTE: u64 = 255;

const COMMENT: u8 = b'#';

// Each part below answers nothing for a line that is `unknown`: `ask_of` says so in one place.

// A store filled with one byte: 'LENGTH above 32768, BYTE or VALUE above 255: `unknown`'.
fn store_ask(length: &[u8], byte: &[u8]) -> Option<Ask>
    ensures { unwrap_or result AskOf.Unknown ≡ store_ask (number_of length.now) (number_of byte.now) }
{
    let length = number_of(length)?;
    let byte = number_of(byte)?;
    if LONGEST_STORE < length {
        return None;
    }
    if HIGHEST_BYTE < byte {
        return None;
    }
    Some(Ask::Store(length as usize, byte as u8))
}

// A byte of the store.
fn byte_ask(index: &[u8], value: &[u8]) -> Option<Ask>
    ensures { unwrap_or result AskOf.Unknown ≡ byte_ask (number_of index.now) (number_of value.now) }
{
    let index = number_of(index)?;
    let value = number_of(value)?;
    if HIGHEST_BYTE < value {
        return None;
    }
    Some(Ask::Byte(index, value as u8))
}

// A failure of that kind.
fn failure_ask(kind: &[u8], status: &[u8]) -> Option<Ask>
    ensures { unwrap_or result AskOf.Unknown ≡ failure_ask kind.now (number_of status.now) }
{
    let status = number_of(status)?;
    if digits::same(kind, b"update") {
        return Some(Ask::Failure(Kind::Update, status));
    }
    if digits::same(kind, b"fixed") {
        return Some(Ask::Failure(Kind::Fixed, status));
    }
    None
}

// The words are compared by `same`: `==` takes slices alone, so that `b"lost".as_slice()` is no plainer, and a `match` on them was tried: its last
// arm has a goal for each byte that differs, 25 in the next function, and the search closes none of them.

// A line of one word.
#[tactic(auto, unfolding(crate::specs::Ask::ask_one))]
fn ask_one(call: &[u8]) -> Option<Ask>
    ensures { unwrap_or result AskOf.Unknown ≡ ask_one call.now }
{
    if digits::same(call, b"lost") {
        return Some(Ask::Lost);
    }
    if digits::same(call, b"due") {
        return Some(Ask::Due);
    }
    if digits::same(call, b"command") {
        return Some(Ask::Command);
    }
    if digits::same(call, b"free") {
        return Some(Ask::Free);
    }
    if digits::same(call, b"state") {
        return Some(Ask::State);
    }
    None
}

// A line of two words.
#[tactic(auto, unfolding(crate::specs::Ask::ask_two))]
fn ask_two(call: &[u8], first: &[u8]) -> Option<Ask>
    ensures { unwrap_or result AskOf.Unknown ≡ ask_two call.now first.now }
{
    if digits::same(call, b"tick") {
        return Some(Ask::Tick(number_of(first)?));
    }
    if digits::same(call, b"ceiling") {
        return Some(Ask::Ceiling(number_of(first)?));
    }
    if digits::same(call, b"request") {
        return Some(Ask::Request);
    }
    if digits::same(call, b"block") {
        return Some(Ask::Block(number_of(first)?));
    }
    None
}

// A line of three words.
#[tactic(auto, unfolding(crate::specs::Ask::ask_three))]
fn ask_three(call: &[u8], first: &[u8], second: &[u8]) -> Option<Ask>
    ensures { unwrap_or result AskOf.Unknown ≡ ask_three call.now first.now second.now }
{
    if digits::same(call, b"store") {
        return store_ask(first, second);
    }
    if digits::same(call, b"take") {
        return Some(Ask::Take(Taken::File));
    }
    if digits::same(call, b"response") {
        return Some(Ask::Take(Taken::Response));
    }
    if digits::same(call, b"failure") {
        return failure_ask(first, second);
    }
    if digits::same(call, b"byte") {
        return byte_ask(first, second);
    }
    None
}

// A line of six words.
#[tactic(auto, unfolding(crate::specs::Ask::ask_six))]
fn ask_six(call: &[u8], panel: &[u8], inverter: &[u8], minutes: &[u8]) -> Option<Ask>
    ensures { unwrap_or result AskOf.Unknown ≡ ask_six call.now panel.now inverter.now minutes.now }
{
    if !digits::same(call, b"install") {
        return None;
    }
    Some(Ask::Install(GivenSettings {
        panel: number_of(panel)?,
        inverter: number_of(inverter)?,
        minutes: number_of(minutes)?,
    }))
}

// Whether a line answers nothing: 'an empty line and one that begins with #'.
fn is_silent(line: &[u8]) -> bool
    ensures { result ≡ is_silent line.now }
{
    matches!(line, [] | [COMMENT, ..])
}

// `install` and what it is given.
const INSTALL_WORDS: usize = 6;

// The call of a line that is not silent, by its number of words.
#[tactic(auto, unfolding(crate::specs::Ask::ask_of))]
fn call_of(line: &[u8]) -> Option<Ask>
    requires { is_silent line.now ≡ false }
    ensures { unwrap_or result AskOf.Unknown ≡ ask_of line.now }
{
    match word_count(line) {
        1 => ask_one(word(line, 0)),
        2 => ask_two(word(line, 0), word(line, 1)),
        3 => ask_three(word(line, 0), word(line, 1), word(line, 2)),
        INSTALL_WORDS => ask_six(word(line, 0), word(line, 3), word(line, 4), word(line, 5)),
        _ => None,
    }
}

#[tactic(auto, unfolding(crate::specs::Ask::ask_of))]
pub fn ask_of(line: &[u8]) -> Ask
    ensures { result ≡ ask_of line.now }
{
    if is_silent(line) {
        return Ask::Nothing;
    }
    call_of(line).unwrap_or(Ask::Unknown)
}
