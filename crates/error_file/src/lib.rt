// The error file (01, Beside the unit): its code, and its message text as a part of the file.
#![tactic(auto)]

ghost use Rattle.std.specs.Prelude.{◌≡◌, ◌-◌, ◌≤◌, length};
ghost use Rattle.rules.specs.ErrorFile.{is_error_file, error_code, code_of, error_text};
ghost use Rattle.error_file.specs.Head.{Digit, has_head, Headed};
ghost use Rattle.error_file.specs.Code.{code_in};

use rules::Cause;

mod utf8;

// '`E`, `1` or `0`, three digits, a space': six bytes stand before the text.
const HEAD_LENGTH: usize = 6;

// 'then 0 to 384 bytes'.
const MOST_TEXT: usize = 384;

// Whether the six bytes before the text are right: after the `E` the place of the error and its serial number (002, 6.2).
#[tactic(auto, unfolding(crate::specs::Head::has_head), using(crate::proofs::Head::three))]
fn has_head(file: &[u8]) -> bool
    requires { 6 ≤ length file.now }
    ensures { result ≡ has_head file.now }
{
    let place = (file[1] == b'0') | (file[1] == b'1');
    let serial = file[2].is_ascii_digit() & file[3].is_ascii_digit() & file[4].is_ascii_digit();
    (file[0] == b'E') & place & serial & (file[5] == b' ')
}

// Whether the file keeps its form. Its length comes first: no more than 384 bytes of text are looked at.
#[tactic(auto, unfolding(rules::specs::ErrorFile::is_error_file, crate::specs::Head::has_head), using(crate::proofs::File::checked))]
fn is_error_file(file: &[u8]) -> bool
    ensures { result ≡ is_error_file file.now }
{
    if file.len() < HEAD_LENGTH {
        return false;
    }
    if MOST_TEXT < file.len() - HEAD_LENGTH {
        return false;
    }
    has_head(file) & utf8::is_utf8(&file[HEAD_LENGTH..])
}

// The number that an ASCII digit stands for.
fn digit(x: u8) -> u16
    requires { Digit x }
    ensures { result ≡ x - 48 }
{
    (x - b'0') as u16
}

// The four digits after the `E` as a number.
#[tactic(auto, unfolding(crate::specs::Code::code_in), using(crate::proofs::Head::code_is))]
fn code_in(file: &[u8]) -> u16
    requires { Headed file.now }
    ensures { result ≡ code_in file.now }
{
    digit(file[1]) * 1000 + digit(file[2]) * 100 + digit(file[3]) * 10 + digit(file[4])
}

// The code of an error file, or cause 16 where the file breaks its form.
#[tactic(auto, unfolding(rules::specs::ErrorFile::error_code, crate::specs::Code::code_in), using(crate::proofs::File::headed))]
pub fn error_code(file: &[u8]) -> Result<u16, Cause>
    ensures { result ≡ code_of (error_code file.now) }
{
    if !is_error_file(file) {
        return Err(Cause::ErrorFile);
    }
    Ok(code_in(file))
}

// 'the message text is handed back as that part of the file'; the empty part where the file breaks its form.
#[tactic(auto, unfolding(rules::specs::ErrorFile::error_text), using(crate::proofs::File::headed))]
pub fn error_text(file: &[u8]) -> &[u8]
    ensures { result.now ≡ error_text file.now }
{
    if !is_error_file(file) {
        return &file[0..0];
    }
    &file[HEAD_LENGTH..]
}
