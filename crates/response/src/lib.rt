// Whole responses from the modem (02, §1): the name and the file that a response's bytes carry, as parts of these bytes. Nothing of the file
// is looked at.
#![tactic(auto)]

mod edges;
mod fields;
mod headers;
mod lines;

ghost use Rattle.std.specs.Prelude.{◌≡◌};
ghost use Rattle.rules.specs.Response.{parse_response, name_and_file, headers_next, headers_in};
ghost use Rattle.response.specs.Lent.{carried};

// The name and the file.
#[derive(Clone, Copy)]
pub struct Carried<'a> {
    pub name: &'a [u8],
    pub file: &'a [u8],
}

// What a response carries after its first line. The file's end goes by its length: the closing boundary is not searched for.
fn carried_in<'a>(boundary: &[u8], s: &'a [u8]) -> Option<Carried<'a>>
    ensures { carried result ≡ name_and_file (headers_next boundary.now (headers_in s.now)) }
{
    let found = headers::read(s)?;
    let n = fields::size_in(found.size)?;
    let name = fields::name_in(found.name, &fields::FILE_NAME)?;
    let rest = found.rest;
    if rest.len() < n {
        return None;
    }
    if !edges::closed(&rest[n..], boundary) {
        return None;
    }
    let file = &rest[..n];
    Some(Carried { name, file })
}

// The name and the file of a response between that boundary; none where its bytes break the form (cause 17).
pub fn find<'a>(boundary: &[u8], s: &'a [u8]) -> Option<Carried<'a>>
    ensures { carried result ≡ parse_response boundary.now s.now }
{
    if !edges::lawful_boundary(boundary) {
        return None;
    }
    let headers = edges::opened(s, boundary)?;
    carried_in(boundary, headers)
}
