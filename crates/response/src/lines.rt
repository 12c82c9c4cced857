// Lines of a response: whether it begins with other bytes, and what follows them; its first line.
ghost use Rattle.std.specs.Prelude.{◌≡◌};
ghost use Rattle.rules.specs.Response.{begins, strip, line_of};
ghost use Rattle.response.specs.Lent.{lent, both_lent};

// 'Lines end in bytes 0D 0A'.
pub(crate) const LINE_END: [u8; 2] = *b"\r\n";

// Whether `s` begins with `p`.
pub(crate) fn begins(s: &[u8], p: &[u8]) -> bool
    ensures { result ≡ begins p.now s.now }
{
    s.starts_with(p)
}

// What follows `p` where `s` begins with it.
pub(crate) fn strip<'a>(s: &'a [u8], p: &[u8]) -> Option<&'a [u8]>
    ensures { lent result ≡ strip p.now s.now }
{
    s.strip_prefix(p)
}

// The first line, and what follows its end.
pub(crate) fn split_line(s: &[u8]) -> Option<(&[u8], &[u8])>
    ensures { both_lent result ≡ line_of s.now }
{
    let end = (0..s.len().saturating_sub(1)).find(|&i| (s[i] == b'\r') & (s[i + 1] == b'\n'))?;
    Some((&s[..end], &s[end + LINE_END.len()..]))
}
