//! Lines of a bare text.
ghost use Rattle.std.specs.Prelude.{◌≡◌, ◌++◌};

/// Whether a block's header or the end of an operation is on a line: on each, but where a region begins.
///
/// Behind what stands before the region of an operation is a space, and its `{` has a line of its own.
pub fn has_item(line: &str) -> bool {
    !line.is_empty() && !line.ends_with(' ') && !line.ends_with('{')
}

/// A line up to the place of a mark, and what is behind that: a `;` behind an operation, a `:` behind a block's header.
pub fn split_end(line: &str) -> (&str, &'static str)
    ensures { line.now ≡ result.0.now ++ result.1.now }
{
    if let Some(body) = line.strip_suffix(';') {
        return (body, ";");
    }
    if let Some(body) = line.strip_suffix(':') {
        return (body, ":");
    }
    (line, "")
}

/// The part of a line that has what its item defines: a block's whole header, an operation's text up to its `=`.
pub fn definitions_of(body: &str) -> &str {
    if body.trim_start().starts_with('^') {
        return body;
    }
    match body.split_once(" = ") {
        Some((results, _)) => results,
        None => "",
    }
}
