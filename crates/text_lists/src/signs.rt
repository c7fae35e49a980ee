//! Signs between the members of a list.
ghost use Rattle.std.specs.Prelude.{◌≡◌, ◌∷◌, [], true, false, Some};
ghost use Rattle.text_streams.specs.Streams.{Reads};
ghost use Rattle.text_lists.specs.Signs.{sign_of, ReadsSign, IsWithout, GoesOn, Stops};

use text_streams::StateStream;
use text_writers::ListSeparator;

/// The sign of a separator. The end of a line is white space, and no sign.
pub fn sign_of(separator: ListSeparator) -> Option<char>
    ensures { result ≡ sign_of separator }
{
    match separator {
        ListSeparator::None | ListSeparator::Newline => None,
        ListSeparator::CharNewline(sign)
        | ListSeparator::Char(sign)
        | ListSeparator::CharSpace(sign) => Some(sign),
    }
}

/// Goes behind a sign, where it is there; and whether it is.
pub fn take_character<S>(stream: &mut StateStream<'_, S>, sign: char) -> bool
    ensures there { result ≡ true → Reads stream.old stream.new (sign ∷ []) }
    ensures without { result ≡ false → (stream.new ≡ stream.old) × IsWithout (Some sign) stream.old }
{
    match stream.position.next() {
        Some((character, next)) if character == sign => {
            stream.position = next;
            true
        }
        _ => false,
    }
}

/// Goes behind a sign and the white space behind that, where the sign is there; and whether it is.
pub fn take_sign<S>(stream: &mut StateStream<'_, S>, sign: char) -> bool
    ensures there { result ≡ true → ReadsSign sign stream.old stream.new }
    ensures without { result ≡ false → (stream.new ≡ stream.old) × IsWithout (Some sign) stream.old }
{
    let is_there = take_character(stream, sign);
    if is_there {
        stream.position = stream.position.skip_spaces();
    }
    is_there
}

/// Goes behind white space and the sign between members; and whether a member follows.
pub fn goes_on<S>(stream: &mut StateStream<'_, S>, sign: Option<char>) -> bool
    ensures on { result ≡ true → GoesOn sign stream.old stream.new }
    ensures stops { result ≡ false → Stops sign stream.old stream.new }
{
    stream.position = stream.position.skip_spaces();
    match sign {
        Some(sign) => take_sign(stream, sign),
        None => true,
    }
}
