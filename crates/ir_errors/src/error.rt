//! What went wrong, where, and why.
ghost use Rattle.std.specs.Prelude.{◌≡◌, IfOk, OnErr, IsErr};

use ir_locations::Location;
use ir_names::Dialects;
use std::alloc::AllocError;
use std::fmt;
use thiserror::Error as ErrorMessage;

/// What sort of thing went wrong.
#[derive(Clone, Copy, Debug, PartialEq, Eq, Hash, ErrorMessage)]
pub enum ErrorKind {
    /// What came from outside, as a text, isn't what it has to be.
    #[error("invalid input")]
    InvalidInput,
    /// A rule doesn't hold.
    #[error("verification failed")]
    VerificationFailed,
    /// A call was given what it can't take.
    #[error("invalid argument")]
    InvalidArgument,
}

/// What went wrong, of which sort it is, and where that comes from.
#[derive(Drop)]
#[derive_where(Debug; C, D::Attr)]
pub struct Error<D: Dialects, C> {
    /// Of which sort it is.
    pub kind: ErrorKind,
    /// What went wrong.
    pub err: C,
    /// Where what it is about comes from.
    pub loc: Location<D::Attr>,
}

/// A value, or what went wrong.
pub type Result<T, D, C> = std::result::Result<T, Error<D, C>>;

impl<D: Dialects, C> Error<D, C> {
    /// Where what it is about comes from.
    pub fn loc(&self) -> &Location<D::Attr>
        ensures { result.now ≡ self.now.loc }
    {
        &self.loc
    }

    /// Says where what it is about comes from.
    pub fn set_loc(&mut self, loc: Location<D::Attr>)
        ensures { self.new ≡ record self.old { loc = loc } }
    {
        self.loc = loc;
    }
}

impl<D: Dialects, C: fmt::Display> fmt::Display for Error<D, C> {
    fn fmt<W: fmt::Write>(&self, f: &mut fmt::Formatter<W>) -> fmt::Result {
        let kind = self.kind;
        let err = &self.err;
        write!(f, "{kind}: {err}")
    }
}

impl<D: Dialects, C: fmt::Display + fmt::Debug + Drop> std::error::Error for Error<D, C>
where
    D::Attr: fmt::Debug,
{}

/// What went wrong, as a text.
#[derive(Debug, PartialEq, Eq, Hash, Drop, ErrorMessage)]
#[error("{0}")]
pub struct StringError(pub String);

/// An error whose cause is a text, where there was memory for it.
pub fn error_of_text<D: Dialects>(
    kind: ErrorKind,
    loc: Location<D::Attr>,
    text: std::result::Result<String, AllocError>,
) -> std::result::Result<Error<D, StringError>, AllocError>
    ensures value { IfOk text (λ it. result ≡ Ok (record { kind = kind; err = record { 0 = it }; loc = loc })) }
    ensures refused { OnErr text (IsErr result) }
{
    let err = StringError(text?);
    Ok(Error { kind, err, loc })
}
