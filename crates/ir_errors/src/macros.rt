//! Errors by their sort: as values, and in `Err`.
//!
//! Each macro takes a location and a cause, or `in`, an allocator, a location and a format: the cause is then a `StringError`, and what it
//! answers is in a `Result` of its own, an `AllocError` where there was no memory for the text. Those that end in `noloc` are about something
//! of which no source is known, and take no location.

/// An error of a kind that is given.
///
///     create_error!(kind, loc, cause)
///     create_error!(in alloc; kind, loc, "{name} is twice here")?
#[macro_export]
macro_rules! create_error {
    (in $alloc:expr; $kind:expr, $loc:expr, $($format:tt)+) => {
        $crate::error_of_text($kind, $loc, format!(in $alloc; $($format)+))
    };
    ($kind:expr, $loc:expr, $cause:expr $(,)?) => {
        $crate::Error { kind: $kind, err: $cause, loc: $loc }
    };
}

/// `create_error!` in `Err`.
#[macro_export]
macro_rules! create_err {
    (in $alloc:expr; $($rest:tt)+) => {
        $crate::create_error!(in $alloc; $($rest)+).map($crate::Result::Err)
    };
    ($($rest:tt)+) => {
        $crate::Result::Err($crate::create_error!($($rest)+))
    };
}

/// A rule that doesn't hold, as an error.
#[macro_export]
macro_rules! verify_error {
    (in $alloc:expr; $($rest:tt)+) => {
        $crate::create_error!(in $alloc; $crate::ErrorKind::VerificationFailed, $($rest)+)
    };
    ($($rest:tt)+) => {
        $crate::create_error!($crate::ErrorKind::VerificationFailed, $($rest)+)
    };
}

/// `verify_error!` in `Err`.
#[macro_export]
macro_rules! verify_err {
    (in $alloc:expr; $($rest:tt)+) => {
        $crate::create_err!(in $alloc; $crate::ErrorKind::VerificationFailed, $($rest)+)
    };
    ($($rest:tt)+) => {
        $crate::create_err!($crate::ErrorKind::VerificationFailed, $($rest)+)
    };
}

/// `verify_error!` of what has no known source.
#[macro_export]
macro_rules! verify_error_noloc {
    (in $alloc:expr; $($rest:tt)+) => {
        $crate::verify_error!(in $alloc; $crate::Location::Unknown, $($rest)+)
    };
    ($($rest:tt)+) => {
        $crate::verify_error!($crate::Location::Unknown, $($rest)+)
    };
}

/// `verify_error_noloc!` in `Err`.
#[macro_export]
macro_rules! verify_err_noloc {
    (in $alloc:expr; $($rest:tt)+) => {
        $crate::verify_err!(in $alloc; $crate::Location::Unknown, $($rest)+)
    };
    ($($rest:tt)+) => {
        $crate::verify_err!($crate::Location::Unknown, $($rest)+)
    };
}

/// What came from outside and isn't what it has to be, as an error.
#[macro_export]
macro_rules! input_error {
    (in $alloc:expr; $($rest:tt)+) => {
        $crate::create_error!(in $alloc; $crate::ErrorKind::InvalidInput, $($rest)+)
    };
    ($($rest:tt)+) => {
        $crate::create_error!($crate::ErrorKind::InvalidInput, $($rest)+)
    };
}

/// `input_error!` in `Err`.
#[macro_export]
macro_rules! input_err {
    (in $alloc:expr; $($rest:tt)+) => {
        $crate::create_err!(in $alloc; $crate::ErrorKind::InvalidInput, $($rest)+)
    };
    ($($rest:tt)+) => {
        $crate::create_err!($crate::ErrorKind::InvalidInput, $($rest)+)
    };
}

/// `input_error!` of what has no known source.
#[macro_export]
macro_rules! input_error_noloc {
    (in $alloc:expr; $($rest:tt)+) => {
        $crate::input_error!(in $alloc; $crate::Location::Unknown, $($rest)+)
    };
    ($($rest:tt)+) => {
        $crate::input_error!($crate::Location::Unknown, $($rest)+)
    };
}

/// `input_error_noloc!` in `Err`.
#[macro_export]
macro_rules! input_err_noloc {
    (in $alloc:expr; $($rest:tt)+) => {
        $crate::input_err!(in $alloc; $crate::Location::Unknown, $($rest)+)
    };
    ($($rest:tt)+) => {
        $crate::input_err!($crate::Location::Unknown, $($rest)+)
    };
}

/// What a call can't take, as an error.
#[macro_export]
macro_rules! arg_error {
    (in $alloc:expr; $($rest:tt)+) => {
        $crate::create_error!(in $alloc; $crate::ErrorKind::InvalidArgument, $($rest)+)
    };
    ($($rest:tt)+) => {
        $crate::create_error!($crate::ErrorKind::InvalidArgument, $($rest)+)
    };
}

/// `arg_error!` in `Err`.
#[macro_export]
macro_rules! arg_err {
    (in $alloc:expr; $($rest:tt)+) => {
        $crate::create_err!(in $alloc; $crate::ErrorKind::InvalidArgument, $($rest)+)
    };
    ($($rest:tt)+) => {
        $crate::create_err!($crate::ErrorKind::InvalidArgument, $($rest)+)
    };
}

/// `arg_error!` of what has no known source.
#[macro_export]
macro_rules! arg_error_noloc {
    (in $alloc:expr; $($rest:tt)+) => {
        $crate::arg_error!(in $alloc; $crate::Location::Unknown, $($rest)+)
    };
    ($($rest:tt)+) => {
        $crate::arg_error!($crate::Location::Unknown, $($rest)+)
    };
}

/// `arg_error_noloc!` in `Err`.
#[macro_export]
macro_rules! arg_err_noloc {
    (in $alloc:expr; $($rest:tt)+) => {
        $crate::arg_err!(in $alloc; $crate::Location::Unknown, $($rest)+)
    };
    ($($rest:tt)+) => {
        $crate::arg_err!($crate::Location::Unknown, $($rest)+)
    };
}
