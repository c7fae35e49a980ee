//! Errors by their macros.
use ir_errors::{
    Error, ErrorKind, Result, StringError, arg_err, arg_err_noloc, arg_error, arg_error_noloc,
    create_err, create_error, input_err, input_err_noloc, input_error, input_error_noloc,
    verify_err, verify_err_noloc, verify_error, verify_error_noloc,
};
use ir_locations::{Location, Source};
use ir_names::{Dialects, TypeHandle};
use std::alloc::{AllocError, Global};
use std::test::Fail;

/// A dialect whose attributes are numbers.
#[derive(Debug, Drop)]
struct Numbers;

impl Dialects for Numbers {
    type OpKind = u8;

    type Attr = u8;

    type TypeKey = u8;

    fn clone_attr(_alloc: Global, attr: &u8) -> std::result::Result<u8, AllocError> {
        Ok(*attr)
    }

    fn attr_type(_attr: &u8) -> Option<TypeHandle> {
        None
    }
}

/// The first line of a text.
fn first_line() -> Location<u8> {
    Location::SrcPos {
        source: Source::InMemory,
        line: 1,
        column: 1,
    }
}

/// A number below ten, or an error about the first line.
fn below_ten(number: u8) -> Result<u8, Numbers, u8> {
    if number < 10 {
        Ok(number)
    } else {
        input_err!(first_line(), number)
    }
}

#[test]
fn macros_make_errors_of_their_kind(rt: HostRuntime) -> std::result::Result<(), Fail> {
    let verified: Error<Numbers, u8> = verify_error!(first_line(), 1);
    assert_eq!(rt; verified.kind, ErrorKind::VerificationFailed);
    assert_eq!(rt; verified.loc(), &first_line());
    assert_eq!(rt; verified.err, 1);
    let input: Error<Numbers, u8> = input_error_noloc!(2);
    assert_eq!(rt; input.kind, ErrorKind::InvalidInput);
    assert!(rt; input.loc().is_unknown());
    let argument: Error<Numbers, u8> = arg_error!(first_line(), 3);
    assert_eq!(rt; argument.kind, ErrorKind::InvalidArgument);
    let created: Error<Numbers, u8> = create_error!(ErrorKind::InvalidInput, Location::Unknown, 4);
    assert_eq!(rt; created.kind, ErrorKind::InvalidInput);
    Ok(())
}

#[test]
fn formats_are_causes(rt: HostRuntime) -> std::result::Result<(), Fail> {
    let number = 12;
    let error: Error<Numbers, StringError> =
        arg_error_noloc!(in rt.alloc(); "{number} isn't below ten")?;
    let text = error.to_string(rt.alloc())?;
    assert_eq!(rt; text.as_str(), "invalid argument: 12 isn't below ten");
    let refused: Result<u8, Numbers, StringError> =
        verify_err!(in rt.alloc(); first_line(), "{number} is twice here")?;
    assert!(rt; refused.is_err());
    let created: Result<u8, Numbers, StringError> =
        create_err!(in rt.alloc(); ErrorKind::InvalidInput, first_line(), "no")?;
    assert!(rt; created.is_err());
    Ok(())
}

#[test]
fn forms_in_err_are_refusals(rt: HostRuntime) -> std::result::Result<(), Fail> {
    assert!(rt; below_ten(9).is_ok());
    match below_ten(10) {
        Ok(_) => assert!(rt; false),
        Err(mut error) => {
            assert_eq!(rt; error.err, 10);
            error.set_loc(Location::Unknown);
            assert!(rt; error.loc().is_unknown());
        }
    }
    let verified: Result<u8, Numbers, u8> = verify_err_noloc!(1);
    let input: Result<u8, Numbers, u8> = input_err_noloc!(1);
    let argument: Result<u8, Numbers, u8> = arg_err_noloc!(1);
    let place: Result<u8, Numbers, u8> = arg_err!(first_line(), 1);
    assert!(rt; verified.is_err() && input.is_err() && argument.is_err() && place.is_err());
    let failed: Error<Numbers, u8> = verify_error_noloc!(1);
    let bad: Error<Numbers, u8> = input_error!(first_line(), 1);
    assert!(rt; failed.loc().is_unknown() && !bad.loc().is_unknown());
    Ok(())
}
