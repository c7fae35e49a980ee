//! Tests of identifiers and names. What a test looks at comes as an argument, so that proofs compute nothing of it.
use crate::asserting::same;
use ir_names::{
    AttrName, DialectName, Dialects, GrowError, Identifier, IdentifierError, InvalidIdentifier,
    Legaliser, OpId, OpName, Place, TypeHandle, TypeName,
};
use ir_scripts::tiny::{Tiny, TinyAttr};
use std::alloc::{AllocError, Global};
use std::process::Abort;
use std::test::Fail;

/// Asserts that a text is what a name is, is shown as, and what its copy is.
fn assert_name(
    rt: &impl Abort,
    alloc: Global,
    name: &Identifier,
    text: &str,
) -> Result<(), AllocError> {
    same(rt, name.as_str(), text);
    same(rt, format!(in alloc; "{name}")?.as_str(), text);
    same(rt, name.try_clone()?.as_str(), text);
    Ok(())
}

/// Asserts that a text is an identifier.
fn assert_valid(rt: &impl Abort, alloc: Global, text: &str) -> Result<(), Fail> {
    assert!(rt; Identifier::is_valid(text), "{text}");
    let name = Identifier::try_new(alloc, text)?;
    assert_name(rt, alloc, &name, text)?;
    let chars: Vec<char> = text.chars().collect(alloc)?;
    let name = Identifier::from_chars(alloc, &chars)?;
    assert_name(rt, alloc, &name, text)?;
    Ok(())
}

/// Asserts that a text is no identifier.
fn assert_invalid(rt: &impl Abort, alloc: Global, text: &str) -> Result<(), Fail> {
    assert!(rt; !Identifier::is_valid(text), "{text}");
    let made = Identifier::try_new(alloc, text);
    same(rt, made, Err(IdentifierError::Invalid(InvalidIdentifier)));
    let chars: Vec<char> = text.chars().collect(alloc)?;
    let made = Identifier::from_chars(alloc, &chars);
    same(rt, made, Err(IdentifierError::Invalid(InvalidIdentifier)));
    Ok(())
}

#[test]
fn tells_identifiers(rt: HostRuntime) -> Result<(), Fail> {
    for text in ["_", "a1", "Z", "a_B_9"] {
        assert_valid(&rt, rt.alloc(), text)?;
    }
    for text in ["", "a-b", "1a", "é", "a ", "-"] {
        assert_invalid(&rt, rt.alloc(), text)?;
    }
    Ok(())
}

/// Asserts how a place is shown.
fn assert_place(
    rt: &impl Abort,
    alloc: Global,
    children: &[usize],
    text: &str,
) -> Result<(), AllocError> {
    let place = Place {
        children: children.to_vec(alloc)?,
    };
    same(rt, format!(in alloc; "{place}")?.as_str(), text);
    Ok(())
}

#[test]
fn shows_places(rt: HostRuntime) -> Result<(), Fail> {
    assert_place(&rt, rt.alloc(), &[], "root")?;
    assert_place(&rt, rt.alloc(), &[0, 12, 3], "0.12.3")?;
    Ok(())
}

/// Asserts that a copy of an attribute is the attribute, and says its type.
fn assert_copied(
    rt: &impl Abort,
    alloc: Global,
    attr: &TinyAttr,
    ty: Option<TypeHandle>,
) -> Result<(), AllocError> {
    let copy = Tiny::clone_attr(alloc, attr)?;
    same(rt, &copy, attr);
    same(rt, Tiny::attr_type(&copy), ty);
    Ok(())
}

#[test]
fn clones_attributes(rt: HostRuntime) -> Result<(), Fail> {
    let ty = TypeHandle::new(2);
    same(&rt, ty.number(), 2);
    assert_copied(&rt, rt.alloc(), &TinyAttr::Type(ty), Some(ty))?;
    assert_copied(&rt, rt.alloc(), &TinyAttr::Number(2), None)?;
    same(&rt, GrowError::from(AllocError), GrowError::Memory);
    Ok(())
}

/// Asserts what name a source gets.
fn assert_legalised(
    rt: &impl Abort,
    legaliser: &mut Legaliser,
    source: &str,
    name: &str,
) -> Result<(), GrowError> {
    same(rt, legaliser.legalise(source)?.as_str(), name);
    Ok(())
}

/// Asserts which source got a name.
fn assert_source(
    rt: &impl Abort,
    alloc: Global,
    legaliser: &Legaliser,
    name: &str,
    source: Option<&str>,
) -> Result<(), IdentifierError> {
    let name = Identifier::try_new(alloc, name)?;
    same(rt, legaliser.source_name(&name), source);
    Ok(())
}

/// The test of the same name, with a new legaliser.
fn legalises_sources_in(
    rt: &impl Abort,
    alloc: Global,
    legaliser: &mut Legaliser,
) -> Result<(), Fail> {
    let rows = [
        ("hello_", "hello_"),
        ("hello.", "hello__0"),
        ("hello__0", "hello__0_1"),
        ("", "_"),
        ("_", "__2"),
        ("hello.", "hello__0"),
        ("7é", "_7_"),
    ];
    for (source, name) in rows {
        assert_legalised(rt, legaliser, source, name)?;
    }
    for (source, name) in rows {
        assert_source(rt, alloc, legaliser, name, Some(source))?;
    }
    assert_source(rt, alloc, legaliser, "hello", None)?;
    Ok(())
}

#[test]
fn legalises_sources(rt: HostRuntime) -> Result<(), Fail> {
    let mut legaliser = Legaliser::new(rt.alloc());
    legalises_sources_in(&rt, rt.alloc(), &mut legaliser)
}

/// A legaliser that has one number left.
fn last_number(alloc: Global) -> Legaliser {
    Legaliser::counting_from(alloc, u64::MAX - 1)
}

/// Asserts what name a source gets, or that it gets none since the counter is full.
fn assert_counted(rt: &impl Abort, legaliser: &mut Legaliser, source: &str, name: Option<&str>) {
    match (legaliser.legalise(source), name) {
        (Ok(found), Some(name)) => same(rt, found.as_str(), name),
        (found, _) => same(rt, found, Err(GrowError::CounterFull)),
    }
}

#[test]
fn refuses_a_full_counter(rt: HostRuntime) -> Result<(), Fail> {
    let mut legaliser = last_number(rt.alloc());
    let numbered = "a__18446744073709551614";
    for (source, name) in [
        ("a_", Some("a_")),
        ("a.", Some(numbered)),
        ("a-", None),
        ("a.", Some(numbered)),
        ("b", Some("b")),
    ] {
        assert_counted(&rt, &mut legaliser, source, name);
    }
    Ok(())
}

/// Asserts that a name with `1` and another name behind it is this.
fn assert_joined(
    rt: &impl Abort,
    first: Identifier,
    second: &Identifier,
    expected: &str,
) -> Result<(), IdentifierError> {
    let joined = ((first + "1")? + second)?;
    same(rt, joined.as_str(), expected);
    let same = Identifier::try_from_string(joined.into_string());
    assert!(rt; same.is_ok());
    Ok(())
}

/// Asserts what a text is when it is cleaned.
fn assert_cleaned(
    rt: &impl Abort,
    alloc: Global,
    text: &str,
    name: &str,
) -> Result<(), AllocError> {
    same(rt, Identifier::clean(alloc, text)?.as_str(), name);
    Ok(())
}

/// Asserts that a text isn't taken as an identifier.
fn assert_not_taken(rt: &impl Abort, alloc: Global, text: &str) -> Result<(), AllocError> {
    let text = String::from_str(alloc, text)?;
    same(
        rt,
        Identifier::try_from_string(text),
        Err(InvalidIdentifier),
    );
    Ok(())
}

#[test]
fn joins_identifiers(rt: HostRuntime) -> Result<(), Fail> {
    let alloc = rt.alloc();
    assert_cleaned(&rt, alloc, "9-é", "_9__")?;
    let first = Identifier::try_new(alloc, "a_")?;
    let second = Identifier::try_new(alloc, "_9__")?;
    assert_joined(&rt, first, &second, "a_1_9__")?;
    assert_not_taken(&rt, alloc, "1")?;
    Ok(())
}

/// Asserts how the id of an operation is shown.
fn assert_id(rt: &impl Abort, alloc: Global, id: OpId, text: &str) -> Result<(), AllocError> {
    same(rt, format!(in alloc; "{id}")?.as_str(), text);
    Ok(())
}

#[test]
fn shows_ids(rt: HostRuntime) -> Result<(), Fail> {
    same(&rt, OpName::try_new("1"), Err(InvalidIdentifier));
    let id = OpId {
        dialect: DialectName::try_new("tiny")?,
        name: OpName::try_new("define")?,
    };
    assert_id(&rt, rt.alloc(), id, "tiny.define")?;
    Ok(())
}

/// Asserts that a name is a text.
fn assert_text(rt: &impl Abort, name: &Identifier, text: &str) {
    same(rt, name.as_str(), text);
}

#[test]
fn names_are_identifiers(rt: HostRuntime) -> Result<(), Fail> {
    let alloc = rt.alloc();
    assert_text(&rt, &Identifier::new(alloc, "a1")?, "a1");
    assert_text(
        &rt,
        &DialectName::try_new("tiny")?.to_identifier(alloc)?,
        "tiny",
    );
    assert_text(
        &rt,
        &OpName::try_new("define")?.to_identifier(alloc)?,
        "define",
    );
    assert_text(
        &rt,
        &AttrName::try_new("value")?.to_identifier(alloc)?,
        "value",
    );
    assert_text(
        &rt,
        &TypeName::try_new("integer")?.to_identifier(alloc)?,
        "integer",
    );
    Ok(())
}
