//! Scripts as tests.
use ir_scripts::play;
use std::alloc::Global;
use std::process::Abort;
use std::test::Fail;

/// A script, and what it shows.
pub struct Script {
    pub shows: &'static str,
    pub lines: &'static str,
}

/// Asserts that each line of a script is answered as it says.
pub fn plays(rt: &impl Abort, alloc: Global, shows: &str, lines: &str) -> Result<(), Fail> {
    let wrong = play(alloc, lines)?;
    assert_eq!(rt; wrong, None, "{shows}");
    Ok(())
}

/// Asserts it of each script.
pub fn play_all(rt: &impl Abort, alloc: Global, scripts: &[Script]) -> Result<(), Fail> {
    for script in scripts {
        plays(rt, alloc, script.shows, script.lines)?;
    }
    Ok(())
}
