//! What pass managers are told, and what they count.
ghost use Rattle.std.specs.Prelude.{◌≡◌, ◌+◌, ◌<◌, ◌^◌, [], false};
ghost use Rattle.pass_analyses.specs.Settings.{is_named, is_skipped, is_verified_before, is_verified_after, count_of, counted};

use std::alloc::Global;

/// Which passes are skipped, and before and after which the operation is verified.
#[derive(Drop)]
pub struct PMConfig {
    /// The names of the passes that are skipped.
    pub skip_passes: Vec<String>,
    /// The names of the passes before which the operation is verified.
    pub verify_before: Vec<String>,
    /// The names of the passes after which the operation is verified.
    pub verify_after: Vec<String>,
    /// Whether it is verified before each pass.
    pub verify_before_all: bool,
    /// Whether it is verified after each pass.
    pub verify_after_all: bool,
}

impl PMConfig {
    /// No pass is skipped, and nothing is verified.
    pub fn new(alloc: Global) -> PMConfig
        ensures skip { result.skip_passes.items ≡ [] }
        ensures before { result.verify_before.items ≡ [] }
        ensures after { result.verify_after.items ≡ [] }
        ensures before_all { result.verify_before_all ≡ false }
        ensures after_all { result.verify_after_all ≡ false }
    {
        PMConfig {
            skip_passes: Vec::new(alloc),
            verify_before: Vec::new(alloc),
            verify_after: Vec::new(alloc),
            verify_before_all: false,
            verify_after_all: false,
        }
    }
}

/// How many passes were run.
#[derive(Default, Drop)]
pub struct PMState {
    /// How many passes were run that are no managers.
    pub pass_run_count: u64,
}

/// What all pass managers share.
#[derive(Drop)]
pub struct PMData {
    config: PMConfig,
    state: PMState,
}

impl PMData {
    /// No pass is skipped, nothing is verified, and no pass was run.
    pub fn new(alloc: Global) -> PMData
        ensures skip { result.config.skip_passes.items ≡ [] }
        ensures before { result.config.verify_before.items ≡ [] }
        ensures after { result.config.verify_after.items ≡ [] }
        ensures before_all { result.config.verify_before_all ≡ false }
        ensures after_all { result.config.verify_after_all ≡ false }
        ensures count { count_of result ≡ 0 }
    {
        PMData {
            config: PMConfig::new(alloc),
            state: PMState::default(),
        }
    }

    /// Which passes are skipped, and where the operation is verified.
    pub fn config(&self) -> &PMConfig
        ensures { result.now ≡ self.now.config }
    {
        &self.config
    }

    /// Whether a pass of this name is skipped.
    pub fn skips(&self, name: &str) -> bool
        ensures { result ≡ is_skipped self.now name.now }
    {
        is_among(self.config.skip_passes.as_slice(), name)
    }

    /// Whether the operation is verified before a pass of this name.
    pub fn verifies_before(&self, name: &str) -> bool
        ensures { result ≡ is_verified_before self.now name.now }
    {
        self.config.verify_before_all || is_among(self.config.verify_before.as_slice(), name)
    }

    /// Whether the operation is verified after a pass of this name.
    pub fn verifies_after(&self, name: &str) -> bool
        ensures { result ≡ is_verified_after self.now name.now }
    {
        self.config.verify_after_all || is_among(self.config.verify_after.as_slice(), name)
    }

    /// How many passes were run.
    pub fn count(&self) -> u64
        ensures { result ≡ count_of self.now }
    {
        self.state.pass_run_count
    }

    /// Counts a pass.
    pub fn add_run(&mut self)
        requires { count_of self.old + 1 < 2 ^ 64 }
        ensures { self.new ≡ counted self.old }
    {
        self.state.pass_run_count += 1;
    }

    /// Takes other settings.
    pub fn set_config(&mut self, config: PMConfig)
        ensures { self.new ≡ record self.old { config = config } }
    {
        self.config = config;
    }

    /// What was counted.
    pub fn state(&self) -> &PMState
        ensures { result.now ≡ self.now.state }
    {
        &self.state
    }

    /// The same, to be changed.
    pub fn state_mut(&mut self) -> &mut PMState
        ensures { result.now ≡ self.old.state }
    {
        &mut self.state
    }
}

/// Whether a name is in the list.
fn is_among(names: &[String], name: &str) -> bool
    ensures { result ≡ is_named names.now name.now }
{
    names.iter().any(|listed| listed.as_str() == name)
}
