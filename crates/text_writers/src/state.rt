//! Where lines begin, and how deep regions are printed.
ghost use Rattle.std.specs.Prelude.{◌≡◌};
ghost use Rattle.text_writers.specs.States.{fresh, indented, entered, elides_regions};

/// How many regions in one another are printed. Each that is deeper is printed as `{..}`.
#[derive(Clone, Copy, Debug, PartialEq, Eq)]
pub enum RegionPrintDepthLimit {
    /// As many as there are.
    Unlimited,
    /// This many.
    Max(u32),
}

/// Where lines begin, and how deep regions are printed.
#[derive(Clone, Copy, Debug)]
pub struct State {
    indent_width: u32,
    current_indent: u32,
    limit: RegionPrintDepthLimit,
}

impl State {
    /// A state at the start of a text: no indentation, two columns a step, and no limit of depth.
    pub fn new() -> State
        ensures { result ≡ fresh }
    {
        State {
            indent_width: 2,
            current_indent: 0,
            limit: RegionPrintDepthLimit::Unlimited,
        }
    }

    /// By how many columns a line is deeper after one step.
    pub fn indent_width(&self) -> u32
        ensures { result ≡ self.now.indent_width }
    {
        self.indent_width
    }

    /// Says by how many columns a line is deeper after one step.
    pub fn set_indent_width(&mut self, indent_width: u32)
        ensures { self.new ≡ record self.old { indent_width = indent_width } }
    {
        self.indent_width = indent_width;
    }

    /// At which column lines begin.
    pub fn current_indent(&self) -> u32
        ensures { result ≡ self.now.current_indent }
    {
        self.current_indent
    }

    /// How many more regions in one another are printed.
    pub fn current_region_print_depth_limit(&self) -> RegionPrintDepthLimit
        ensures { result ≡ self.now.limit }
    {
        self.limit
    }

    /// Says how many more regions in one another are printed.
    pub fn set_region_print_depth_limit(&mut self, limit: RegionPrintDepthLimit)
        ensures { self.new ≡ record self.old { limit = limit } }
    {
        self.limit = limit;
    }

    /// Whether a region is printed as `{..}`.
    pub fn elides_regions(&self) -> bool
        ensures { result ≡ elides_regions self.now }
    {
        self.limit == RegionPrintDepthLimit::Max(0)
    }

    /// Lends the state one step deeper. When the guard is given back, lines begin where they did.
    pub fn indent(&mut self) -> IndentGuard<'_>
        ensures same_reference { result.state.ghost_name ≡ self.entry.ghost_name }
        ensures deeper { result.state.now ≡ indented self.old }
        ensures entry { result.entry ≡ self.old.current_indent }
    {
        let entry = self.current_indent;
        self.current_indent = entry.saturating_add(self.indent_width);
        IndentGuard { state: self, entry }
    }

    /// Lends the state one region deeper. When the guard is given back, the limit is what it was.
    pub fn enter_region(&mut self) -> RegionDepthGuard<'_>
        ensures same_reference { result.state.ghost_name ≡ self.entry.ghost_name }
        ensures deeper { result.state.now ≡ entered self.old }
        ensures entry { result.entry ≡ self.old.limit }
    {
        let entry = self.limit;
        if let RegionPrintDepthLimit::Max(depth) = entry {
            self.limit = RegionPrintDepthLimit::Max(depth.saturating_sub(1));
        }
        RegionDepthGuard { state: self, entry }
    }
}

/// A state that is lent one step deeper.
pub struct IndentGuard<'a> {
    /// The state.
    pub state: &'a mut State,
    entry: u32,
}

impl Drop for IndentGuard<'_> {
    fn drop(self)
        ensures { self.exit.0.now ≡ record self.entry.state.now { current_indent = self.entry.entry } }
    {
        let IndentGuard { state, entry } = self;
        state.current_indent = entry;
    }
}

/// A state that is lent one region deeper.
pub struct RegionDepthGuard<'a> {
    /// The state.
    pub state: &'a mut State,
    entry: RegionPrintDepthLimit,
}

impl Drop for RegionDepthGuard<'_> {
    fn drop(self)
        ensures { self.exit.0.now ≡ record self.entry.state.now { limit = self.entry.entry } }
    {
        let RegionDepthGuard { state, entry } = self;
        state.limit = entry;
    }
}
