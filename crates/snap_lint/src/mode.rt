//! `Mode` and `Way`: whether a process is in a scan or an update, and within a call or outside, as
//! far as the lint's flow of control tells.
ghost use Rattle.std.specs.Prelude.{◌≡◌};
ghost use Rattle.snap_lint.specs.Flow.{is_unwritten, is_within, way_of};

/// The mode of a process: its operation, and whether it is within a call.
#[derive(Clone, Copy, PartialEq, Eq)]
pub enum Mode {
    /// A scan, outside its calls.
    Scan,
    /// A call within a scan.
    ScanCall,
    /// An update, outside its calls.
    Update,
    /// A call within an update, as its embedded scan.
    UpdateCall,
}

/// Where control goes: outside calls or within one, and to any line or only as far as the first
/// write of a word.
#[derive(Clone, Copy, PartialEq, Eq)]
pub enum Way {
    Outside,
    Within,
    Unwritten,
    UnwrittenWithin,
}

impl Way {
    /// Returns whether control is within a call.
    pub fn is_within(self) -> bool
        ensures { result ≡ is_within self }
    {
        match self {
            Way::Within | Way::UnwrittenWithin => true,
            Way::Outside | Way::Unwritten => false,
        }
    }

    /// Returns whether control goes no further than the first write of a word.
    pub fn is_unwritten(self) -> bool
        ensures { result ≡ is_unwritten self }
    {
        match self {
            Way::Unwritten | Way::UnwrittenWithin => true,
            Way::Outside | Way::Within => false,
        }
    }
}

impl Mode {
    /// Returns the way that control goes in this mode.
    pub fn way(self) -> Way
        ensures { result ≡ way_of self }
    {
        match self {
            Mode::Scan | Mode::Update => Way::Outside,
            Mode::ScanCall | Mode::UpdateCall => Way::Within,
        }
    }
}
