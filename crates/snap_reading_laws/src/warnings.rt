//! The listings that come with the program are silent: the lint warns of nothing in them.
ghost use Rattle.snap_reading_laws.specs.warnings.Silent.{BIsSilent, MIsSilent, UIsSilent};

/// Nothing is warned of in listing U.
pub fn u_is_silent()
    ensures { UIsSilent }
{}

/// Nothing is warned of in listing B.
pub fn b_is_silent()
    ensures { BIsSilent }
{}

/// Nothing is warned of in listing M.
pub fn m_is_silent()
    ensures { MIsSilent }
{}
