//! The laws that a line with a form of its sort is not lost, that no such line begins with the
//! tokens up to where another is lost, and that a line is refused for the token that is found.
ghost use Rattle.snap_reading_laws.specs.Laws.{NotLostWithForm, NoneGoesOn};
ghost use Rattle.snap_reading_laws.specs.RefusedForToken.{RefusedForToken};

/// A line that has a form of its sort is not lost: a header line, a shape, an item, a line of
/// scripts or a command.
pub fn lines_with_forms_are_not_lost()
    ensures { NotLostWithForm }
{}

/// No line has a form of its sort that begins with the tokens up to one at which a line is lost.
pub fn no_line_goes_on_where_one_is_lost()
    ensures { NoneGoesOn }
{}

/// A line is refused for what the token that is found stands for, and for nothing before it.
pub fn a_line_is_refused_for_the_token_found()
    ensures { RefusedForToken }
{}
