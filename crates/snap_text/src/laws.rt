//! The laws of the layout of tokens, proved: lines that are laid out,
//! with comments or without, are read as the same tokens and comments.
ghost use Rattle.snap_text.specs.Laws.{ReadsCommented, ReadsLaidOut};

/// A text that lays out tokens in lines is read as these tokens, line by line.
pub fn what_is_laid_out_is_read()
    ensures { ReadsLaidOut }
{}

/// A text that lays out tokens in lines with comments is read as these tokens, line by line, and
/// with these comments.
pub fn what_is_commented_is_read()
    ensures { ReadsCommented }
{}
