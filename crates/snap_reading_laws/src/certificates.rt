//! Every run of the listings that come with the program is certified.
ghost use Rattle.snap_words.specs.declared.kind.KindTag.{KindTag};
ghost use Rattle.snap_reading_laws.specs.certificates.Shipped.{RunsAreCertified};

/// Every run of U, B and M is certified, by the line at which the updates of its listing write; of
/// U as long as its sequence numbers suffice.
pub fn shipped_runs_are_certified()
    ensures { (g : KindTag) → RunsAreCertified g }
{
    snap_shipped::shipped_runs_keep_promises();
    snap_certify::points_certify();
}
