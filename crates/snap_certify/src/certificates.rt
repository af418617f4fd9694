//! Laws of certificates: a run that has one is linearizable.
ghost use Rattle.snap_certify.specs.Certification.{CertifiedExactly};
ghost use Rattle.snap_certify.specs.Certification.{CertifiedHasCertificate, PointsCertify};
ghost use Rattle.snap_certify.specs.Certificate.{CertifiedByPoints, CertifiedHasPlaces};
ghost use Rattle.snap_certify.specs.Certificate.{CertifiedIsLinearizable};

/// What a certified run is certified by is a certificate of that run: a certified run is
/// linearizable.
pub fn certified_has_certificate()
    ensures { CertifiedHasCertificate }
{
    certified_is_linearizable();
}

/// A run is certified exactly if it has a certificate in which updates write at the line that is
/// chosen.
pub fn certified_exactly()
    ensures { CertifiedExactly }
{
    certified_by_points();
}

/// A run whose operations have linearization points is certified, where its updates write at the
/// first line that writes a word, which is the line that is chosen.
#[tactic(auto, using(crate::proofs::Chosen::points_certify))]
pub fn points_certify()
    ensures { PointsCertify }
{}

/// A run that has a certificate is linearizable.
pub fn certified_is_linearizable()
    ensures { CertifiedIsLinearizable }
{
    snap_runs::linearizable_by_points();
}

/// In a run that has a certificate each operation has its place.
pub fn certified_has_places()
    ensures { CertifiedHasPlaces }
{
    snap_runs::placed_by_points();
}

/// A run has a certificate exactly if its operations have linearization points: a run of a listing
/// of one's own can be certified item by item.
pub fn certified_by_points()
    ensures { CertifiedByPoints }
{}
