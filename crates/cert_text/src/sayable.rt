//! Which versions can say a certificate: 1 and 2 have no word for lenses that look at whole lines,
//! and a text of version 3 has such a lens.
ghost use Rattle.std.specs.Prelude.{◌≡◌};
ghost use Rattle.std.specs.List.{list_all};
ghost use Rattle.cert_text.specs.Limits.{is_plain_lens, is_plain_item, is_plain_proof, is_plain_shown, is_plain_certificate, version_for};

use crate::version::Version;
use roster_model::{Certificate, Item, Lens, Proof, Shown};

/// Whether none of the lenses looks at whole lines.
fn are_plain(lenses: &[Lens]) -> bool
    ensures plain { result ≡ list_all is_plain_lens lenses.now }
{
    lenses.iter().all(|lens| !lens.whole)
}

/// Whether no lens of the item does.
fn is_plain_item(item: &Item) -> bool
    ensures plain { result ≡ is_plain_item item.now }
{
    match item {
        Item::Split(_, _) | Item::Count(_) | Item::Fixed(_) => true,
        Item::NoLine(_, lens) => !lens.whole,
        Item::Weights(_, lenses) => are_plain(lenses.as_slice()),
    }
}

/// Whether no lens of the proof does.
pub fn is_plain_proof(proof: &Proof) -> bool
    ensures plain { result ≡ is_plain_proof proof.now }
{
    proof.as_slice().iter().all(|item| is_plain_item(item))
}

/// Whether no lens of what is shown does.
pub fn is_plain_shown(shown: &Shown) -> bool
    ensures plain { result ≡ is_plain_shown shown.now }
{
    match &shown.proof {
        Some(proof) => is_plain_proof(proof),
        None => true,
    }
}

/// Whether none of the proofs has such a lens.
pub fn are_plain_proofs(proofs: &[Proof]) -> bool
    ensures plain { result ≡ list_all is_plain_proof proofs.now }
{
    proofs.iter().all(|proof| is_plain_proof(proof))
}

/// Whether nothing that is shown has such a lens.
fn are_plain_shown(shown: &[Shown]) -> bool
    ensures plain { result ≡ list_all is_plain_shown shown.now }
{
    shown.iter().all(|part| is_plain_shown(part))
}

/// Whether no lens of the certificate looks at whole lines, so that versions 1 and 2 can say it.
pub fn is_plain_certificate(certificate: &Certificate) -> bool
    ensures plain { result ≡ is_plain_certificate certificate.now }
{
    match certificate {
        Certificate::Award(awarded) => {
            are_plain_proofs(awarded.proofs.as_slice()) && are_plain_shown(awarded.shown.as_slice())
        }
        Certificate::NoRoster(proof) => is_plain_proof(proof),
    }
}

/// The version in which a certificate is written: the second where it can say it, else the third.
pub fn version_for(certificate: &Certificate) -> Version
    ensures value { result ≡ version_for certificate.now }
{
    if is_plain_certificate(certificate) {
        Version::Two
    } else {
        Version::Three
    }
}
