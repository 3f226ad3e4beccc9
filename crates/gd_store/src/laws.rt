//! What holds of every image. Each function has an empty body, and its contract is a law.

ghost use Rattle.gd_store.specs.AtRest.{AlteredAlone, AlteredAtRest, AlteredIsBad, Cancelled};

/// Bytes of an image that has a payload in both copies are altered at rest. Where the image isn't forged, the payload is
/// booted, or both copies are altered and none is sound. Where neither copy is altered, the whole image is as it was. A
/// sound copy that is altered isn't sound any more, unless it is forged: altered behind its gate, and sound with its gate
/// open. A copy that isn't altered is byte for byte as it was, whatever is altered of the other.
pub fn altered_at_rest()
    ensures boots { AlteredAtRest }
    ensures cancelled { Cancelled }
    ensures bad { AlteredIsBad }
    ensures alone { AlteredAlone }
{}
