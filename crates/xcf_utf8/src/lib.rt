// Well-formed UTF-8.
#![tactic(auto)]

ghost use Rattle.std.specs.Prelude.{◌≡◌};
ghost use Rattle.xcf_utf8.specs.Utf8.{well_formed};

// Whether a name is well-formed.
#[tactic(auto, using(crate::proofs::Scalars::utf8_well_formed, crate::proofs::Scalars::not_utf8), unfolding(crate::specs::Utf8::begun, crate::specs::Utf8::well_formed_from))]
pub fn well_formed(name: &[u8]) -> bool
    ensures { result ≡ well_formed name.now }
{
    str::from_utf8(name).is_ok()
}
