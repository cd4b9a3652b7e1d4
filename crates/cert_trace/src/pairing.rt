//! What stores are looked for by.
ghost use Rattle.std.specs.Prelude.{◌≡◌};

use cert_lines::Origin;
use link_sites::Site;
use lists::Key;

/// An object and one that it may be stored into, by their sites.
#[derive(Clone, Copy, Debug, PartialEq, Eq)]
pub struct Pairing {
    pub object: Site,
    pub base: Site,
}

impl Key for Pairing {
    ghost use Rattle.cert_lines.specs.Spread.{mix, site_spread};
    ghost use Rattle.cert_trace.specs.SamePairing.{same_pairing};

    ghost spread = { λ k. mix (site_spread k.object) (site_spread k.base) };

    fn spread(self) -> u64 {
        let object = Origin { site: self.object };
        let base = Origin { site: self.base };
        object
            .spread()
            .wrapping_mul(11_400_714_819_323_198_485)
            .wrapping_add(base.spread())
    }

    ghost same = { same_pairing };
}
