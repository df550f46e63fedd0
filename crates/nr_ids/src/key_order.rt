//! Hashes are ordered as their bytes are, and public keys as the bytes that spell them.

ghost use Rattle.std.specs.Prelude.{◌==◌};
ghost use Rattle.std.proofs.Common.{rules};
ghost use Rattle.std.specs.Cmp.{partial_order_from_own_ties};
ghost use Rattle.std.specs.Cmp.Rules.{comparing};
ghost use Rattle.std.specs.Cmp.Lexicographic.{slice_cmp, pointwise};
ghost use Rattle.std.specs.Ordering.{nat_cmp, as_partial_cmp, on};
ghost use Rattle.nr_ids.specs.Keys.{hash_bytes, key_bytes};

use crate::key::{Hash32, PublicKey};
use std::cmp::Ordering;

impl PartialEq for Hash32 {
    ghost eq = { on hash_bytes (pointwise ◌==◌) };

    ghost laws = { Prim.search (comparing, rules) };

    fn eq(&self, other: &Hash32) -> bool {
        self.0 == other.0
    }
}

impl Eq for Hash32 {
    ghost laws = { Prim.search (comparing, rules) };
}

impl PartialOrd for Hash32 {
    ghost partial_cmp = { as_partial_cmp (on hash_bytes (slice_cmp nat_cmp)) };

    ghost laws = { partial_order_from_own_ties (Prim.search (comparing, rules)) (Prim.search (comparing, rules)) };

    fn partial_cmp(&self, other: &Hash32) -> Option<Ordering> {
        Some(self.cmp(other))
    }
}

impl Ord for Hash32 {
    ghost cmp = { on hash_bytes (slice_cmp nat_cmp) };

    ghost total = { Prim.search (comparing, rules) };

    ghost matches_partial_cmp = { Prim.search (comparing, rules) };

    ghost matches_eq = { Prim.search (comparing, rules) };

    fn cmp(&self, other: &Hash32) -> Ordering {
        self.0.cmp(&other.0)
    }
}

impl PartialEq for PublicKey {
    ghost eq = { on key_bytes (pointwise ◌==◌) };

    ghost laws = { Prim.search (comparing, rules) };

    fn eq(&self, other: &PublicKey) -> bool {
        match (self, other) {
            (PublicKey::Ed25519(a), PublicKey::Ed25519(b)) => a == b,
            (PublicKey::Secp256k1(a), PublicKey::Secp256k1(b)) => a == b,
            _ => false,
        }
    }
}

impl Eq for PublicKey {
    ghost laws = { Prim.search (comparing, rules) };
}

impl PartialOrd for PublicKey {
    ghost partial_cmp = { as_partial_cmp (on key_bytes (slice_cmp nat_cmp)) };

    ghost laws = { partial_order_from_own_ties (Prim.search (comparing, rules)) (Prim.search (comparing, rules)) };

    fn partial_cmp(&self, other: &PublicKey) -> Option<Ordering> {
        Some(self.cmp(other))
    }
}

impl Ord for PublicKey {
    ghost cmp = { on key_bytes (slice_cmp nat_cmp) };

    ghost total = { Prim.search (comparing, rules) };

    ghost matches_partial_cmp = { Prim.search (comparing, rules) };

    ghost matches_eq = { Prim.search (comparing, rules) };

    fn cmp(&self, other: &PublicKey) -> Ordering {
        match (self, other) {
            (PublicKey::Ed25519(a), PublicKey::Ed25519(b)) => a.cmp(b),
            (PublicKey::Ed25519(_), PublicKey::Secp256k1(_)) => Ordering::Less,
            (PublicKey::Secp256k1(_), PublicKey::Ed25519(_)) => Ordering::Greater,
            (PublicKey::Secp256k1(a), PublicKey::Secp256k1(b)) => a.cmp(b),
        }
    }
}
