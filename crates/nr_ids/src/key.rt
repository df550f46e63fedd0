//! Hashes of 32 bytes, and public keys of two schemes.

/// A SHA-256 digest: 32 bytes, ordered from the first byte on.
#[derive(Clone, Copy, Debug)]
pub struct Hash32(pub [u8; 32]);

/// A public key of one of two schemes. Keys of 32 bytes come before those of 64, and keys of one
/// scheme are ordered from the first byte on.
#[derive(Clone, Copy, Debug)]
pub enum PublicKey {
    /// A key of 32 bytes.
    Ed25519([u8; 32]),
    /// A key of 64 bytes.
    Secp256k1([u8; 64]),
}
