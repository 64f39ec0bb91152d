// The derived key of an inode.
ghost use Rattle.std.specs.Prelude.{◌≡◌};
ghost use Rattle.fscrypt.specs.Cipher.{derive};

// The derived key in place of the master key: its blocks under AES-128 in ECB mode, the nonce being the AES key.
pub fn derive_key(key: &mut [u8], nonce: [u8; 16])
    ensures { key.new ≡ derive key.old nonce }
{
    ciphers::ecb_encrypt(&nonce, key);
}
