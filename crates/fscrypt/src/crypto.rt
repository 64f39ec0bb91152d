// Contents: a block sealed and opened in place, by the contents mode of a policy, under a derived key and the block's number.
ghost use Rattle.std.specs.Prelude.{◌≡◌};
ghost use Rattle.fscrypt.specs.Cipher.{seal, unseal};

// By AES-256-XTS: mode 1 is the one mode so far. To open is one call too, of another cipher: a parameter for the direction would be no plainer.
pub fn seal_block(mode: u8, key: &[u8], number: u64, block: &mut [u8])
    ensures { block.new ≡ seal mode key.now number block.old }
{
    ciphers::xts_encrypt(key, number, block);
}

pub fn open_block(mode: u8, key: &[u8], number: u64, block: &mut [u8])
    ensures { block.new ≡ unseal mode key.now number block.old }
{
    ciphers::xts_decrypt(key, number, block);
}
