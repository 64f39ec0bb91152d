// A user of the ciphers alone, as document 01's label printer is: each function encrypts in the lent buffer and decrypts again, or the other way round. Their proofs
// rest on what the entries of ciphers promise and on the laws in its proofs/Laws.antt; no definition of a cipher is opened.
#![tactic(auto)]

ghost use Rattle.std.specs.Prelude.{◌≡◌};
ghost use Rattle.ciphers.specs.Entries.{outcome, cts_encrypt, cts_decrypt, xts_encrypt};

// Each is named in docs/CLAIMS.md.
// Encrypts a text and decrypts it: the answer is encryption's, and the text is what it was, whatever the key and the text.
pub fn text_back(key: &[u8], text: &mut [u8]) -> ciphers::Status
    ensures { outcome result text.new ≡ outcome (cts_encrypt key.now text.old).status text.old }
{
    ciphers::cts_encrypt(key, text);
    ciphers::cts_decrypt(key, text)
}

// Decrypts a text and encrypts it again: the answer is decryption's, and the text is what it was.
pub fn text_again(key: &[u8], text: &mut [u8]) -> ciphers::Status
    ensures { outcome result text.new ≡ outcome (cts_decrypt key.now text.old).status text.old }
{
    ciphers::cts_decrypt(key, text);
    ciphers::cts_encrypt(key, text)
}

// Encrypts a block and decrypts it.
pub fn block_back(key: &[u8], block_number: u64, block: &mut [u8]) -> ciphers::Status
    ensures { outcome result block.new ≡ outcome (xts_encrypt key.now block_number block.old).status block.old }
{
    ciphers::xts_encrypt(key, block_number, block);
    ciphers::xts_decrypt(key, block_number, block)
}
