// Add key, remove key.
#![tactic(auto, using(crate::proofs::Lines::lines), unfolding(volume::specs::Checks::add_key_check, volume::specs::Checks::remove_key_check, volume::specs::Checks::is_bad_key_length))]

ghost use Rattle.std.specs.Prelude.{◌≡◌};
ghost use Rattle.volume.specs.Checks.{is_bad_key_length, add_key_check, remove_key_check};

use errno::Errno;
use lookup::keyring;
use volume::Volume;

fn is_bad_key_length(n: usize) -> bool
    ensures { result ≡ is_bad_key_length n }
{
    !matches!(n, 16 | 32 | 48 | 64)
}

pub fn add_key_check(v: &Volume, d: [u8; 8], n: usize) -> Result<(), Errno>
    ensures { result ≡ add_key_check v.now d n }
{
    if is_bad_key_length(n) {
        return Err(Errno::EINVAL);
    }
    if keyring::key_slot(v, d).is_some() {
        return Err(Errno::EEXIST);
    }
    if keyring::free_key(v).is_none() {
        return Err(Errno::ENOSPC);
    }
    Ok(())
}

pub fn remove_key_check(v: &Volume, d: [u8; 8]) -> Result<(), Errno>
    ensures { result ≡ remove_key_check v.now d }
{
    if keyring::key_slot(v, d).is_none() {
        return Err(Errno::ENOKEY);
    }
    Ok(())
}
